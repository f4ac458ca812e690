//! The lines of a run.

ghost use Rattle.std.specs.Prelude.{◌≡◌, ⊤, ℕ, ◌+◌, ◌*◌, ◌-◌, ◌<◌, ◌≤◌, ◌^◌, ◌==◌, nat_lt, cond, List, [], ◌∷◌, ◌++◌, Some};
ghost use Rattle.std.specs.Fmt.{decimal};
ghost use Rattle.fisca_writer.specs.Row.{Nothing, Line, Fault};

use fisca_writer::{
    GroupLengths, Limit, MemorySink, Odometer, RowFault, RowSink, Rows, RunEnd, RunFault,
    Selection, SinkFault, StreamSink, write_lines,
};
use std::alloc::Global;

/// A limit of two lines.
const TWO_LINES: Limit = Limit {
    to: None,
    rows: Some(2),
};

/// The value at a position is 500 times the position. The positions from `first` on are kept, and at
/// `broken` stands a fault.
#[derive(Drop)]
struct Salaries {
    count: u32,
    first: u64,
    broken: u64,
    here: Option<u64>,
    ghost some: { 0 < count },
}

impl Rows for Salaries {
    type Fault = u64;

    ghost row_at = { λ s position. cond (nat_lt position s.first) Nothing (cond (position == s.broken) (Fault position) (Line (decimal position ++ 9 ∷ (decimal (500 * position) ++ 10 ∷ [])))) };

    ghost counts = { λ s. s.count ∷ [] };

    ghost here = { λ s. s.here };

    ghost ready = { λ _. ⊤ };

    ghost worked = { λ _ _ _. ⊤ };

    ghost refused = { λ _ _ _. ⊤ };

    fn groups(&self) -> GroupLengths {
        let mut groups = GroupLengths::new();
        groups.push(u64::from(self.count));
        groups
    }

    fn work_out(
        &mut self,
        position: u64,
        _turned: u32,
        line: &mut String,
    ) -> Result<Selection, RowFault<Self::Fault>> {
        self.here = Some(position);
        if position < self.first {
            return Ok(Selection::Dropped);
        }
        if position == self.broken {
            return Err(RowFault::Eval(position));
        }
        let value = 500 * position;
        match write!(line, "{position}\t{value}\n") {
            Ok(()) => Ok(Selection::Kept),
            Err(_) => Err(RowFault::Memory),
        }
    }
}

/// Rows without lines, which note the positions that they are asked for, and how many groups have turned.
#[derive(Drop)]
struct Noted {
    groups: GroupLengths,
    asked: Vec<(u64, u32)>,
    here: Option<u64>,
}

impl Rows for Noted {
    type Fault = u64;

    ghost row_at = { λ _ _. Nothing };

    ghost counts = { λ s. s.groups };

    ghost here = { λ s. s.here };

    ghost ready = { λ _. ⊤ };

    ghost worked = { λ s position t. (turned : ℕ) × (t.asked.items ≡ s.asked.items ++ (position, turned) ∷ []) };

    ghost refused = { λ s _ t. t.asked.items ≡ s.asked.items };

    fn groups(&self) -> GroupLengths {
        self.groups.copied()
    }

    fn work_out(
        &mut self,
        position: u64,
        turned: u32,
        _line: &mut String,
    ) -> Result<Selection, RowFault<Self::Fault>> {
        self.here = Some(position);
        match self.asked.push((position, turned)) {
            Ok(()) => Ok(Selection::Dropped),
            Err(_) => Err(RowFault::Memory),
        }
    }
}

/// Three groups of 3, 1 and 2 places.
fn make_wheels() -> GroupLengths
    ensures { result ≡ 3 ∷ 1 ∷ 2 ∷ [] }
{
    let mut groups = GroupLengths::new();
    groups.push(3);
    groups.push(1);
    groups.push(2);
    groups
}

#[test]
fn each_row_is_worked_out_once_in_order_and_told_what_turned(rt: HostRuntime) {
    let mut rows = Noted {
        groups: make_wheels(),
        asked: Vec::new(rt.alloc()),
        here: None,
    };
    let mut sink = MemorySink::new(rt.alloc());
    let end = write_lines(rt.alloc(), &mut rows, 1, Limit::none(), &mut sink);
    let asked = [(1, 3), (2, 1), (3, 3), (4, 1), (5, 1)];
    assert_eq!(rt; end, Ok(RunEnd::End));
    assert_eq!(rt; rows.asked.as_slice(), asked.as_slice());
}

#[test]
fn an_odometer_tells_how_many_groups_turned(rt: HostRuntime) {
    let mut odometer = Odometer::new(make_wheels(), 1);
    assert_eq!(rt; odometer.turned(), 0);
    assert_eq!(rt; odometer.remaining(), 5);
    for (position, turned) in [(1, 3), (2, 1), (3, 3), (4, 1), (5, 1)] {
        assert_eq!(rt; odometer.next(), Some(position));
        assert_eq!(rt; odometer.turned(), turned, "at {position}");
    }
    assert_eq!(rt; odometer.next(), None);
    assert_eq!(rt; odometer.turned(), 1);
    assert_eq!(rt; odometer.remaining(), 0);
}

#[test]
fn an_odometer_behind_the_last_position_gives_none(rt: HostRuntime) {
    for start in [6, 7, u64::MAX] {
        let mut odometer = Odometer::new(make_wheels(), start);
        assert_eq!(rt; odometer.remaining(), 0, "from {start}");
        assert_eq!(rt; odometer.next(), None, "from {start}");
        assert_eq!(rt; odometer.turned(), 0, "from {start}");
    }
}

#[test]
fn no_group_has_one_position(rt: HostRuntime) {
    let mut odometer = Odometer::new(GroupLengths::new(), 0);
    assert_eq!(rt; odometer.next(), Some(0));
    assert_eq!(rt; odometer.turned(), 0);
    assert_eq!(rt; odometer.next(), None);
}

/// Takes a few bytes a call while it has room, and then fails: by an error, or by taking nothing.
#[derive(Drop)]
struct Narrow {
    held: Vec<u8>,
    per_call: usize,
    room: usize,
    answers_zero: bool,
    failed: u64,
}

impl RowSink for Narrow {
    ghost taken = { λ s. Some s.held.items };

    ghost failures = { λ s. s.failed };

    fn take(&mut self, bytes: &[u8]) -> Result<usize, SinkFault> {
        let count = self.per_call.min(self.room).min(bytes.len());
        if count == 0 && !bytes.is_empty() {
            self.failed = self.failed.saturating_add(1);
            return if self.answers_zero {
                Ok(0)
            } else {
                Err(SinkFault::Write)
            };
        }
        match self.held.extend_from_slice(&bytes[..count]) {
            Ok(()) => {
                self.room -= count;
                Ok(count)
            }
            Err(_) => {
                self.failed = self.failed.saturating_add(1);
                Err(SinkFault::Memory)
            }
        }
    }
}

/// The text of all five lines.
const ALL: &[u8] = b"0\t0\n1\t500\n2\t1000\n3\t1500\n4\t2000\n";

/// How many of its lines are whole in so many of its first bytes, below all of them.
fn count_whole(bytes: usize) -> u64 {
    match bytes {
        0..=3 => 0,
        4..=9 => 1,
        10..=16 => 2,
        17..=23 => 3,
        _ => 4,
    }
}

/// The salaries 0, 500, 1000, 1500 and 2000.
fn make_salaries(first: u64, broken: u64) -> Salaries {
    Salaries {
        count: 5,
        first,
        broken,
        here: None,
    }
}

/// Whether a run over a sink in memory gives this answer and writes this.
fn writes(
    alloc: Global,
    mut salaries: Salaries,
    from: u64,
    limit: Option<u64>,
    wanted: Result<RunEnd, RunFault<u64>>,
    written: &[u8],
) -> bool {
    let mut sink = MemorySink::new(alloc);
    let limit = Limit {
        to: None,
        rows: limit,
    };
    let answer = write_lines(alloc, &mut salaries, from, limit, &mut sink);
    answer == wanted && sink.bytes() == written && sink.failures() == 0
}

#[test]
fn lines_from_a_start_up_to_a_limit(rt: HostRuntime) {
    let last_two = b"3\t1500\n4\t2000\n".as_slice();
    let first_four = b"0\t0\n1\t500\n2\t1000\n3\t1500\n".as_slice();
    let from_one = b"1\t500\n2\t1000\n3\t1500\n4\t2000\n".as_slice();
    let two = b"1\t500\n2\t1000\n".as_slice();
    let none = b"".as_slice();
    // the first position kept, the start, the limit, the answer, and what is written
    let table = [
        (1, 0, Some(2), Ok(RunEnd::More(3)), two),
        (1, 3, None, Ok(RunEnd::End), last_two),
        (0, 0, Some(0), Ok(RunEnd::More(0)), none),
        (0, 0, Some(4), Ok(RunEnd::More(4)), first_four),
        (0, 0, Some(5), Ok(RunEnd::End), ALL),
        (1, 0, Some(5), Ok(RunEnd::End), from_one),
        (0, 5, None, Ok(RunEnd::End), none),
        (0, 5, Some(0), Ok(RunEnd::End), none),
        (0, 6, None, Err(RunFault::BadPosition), none),
    ];
    for (first, from, limit, wanted, written) in table {
        let salaries = make_salaries(first, 9);
        assert!(rt;
            writes(rt.alloc(), salaries, from, limit, wanted, written),
            "from {from}"
        );
    }
}

#[test]
fn a_fault_ends_the_lines_where_the_limit_does_not_come_first(rt: HostRuntime) {
    let fault = Err(RunFault::Eval {
        position: 3,
        fault: 3,
    });
    let before = b"0\t0\n1\t500\n2\t1000\n".as_slice();
    let none = b"".as_slice();
    let last = b"4\t2000\n".as_slice();
    let table = [
        (0, None, fault, before),
        (0, Some(4), fault, before),
        (0, Some(3), Ok(RunEnd::More(3)), before),
        (3, None, fault, none),
        (4, None, Ok(RunEnd::End), last),
    ];
    for (from, limit, wanted, written) in table {
        let salaries = make_salaries(0, 3);
        assert!(rt;
            writes(rt.alloc(), salaries, from, limit, wanted, written),
            "from {from}"
        );
    }
}

#[test]
fn a_sink_that_takes_three_bytes_breaks_the_first_line(rt: HostRuntime) {
    let mut sink = Narrow {
        held: Vec::new(rt.alloc()),
        per_call: 3,
        room: 3,
        answers_zero: false,
        failed: 0,
    };
    let answer = write_lines(
        rt.alloc(),
        &mut make_salaries(1, 9),
        0,
        TWO_LINES,
        &mut sink,
    );
    assert_eq!(rt; answer, Err(RunFault::Write { position: 1 }));
    assert_eq!(rt; sink.held.as_slice(), b"1\t5".as_slice());
    assert_eq!(rt; sink.failed, 1);
}

/// Whether a run over this sink fails where its room ends, with the text up to there.
fn is_broken(alloc: Global, mut sink: Narrow) -> bool {
    let room = sink.room;
    let answer = write_lines(alloc, &mut make_salaries(0, 9), 0, Limit::none(), &mut sink);
    let position = count_whole(room);
    let is_told = answer == Err(RunFault::Write { position });
    is_told && ALL.get(..room) == Some(sink.held.as_slice()) && sink.failed == 1
}

#[test]
fn a_sink_that_fails_at_any_call_has_the_text_up_to_it(rt: HostRuntime) {
    for answers_zero in [false, true] {
        for room in 0..ALL.len() {
            let sink = Narrow {
                held: Vec::new(rt.alloc()),
                per_call: 1,
                room,
                answers_zero,
                failed: 0,
            };
            assert!(rt; is_broken(rt.alloc(), sink), "after {room} bytes");
        }
    }
}

/// Whether the sink has just what an answer says, and a run that stopped for want of memory can be resumed.
fn is_right(alloc: Global, answer: Result<RunEnd, RunFault<u64>>, sink: &mut MemorySink) -> bool {
    match answer {
        Err(RunFault::Memory { position }) => {
            let rest = write_lines(
                alloc,
                &mut make_salaries(0, 9),
                position,
                Limit::none(),
                sink,
            );
            rest == Ok(RunEnd::End) && sink.bytes() == ALL
        }
        Err(RunFault::Write { position }) => {
            position < 5 && ALL.starts_with(sink.bytes()) && sink.failures() == 1
        }
        other => other == Ok(RunEnd::End) && sink.bytes() == ALL,
    }
}

#[test]
fn a_refused_growth_leaves_a_run_that_can_be_resumed(rt: HostRuntime) {
    let mut sink = MemorySink::new(rt.alloc());
    let answer = write_lines(
        rt.alloc(),
        &mut make_salaries(0, 9),
        0,
        Limit::none(),
        &mut sink,
    );
    assert!(rt; is_right(rt.alloc(), answer, &mut sink));
}

#[test]
fn lines_pass_through_a_stream(rt: HostRuntime) {
    let mut sink = StreamSink::new(Vec::new(rt.alloc()));
    let answer = write_lines(
        rt.alloc(),
        &mut make_salaries(0, 9),
        0,
        TWO_LINES,
        &mut sink,
    );
    assert_eq!(rt; answer, Ok(RunEnd::More(2)));
    assert_eq!(rt; sink.writer().as_slice(), b"0\t0\n1\t500\n".as_slice());
}
