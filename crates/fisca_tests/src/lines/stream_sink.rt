//! The sink before a writer.

use fisca_writer::{RowSink, SinkFault, StreamSink, hand_over};
use std::alloc::Global;
use std::io;
use std::io::{ErrorKind, Write};

/// A writer that is interrupted at the first call, then takes two bytes a call until it holds seven,
/// and then either fails or takes nothing. It cannot be flushed once it has failed.
#[derive(Drop)]
struct Halting {
    held: Vec<u8>,
    calls: u64,
    answers_zero: bool,
}

impl Write for Halting {
    fn write(&mut self, bytes: &[u8]) -> io::Result<usize> {
        self.calls = self.calls.saturating_add(1);
        if self.calls == 1 {
            return Err(io::Error::from(ErrorKind::Interrupted));
        }
        let room = 7usize.saturating_sub(self.held.len());
        if room == 0 && !self.answers_zero {
            return Err(io::Error::from(ErrorKind::StorageFull));
        }
        let count = room.min(2).min(bytes.len());
        self.held.extend_from_slice(&bytes[..count])?;
        Ok(count)
    }

    fn flush(&mut self) -> io::Result<()> {
        if self.held.len() < 7 {
            Ok(())
        } else {
            Err(io::Error::from(ErrorKind::StorageFull))
        }
    }
}

/// A sink before such a writer.
fn make_halting(alloc: Global, answers_zero: bool) -> StreamSink<Halting> {
    StreamSink::new(Halting {
        held: Vec::new(alloc),
        calls: 0,
        answers_zero,
    })
}

#[test]
fn a_stream_tries_again_when_interrupted(rt: HostRuntime) {
    for answers_zero in [false, true] {
        let mut sink = make_halting(rt.alloc(), answers_zero);
        assert_eq!(rt; hand_over(&mut sink, b"12345"), Ok(()));
        assert_eq!(rt; sink.failures(), 0);
        assert_eq!(rt; sink.flush(), Ok(()));
        assert_eq!(rt; sink.failures(), 0);
    }
}

/// Whether a sink that has taken five bytes takes just two more, and counts this and each further failure.
fn counts_failures(mut sink: StreamSink<Halting>, empty: Result<usize, SinkFault>) -> bool {
    let handed = hand_over(&mut sink, b"6789");
    let first = sink.failures();
    let taken = sink.take(b"");
    let flushed = sink.flush();
    let further = if empty.is_ok() { 2 } else { 3 };
    handed == Err(SinkFault::Write)
        && first == 1
        && taken == empty
        && flushed == Err(SinkFault::Write)
        && sink.failures() == further
        && sink.writer().held.as_slice() == b"1234567".as_slice()
        && sink.into_writer().held.len() == 7
}

#[test]
fn a_stream_counts_each_failure(rt: HostRuntime) {
    for (answers_zero, empty) in [(false, Err(SinkFault::Write)), (true, Ok(0))] {
        let mut sink = make_halting(rt.alloc(), answers_zero);
        assert_eq!(rt; hand_over(&mut sink, b"12345"), Ok(()));
        assert!(rt; counts_failures(sink, empty));
    }
}
