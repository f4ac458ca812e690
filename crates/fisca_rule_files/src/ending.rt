//! How a command ends.

ghost use Rattle.std.specs.Prelude.{◌≡◌, None, option_map, IfOk, string_bytes};
ghost use Rattle.fisca_rule_files.specs.Ending.{done, judged, run_done, run_status, told_of, unread_text, IsEndTold, IsTold, IsUnreadTold};
ghost use Rattle.fisca_rule_files.specs.Refusal.{paths_of};
ghost use Rattle.fisca_writer.specs.LastLine.{end_text};

use crate::refusal::Refusal;
use fisca_folder::{ToldPath, write_shown};
use fisca_test_file::Verdict;
use fisca_writer::{RunEnd, RunFault};
use std::alloc::{AllocError, Global};
use std::borrow::CowStr;
use std::marker::Model;

/// How a command ended: its exit status, and the line that it tells on standard error where it was refused or failed.
#[derive(Debug, Drop)]
pub struct Ending {
    status: u8,
    told: Option<CowStr<'static>>,
}

impl Model for Ending {
    ghost use Rattle.std.specs.Prelude.{option_map};
    ghost use Rattle.std.specs.Cow.{cow_str_bytes};
    ghost use Rattle.fisca_rule_files.specs.Ending.{TaskOutcome};

    ghost Value = { TaskOutcome };

    ghost view = { λ e. record { status = e.status; told = option_map (λ text. cow_str_bytes text) e.told } };
}

impl Ending {
    /// The ending of a command that was done.
    pub fn done() -> Self
        ensures { result ≡ done }
    {
        Ending::of_status(0)
    }

    /// The ending of a run that wrote its last line: 4 where a word stands in the place of a value, else 0.
    pub fn run(lacks: bool) -> Self
        ensures { result ≡ run_done lacks }
    {
        Ending::of_status(run_status(lacks))
    }

    /// The ending of a run whose lines are a table: its last line is told, or that there is no memory for it.
    pub fn ended(alloc: Global, end: RunEnd, lacks: bool) -> Self
        ensures { IsEndTold end lacks result }
    {
        match end_line(alloc, end) {
            Ok(line) => Ending {
                status: run_status(lacks),
                told: Some(CowStr::Owned(line)),
            },
            Err(_) => Ending::told(6, "fisca: out of memory"),
        }
    }

    /// The ending with this status, of which nothing more is told.
    pub fn of_status(status: u8) -> Self
        ensures { result ≡ record { status = status; told = None } }
    {
        Ending { status, told: None }
    }

    /// The ending of a command whose own file, at this path, cannot be read further: the status 5 and the line of a file that cannot be read, or those
    /// for want of memory.
    pub fn unread(alloc: Global, path: &str) -> Self
        ensures { IsUnreadTold path.now result }
    {
        match unread_line(alloc, path) {
            Ok(line) => Ending {
                status: 5,
                told: Some(CowStr::Owned(line)),
            },
            Err(_) => Ending::told(6, "fisca: out of memory"),
        }
    }

    /// The ending of tests that were worked out: 0 where all passed, and 1 where one failed.
    pub fn judged(verdict: Verdict) -> Self
        ensures { result ≡ judged verdict }
    {
        Ending {
            status: if verdict.failed == 0 { 0 } else { 1 },
            told: None,
        }
    }

    /// The ending of a command that was refused: the refusal's status and line, or those for want of memory where the line
    /// finds none. A failed write is told without memory. `path` names the command's own file, if it has one, and `told_paths` says how the paths of rule files
    /// are told.
    pub fn refused(alloc: Global, refusal: &Refusal, path: &str, told_paths: &[ToldPath]) -> Self
        ensures { IsTold (paths_of path.now told_paths.now) refusal.now result }
    {
        if let Refusal::Write | Refusal::Run(RunFault::Write { .. }) = refusal {
            return Ending::told(5, "fisca: write failed");
        }
        match refusal.line(alloc, path, told_paths) {
            Ok(line) => Ending {
                status: refusal.status(),
                told: Some(CowStr::Owned(line)),
            },
            Err(_) => Ending::told(6, "fisca: out of memory"),
        }
    }

    /// The ending with this status and this line.
    fn told(status: u8, line: &'static str) -> Self
        ensures status { result.status ≡ status }
        ensures line { result.told ≡ Some line.now }
    {
        Ending {
            status,
            told: Some(CowStr::Borrowed(line)),
        }
    }

    /// The exit status: 0 where the command was done, 1 where a test failed, else that of [`Refusal::status`].
    pub fn status(&self) -> u8
        ensures { result ≡ self.now.status }
    {
        self.status
    }

    /// The line for standard error, without its line feed, if there is one.
    pub fn line(&self) -> Option<&str>
        ensures { option_map (λ line. line.now) result ≡ self.now.told }
    {
        match &self.told {
            Some(line) => Some(line.as_str()),
            None => None,
        }
    }
}

/// The status of a run that nothing stopped.
fn run_status(lacks: bool) -> u8
    ensures { result ≡ run_status lacks }
{
    if lacks { 4 } else { 0 }
}

/// The last line of a run, without its line feed.
fn end_line(alloc: Global, end: RunEnd) -> Result<String, AllocError>
    ensures { IfOk result (λ line. string_bytes line ≡ end_text end) }
{
    match end {
        RunEnd::End => String::from_str(alloc, "end"),
        RunEnd::More(position) => {
            let mut line = String::from_str(alloc, "more ")?;
            line.push_str(itoa::Buffer::new().format(position))?;
            Ok(line)
        }
    }
}

/// `fisca: PATH: cannot read`.
fn unread_line(alloc: Global, path: &str) -> Result<String, AllocError>
    ensures { IfOk result (λ line. string_bytes line ≡ unread_text path.now) }
{
    let mut line = String::from_str(alloc, "fisca: ")?;
    write_shown(path, &mut line)?;
    line.push_str(": cannot read")?;
    Ok(line)
}
