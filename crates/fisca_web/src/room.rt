//! The room that a page has for an answer.

ghost use Rattle.std.specs.Prelude.{◌≡◌, [], true, false, take, length, unwrap_or};
ghost use Rattle.fisca_web.specs.Reply.{Says};

use crate::reply::{Outcome, Reply};
use clap::Error;
use fisca_commands::Ending;
use fisca_writer::{MemorySink, hand_over};
use std::alloc::Global;

/// Puts bytes at the beginning of a room, where it has so many.
fn put(bytes: &[u8], out: &mut [u8]) -> bool
    ensures { result ≡ true → take (length bytes.now) out.new ≡ bytes.now }
{
    if out.len() < bytes.len() {
        return false;
    }
    out[..bytes.len()].copy_from_slice(bytes);
    true
}

/// The line for standard error, which is empty where there is none.
pub(crate) fn line_of(ending: &Ending) -> &str
    ensures { result.now ≡ unwrap_or ending.now.told [] }
{
    match ending.line() {
        Some(line) => line,
        None => "",
    }
}

/// Tells a page how something ended that wrote what the sink holds: puts that into the room, and behind it what is told.
pub(crate) fn tell(
    sink: &mut MemorySink,
    told: &[u8],
    status: u8,
    out: &mut [u8],
    reply: &mut Reply,
) -> bool
    ensures { result ≡ true → Says sink.old.bytes told.now status out.new reply.new }
{
    let written = sink.bytes().len();
    if hand_over(sink, told).is_err() {
        return reply.fail(Outcome::NoMemory);
    }
    *reply = Reply {
        outcome: Outcome::Done as usize,
        status: usize::from(status),
        written,
        told: told.len(),
    };
    if put(sink.bytes(), out) {
        true
    } else {
        reply.outcome = Outcome::NoRoom as usize;
        false
    }
}

/// Puts the text of words that ask for no task into a room: the help, or why they are refused.
pub(crate) fn put_error(alloc: Global, error: &Error, out: &mut [u8], reply: &mut Reply) -> bool
    ensures { result ≡ false }
{
    let Ok(text) = format!(in alloc; "{error}") else {
        return reply.fail(Outcome::NoMemory);
    };
    reply.written = text.len();
    if !put(text.as_bytes(), out) {
        return reply.fail(Outcome::NoRoom);
    }
    reply.fail(if error.use_stderr() {
        Outcome::Usage
    } else {
        Outcome::Help
    })
}
