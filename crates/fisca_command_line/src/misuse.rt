//! Options that mean nothing, or nothing together.

ghost use Rattle.std.specs.Prelude.{◌≡◌, [], ◌∷◌, IfOk};
ghost use Rattle.clap.specs.Kinds.{HasKind};
ghost use Rattle.clap.specs.Values.{kind_of as told_kind};
ghost use Rattle.fisca_command_line.specs.Misuse.{kind_of};

use clap::error::ErrorKind;
use clap::{Command, Error};
use std::alloc::AllocError;

/// Why options mean nothing. This project's own rule.
#[derive(Clone, Copy, Debug, PartialEq, Eq)]
pub enum Misuse {
    /// The text of `--part` is no part.
    BadPart,
    /// A part has its own start.
    PartWithFrom,
    /// A part has its own end.
    PartWithTo,
    /// The text of `--format` is no form.
    BadFormat,
    /// The text of `--format` is no form of an explanation.
    BadExplainFormat,
    /// Lines of JSON name their cells.
    HeaderWithJson,
}

impl Misuse {
    /// The kind of error that `clap` has for it.
    fn kind(self) -> ErrorKind
        ensures { result ≡ kind_of self }
    {
        match self {
            Misuse::BadPart => ErrorKind::ValueValidation,
            Misuse::BadFormat | Misuse::BadExplainFormat => ErrorKind::InvalidValue,
            Misuse::PartWithFrom | Misuse::PartWithTo | Misuse::HeaderWithJson => {
                ErrorKind::ArgumentConflict
            }
        }
    }

    /// What is told of it.
    fn reason(self) -> &'static str {
        match self {
            Misuse::BadPart => {
                "invalid value for '--part <I/N>': I is a number from 1 to N, and N at most 1000000"
            }
            Misuse::PartWithFrom => {
                "the argument '--part <I/N>' cannot be used with '--from <P>': a part begins where the one before it ends"
            }
            Misuse::PartWithTo => {
                "the argument '--part <I/N>' cannot be used with '--to <P>': a part ends where the next one begins"
            }
            Misuse::BadFormat => "invalid value for '--format <FORM>': FORM is tsv, csv or jsonl",
            Misuse::BadExplainFormat => {
                "invalid value for '--format <FORM>': FORM is text or jsonl"
            }
            Misuse::HeaderWithJson => {
                "the argument '--header' cannot be used with '--format jsonl': each line names its cells"
            }
        }
    }

    /// The error of it, with the usage of the command under this name, as `clap` tells its own. Want of memory is another kind.
    pub fn error(self, command: Command<'_>, name: &str) -> Error
        ensures { HasKind (kind_of self ∷ []) result }
    {
        match told(self, command, name) {
            Ok(error) => error,
            Err(error) => Error::from(error),
        }
    }
}

/// The same, where memory lasts.
fn told(misuse: Misuse, command: Command<'_>, name: &str) -> Result<Error, AllocError>
    ensures { IfOk result (λ error. told_kind error ≡ kind_of misuse) }
{
    let mut command = command.bin_name(name)?;
    command.error(misuse.kind(), misuse.reason())
}
