//! Why a text is refused.

ghost use Rattle.std.specs.Prelude.{◌≡◌, ◌≢◌, ◌<◌, ◌↔◌};
ghost use Rattle.fisca_yaml.specs.declared.fault.YamlKind.TheVariants as kinds;
ghost use Rattle.fisca_yaml.specs.Faults.{name_of, number_of};

use std::alloc::{AllocError, AllocFailed};
use thiserror::Error;

/// Why a text is refused: this project's own list, by its numbers.
#[derive(Clone, Copy, Debug, PartialEq, Eq, Error)]
#[error("{}", self.name())]
pub enum YamlKind {
    /// 1: a tab stands among the leading blanks of a line.
    Tab,
    /// 2: a line stands at an indentation that is not open, or below a value that stands on its line.
    BadIndent,
    /// 3: a map has a key twice.
    DuplicateKey,
    /// 4: a bracket is unclosed or misplaced, or a comma, a key's colon or an element is missing.
    BadFlow,
    /// 5: a quote is not closed on its line, an escape is unknown, or text follows the closing quote.
    BadQuote,
    /// 6: the line has a form of YAML that is left out, or none.
    Unsupported,
    /// 7: more than 16 lists and maps stand in one another.
    TooDeep,
    /// 8: the text has more than 1 MiB.
    TooLong,
    /// 9: a growth was refused.
    Memory,
}

impl YamlKind {
    /// The number of the kind, from 1 to 9.
    pub fn number(self) -> u8
        ensures { result ≡ number_of self }
    {
        match self {
            YamlKind::Tab => 1,
            YamlKind::BadIndent => 2,
            YamlKind::DuplicateKey => 3,
            YamlKind::BadFlow => 4,
            YamlKind::BadQuote => 5,
            YamlKind::Unsupported => 6,
            YamlKind::TooDeep => 7,
            YamlKind::TooLong => 8,
            YamlKind::Memory => 9,
        }
    }

    /// The plain name of the kind, as `BadIndent`.
    pub fn name(self) -> &'static str
        ensures { result.now ≡ name_of self }
    {
        match self {
            YamlKind::Tab => "Tab",
            YamlKind::BadIndent => "BadIndent",
            YamlKind::DuplicateKey => "DuplicateKey",
            YamlKind::BadFlow => "BadFlow",
            YamlKind::BadQuote => "BadQuote",
            YamlKind::Unsupported => "Unsupported",
            YamlKind::TooDeep => "TooDeep",
            YamlKind::TooLong => "TooLong",
            YamlKind::Memory => "Memory",
        }
    }
}

/// A refusal, and the line where the text's first fault stands, counted from 1 (0 for want of memory).
#[derive(Clone, Copy, Debug, PartialEq, Eq, Error)]
#[error("{line}: {kind}")]
pub struct YamlFault {
    pub line: usize,
    pub kind: YamlKind,
    pub ghost placed: { (line ≡ 0) ↔ (kind ≡ kinds.Memory) },
}

impl From<AllocError> for YamlFault {
    ghost use Rattle.std.specs.Prelude.{◌≡◌};
    ghost use Rattle.fisca_yaml.specs.declared.fault.YamlKind.TheVariants.{Memory};

    ghost from_gives = { λ _ f. (f.kind ≡ Memory) × (f.line ≡ 0) };

    fn from(_error: AllocError) -> YamlFault {
        YamlFault {
            line: 0,
            kind: YamlKind::Memory,
        }
    }
}

impl<T: Drop> From<AllocFailed<T>> for YamlFault {
    ghost use Rattle.std.specs.Prelude.{◌≡◌};
    ghost use Rattle.fisca_yaml.specs.declared.fault.YamlKind.TheVariants.{Memory};

    ghost from_gives = { λ _ f. (f.kind ≡ Memory) × (f.line ≡ 0) };

    fn from(_error: AllocFailed<T>) -> YamlFault {
        YamlFault {
            line: 0,
            kind: YamlKind::Memory,
        }
    }
}

/// The fault of a line.
pub(crate) fn at(line: usize, kind: YamlKind) -> YamlFault
    requires numbered { 0 < line }
    requires known { kind ≢ YamlKind.Memory }
    ensures line { result.line ≡ line }
    ensures kind { result.kind ≡ kind }
{
    YamlFault { line, kind }
}
