//! Texts of a rule set: names, and what stands in quotes.

ghost use Rattle.std.specs.Prelude.{◌≡◌, IfOk, string_bytes};
ghost use Rattle.fisca_symbols.specs.Steps.Spelling.{spelled};

use std::alloc::{AllocError, Global};
use std::borrow::CowStr;
use std::hash::{Hash, Hasher};
use std::marker::Model;

/// How a text is compared.
#[derive(Clone, Copy, Debug, PartialEq, Eq)]
pub(crate) enum Spelling {
    /// As it is written.
    Written,
    /// With capitals in place of small letters.
    Capitals,
}

/// A text, which is UTF-8, seen as its bytes: a piece of a module, or a copy where texts side by side are joined.
#[derive(Drop)]
pub struct SourceText<'a> {
    inner: CowStr<'a>,
}

impl<'a> Model for SourceText<'a> {
    ghost use Rattle.std.specs.Prelude.{ℕ, List};
    ghost use Rattle.std.specs.Cow.{cow_str_bytes};

    ghost Value = { List ℕ };

    ghost view = { λ t. cow_str_bytes t.inner };
}

impl<'a> SourceText<'a> {
    /// A piece of a module.
    pub fn borrowed(text: &'a str) -> SourceText<'a>
        ensures { result ≡ text.now }
    {
        SourceText {
            inner: CowStr::Borrowed(text),
        }
    }

    /// A text of its own.
    pub fn owned(text: String) -> SourceText<'a>
        ensures { result ≡ string_bytes text }
    {
        SourceText {
            inner: CowStr::Owned(text),
        }
    }

    /// The text.
    pub fn as_str(&self) -> &str
        ensures { result.now ≡ self.now }
    {
        match &self.inner {
            CowStr::Borrowed(text) => text,
            CowStr::Owned(text) => text.as_str(),
        }
    }

    /// The bytes.
    pub fn as_bytes(&self) -> &[u8]
        ensures { result.now ≡ self.now }
    {
        self.as_str().as_bytes()
    }

    /// The same text once more: a piece of a module takes no memory.
    pub fn copied(&self, alloc: Global) -> Result<SourceText<'a>, AllocError>
        ensures { IfOk result (λ t. t ≡ self.now) }
    {
        match &self.inner {
            CowStr::Borrowed(text) => Ok(SourceText::borrowed(text)),
            CowStr::Owned(text) => Ok(SourceText::owned(String::from_str(alloc, text.as_str())?)),
        }
    }

    /// The same text in this spelling.
    pub(crate) fn spelled(
        &self,
        alloc: Global,
        spelling: Spelling,
    ) -> Result<SourceText<'a>, AllocError>
        ensures { IfOk result (λ t. t ≡ spelled spelling self.now) }
    {
        match spelling {
            Spelling::Written => self.copied(alloc),
            Spelling::Capitals => Ok(SourceText::owned(self.as_str().to_ascii_uppercase(alloc)?)),
        }
    }
}

impl PartialEq for SourceText<'_> {
    ghost use Rattle.std.specs.Cmp.{partial_equiv_from_equiv};
    ghost use Rattle.std.specs.Cmp.Lexicographic.{nat_list_eq_equiv};
    ghost use Rattle.std.specs.Str.{bytes_eq};

    ghost eq = { bytes_eq };

    ghost laws = { partial_equiv_from_equiv nat_list_eq_equiv };

    fn eq(&self, other: &Self) -> bool {
        self.as_bytes() == other.as_bytes()
    }
}

impl Eq for SourceText<'_> {
    ghost use Rattle.std.specs.Cmp.Lexicographic.{nat_list_eq_equiv};

    ghost laws = { nat_list_eq_equiv };
}

impl Hash for SourceText<'_> {
    ghost use Rattle.std.proofs.Common.{ap};
    ghost use Rattle.std.specs.Cmp.Lexicographic.{bytes_decides};
    ghost use Rattle.std.specs.Hash as fed;

    ghost hash_input = { fed.slice fed.u8 };

    ghost respects_eq = { λ a b h. ap (fed.slice fed.u8) ((bytes_decides a b).0 h) };

    fn hash<H: Hasher>(&self, state: &mut H) {
        self.as_bytes().hash(state);
    }
}
