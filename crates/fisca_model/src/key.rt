//! What a value is of.

ghost use Rattle.std.specs.Prelude.{◌≡◌, ◌+◌, ◌%◌};

use fisca_time::Period;

/// How many notes a table has of where keys stand.
pub const NOTES: usize = 64;

/// What a value is of: a variable, a member of its entity, and a period. That of an eternal variable has the eternal period.
#[derive(Clone, Copy, Debug, PartialEq, Eq, Hash)]
pub struct Key {
    /// The place of the variable among all.
    pub variable: usize,
    /// The place of the person or group among those of its kind.
    pub member: u32,
    /// The period.
    pub period: Period,
}

impl Key {
    /// Which of so many notes is that of the key: it tells where to look for the key first. Members that follow one another have notes of
    /// their own. The rule is this project's own.
    #[inline(always)]
    pub fn note(&self) -> usize
        ensures { result ≡ (self.now.variable % 64 + self.now.member % 64) % 64 }
    {
        (self.variable % NOTES + self.member as usize % NOTES) % NOTES
    }
}
