//! The table of inputs.

ghost use Rattle.std.specs.Prelude.{◌≡◌, ◌<◌, ◌⊎◌, ◌==◌, ℕ, [], ◌∷◌, false, true, length, IfOk, OnOk};
ghost use Rattle.std.specs.List.{AllByRecursion, list_all};
ghost use Rattle.std.specs.Map.{keys_of};
ghost use Rattle.fisca_inputs.specs.Anew.{set_keys};
ghost use Rattle.fisca_inputs.specs.Inputs.{without_marked};
ghost use Rattle.fisca_inputs.specs.Defaults.{HaveFirst, and_row, row_key, rows_of};
ghost use Rattle.fisca_inputs.specs.Entries as spec;
ghost use Rattle.fisca_inputs.specs.Steps.Entries as steps;
ghost use Rattle.fisca_inputs.specs.Outcomes.{Becomes};

use crate::fault::{SituationFault, SituationKind};
use crate::hashed::Numbers;
use crate::table::{ROOM, Table};
use fisca_model::{Key, Value};
use std::alloc::{AllocError, Global};
use std::hash::BuildHasherDefault;
use std::marker::Model;

/// The largest number of inputs.
pub(crate) const LIMIT: usize = 100_000;

/// The inputs of a situation: a value for each key that has one, seen as the list of its entries. The table, which takes half a KiB beside
/// its lists, stands in a box, since situations are handed on.
#[derive(Drop)]
pub struct Inputs {
    alloc: Global,
    table: Box<Table>,
}

impl Model for Inputs {
    ghost use Rattle.fisca_inputs.specs.Entries.{Entries};

    ghost Value = { Entries };

    ghost view = { λ i. i.table.value.entries.items };
}

impl Inputs {
    /// None.
    pub(crate) fn new(alloc: Global) -> Result<Inputs, AllocError>
        ensures { IfOk result (λ i. i ≡ []) }
    {
        Ok(Inputs {
            alloc,
            table: Box::new(alloc, Table::new(alloc))?,
        })
    }

    /// Makes room for so many more entries.
    pub(crate) fn reserve(&mut self, count: usize) -> Result<(), AllocError>
        ensures { self.new ≡ self.old }
    {
        self.table.reserve(count)
    }

    /// How many there are.
    pub(crate) fn count(&self) -> usize
        ensures { result ≡ length self.now }
    {
        self.table.entries.len()
    }

    /// The value of a key, by one look-up and without memory.
    #[inline(always)]
    pub fn input(&self, key: &Key) -> Option<Value>
        ensures { result ≡ spec.value_at self.now key.now }
    {
        self.table.value(key)
    }

    /// One entry more, of a key that has none. `TooMany` at this line where there are a hundred thousand.
    pub(crate) fn put(&mut self, line: usize, key: Key, value: Value) -> Result<(), SituationFault>
        requires { steps.has self.old key ≡ false }
        ensures { Becomes (steps.put line key value self.old) self.new result }
    {
        if self.table.entries.len() >= LIMIT {
            return Err(SituationFault {
                line,
                kind: SituationKind::TooMany,
            });
        }
        self.table.append(self.alloc, key, value)?;
        Ok(())
    }

    /// The same, of a key that may have one and keeps it.
    pub(crate) fn put_free(
        &mut self,
        line: usize,
        value: Value,
        key: Key,
    ) -> Result<(), SituationFault>
        ensures { Becomes (steps.put_free line value key self.old) self.new result }
    {
        if self.table.has(&key) {
            return Ok(());
        }
        self.put(line, key, value)
    }

    /// The variables and periods that some member has a value for, each once, by the key of the first member, with how many of the first
    /// members have one for sure. Where all members have one, in their order, these are all.
    pub(crate) fn rows(&self, alloc: Global) -> Result<Numbers, AllocError>
        ensures rows { IfOk result (λ rows. keys_of rows.entries ≡ rows_of self.now) }
        ensures first { IfOk result (λ rows. AllByRecursion (HaveFirst self.now) rows.entries) }
    {
        rows_among(alloc, self.table.entries.as_slice())
    }

    /// Whether each value is of a first member.
    pub(crate) fn are_of_first(&self) -> bool
        ensures { result ≡ list_all (λ e. e.0.member == 0) self.now }
    {
        let entries = self.table.entries.as_slice();
        for entry in entries {
            if entry.0.member != 0 {
                return false;
            }
        }
        true
    }

    /// Gives this value to a key, where it has one: no key comes or goes. It costs one look-up, and takes no memory.
    pub fn set(&mut self, key: &Key, value: Value)
        ensures { self.new ≡ set_keys (key.now ∷ []) value self.old }
    {
        self.table.set(key, value);
    }

    /// Takes out the inputs of the variables that have a mark, by their places. There is none past the last mark.
    pub fn neutralize(&mut self, marks: &[bool])
        ensures { self.new ≡ without_marked marks.now self.old }
    {
        self.table.take_out(marks);
    }
}

/// The key of the first member for the variable and period of a key.
fn row_of(key: &Key) -> Key
    ensures { result ≡ row_key key.now }
{
    Key {
        variable: key.variable,
        member: 0,
        period: key.period,
    }
}

/// The variables and periods of these entries.
fn rows_among(alloc: Global, entries: &[(Key, Value)]) -> Result<Numbers, AllocError>
    ensures rows { IfOk result (λ rows. keys_of rows.entries ≡ rows_of entries.now) }
    ensures first { IfOk result (λ rows. AllByRecursion (HaveFirst entries.now) rows.entries) }
{
    let mut rows = Numbers::with_hasher(alloc, BuildHasherDefault::new());
    rows.reserve(entries.len().min(ROOM))?;
    for entry in entries {
        note_member(&mut rows, row_of(&entry.0), entry.0.member)?;
    }
    Ok(rows)
}

/// How many of the first members have a value for sure, where so many have and this member has.
fn first_with(first: u32, member: u32) -> u32
    ensures { (m : ℕ) → m < result → (m < first) ⊎ (m ≡ member) }
{
    if first == member {
        member.saturating_add(1)
    } else {
        first
    }
}

/// Notes a row in which a member has a value.
fn note_member(rows: &mut Numbers, row: Key, member: u32) -> Result<(), AllocError>
    ensures keys { OnOk result (keys_of rows.new.entries ≡ and_row (keys_of rows.old.entries) row) }
    ensures first { OnOk result ((es : spec.Entries) → steps.has es (spec.key row.variable member row.period) ≡ true → AllByRecursion (HaveFirst es) rows.old.entries → AllByRecursion (HaveFirst es) rows.new.entries) }
{
    let first = rows.entry(row)?.or_insert(0);
    *first = first_with(*first, member);
    Ok(())
}
