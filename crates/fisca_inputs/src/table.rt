//! The table of values: keys with their values, found by numbers that stand side by side for members of one variable and period.

ghost use Rattle.std.specs.Prelude.{◌≡◌, ◌<◌, ◌≤◌, ◌%◌, ◌==◌, [], ◌∷◌, ◌++◌, ℕ, suc, true, false, not, length, filter, if◌then◌else◌, Some, None, IfOk, OnOk, OnErr, MatchOption};
ghost use Rattle.std.specs.Bool.{OnTrue};
ghost use Rattle.std.proofs.Props.{props};
ghost use Rattle.fisca_inputs.specs.Entries as spec;
ghost use Rattle.fisca_inputs.specs.Steps.Entries as steps;
ghost use Rattle.fisca_inputs.specs.Anew.{set_keys};
ghost use Rattle.fisca_inputs.specs.Inputs.{without_marked};
ghost use Rattle.fisca_inputs.specs.Steps.Inputs.{is_marked as is_marked_at};
ghost use Rattle.fisca_inputs.specs.Places.{AreNumbered, AreOccupied, AreOnce, StandsAt, number_of, page_key};
ghost use Rattle.fisca_model.specs.declared.key.Key as declared;

use crate::hashed::Pages;
use crate::marks::is_marked;
use crate::page::Page;
use fisca_model::{Key, NOTES, Value};
use indexmap::IndexMap;
use std::alloc::{AllocError, Global};
use std::hash::BuildHasherDefault;

/// For how many members numbers stand side by side.
const PAGE: u32 = 64;

/// For how many pages, or rows of inputs, there is room at once.
pub(crate) const ROOM: usize = 144;

/// How many buckets there are, which variables share.
const BUCKETS: usize = 256;

/// Keys with their values, in the order in which they came. The number of a key is one more than the place of its entry, and 0 where it has none.
#[derive(Drop)]
pub(crate) struct Table {
    pub(crate) entries: Vec<(Key, Value)>,
    pages: Pages,
    /// Where keys may stand that were given another value last: those that an axis moves are looked for again and again.
    noted: [u32; NOTES],
    /// Whether a variable of the bucket may have an entry. Most that are asked for have none, which this tells without a hash.
    occupied: [bool; BUCKETS],
    ghost once: { AreOnce entries.items } by { Prim.hlevel props },
    ghost notes: { length noted ≡ 64 },
    ghost buckets: { length occupied ≡ 256 },
    ghost own_buckets: { AreOccupied occupied entries.items },
    ghost few: { length entries.items < 4_294_967_296 },
    ghost numbered: { AreNumbered pages.entries entries.items },
}

/// The key under which the number of a key stands: those of members that follow one another stand together, so that one member far behind costs no more than a page.
fn page_of(key: &Key) -> Key
    ensures { result ≡ page_key key.now }
{
    Key {
        variable: key.variable,
        member: key.member / PAGE,
        period: key.period,
    }
}

/// The place of the number of a key in its page.
fn place_of(key: &Key) -> usize
    ensures { result ≡ key.now.member % 64 }
{
    (key.member % PAGE) as usize
}

/// The number of a key.
#[inline(always)]
fn number(pages: &Pages, key: &Key) -> u32
    ensures { result ≡ number_of pages.now.entries key.now }
{
    match pages.get(&page_of(key)) {
        Some(page) => page.number(place_of(key)),
        None => 0,
    }
}

/// The bucket of the variable of a key.
#[inline(always)]
fn bucket_of(key: &Key) -> usize
    ensures { result ≡ key.now.variable % 256 }
{
    key.variable % BUCKETS
}

/// Whether the entry of a key stands at a place.
#[inline(always)]
fn stands_at(entries: &[(Key, Value)], place: usize, key: &Key) -> bool
    ensures { OnTrue result (StandsAt entries.now key.now place) }
{
    match entries.get(place) {
        Some(entry) => *key == entry.0,
        None => false,
    }
}

/// The number of an entry that comes behind so many. No entry is numbered past `u32::MAX`: as if memory was refused.
fn number_behind(count: usize) -> Result<u32, AllocError>
    ensures ok { IfOk result (λ n. n ≡ suc count) }
    ensures err { OnErr result (4_294_967_295 ≤ count) }
{
    if count >= u32::MAX as usize {
        return Err(AllocError);
    }
    Ok(count as u32 + 1)
}

/// Gives a key this number, and none to any other.
fn note(pages: &mut Pages, alloc: Global, key: &Key, number: u32) -> Result<(), AllocError>
    ensures ok { OnOk result ((k : declared.Key) → number_of pages.new.entries k ≡ (if spec.same_key k key.now then number else number_of pages.old.entries k)) }
    ensures err { OnErr result ((k : declared.Key) → number_of pages.new.entries k ≡ number_of pages.old.entries k) }
{
    let page = pages.entry(page_of(key))?.or_insert(Page::new(alloc));
    page.put(place_of(key), number)
}

/// Gives a key that has a number this one, and none to any other.
fn renumber(pages: &mut Pages, key: &Key, number: u32)
    requires { 0 < number_of pages.old.entries key.now }
    ensures { (k : declared.Key) → number_of pages.new.entries k ≡ (if spec.same_key k key.now then number else number_of pages.old.entries k) }
{
    match pages.get_mut(&page_of(key)) {
        Some(page) => page.set(place_of(key), number),
        None => unreachable!(),
    }
}

/// Numbers entries by their places. Those and no others have numbers.
fn renumber_all(pages: &mut Pages, entries: &[(Key, Value)])
    requires once { AreOnce entries.now }
    requires few { length entries.now < 4_294_967_296 }
    requires noted { (k : declared.Key) → steps.has entries.now k ≡ true → 0 < number_of pages.old.entries k }
    requires free { (k : declared.Key) → steps.has entries.now k ≡ false → number_of pages.old.entries k ≡ 0 }
    ensures { AreNumbered pages.new.entries entries.now }
{
    for (place, entry) in entries.iter().enumerate() {
        renumber(pages, &entry.0, place as u32 + 1);
    }
}

/// Leaves the entries of the variables that have no mark.
fn leave_unmarked(entries: &mut Vec<(Key, Value)>, marks: &[bool])
    ensures { entries.new.items ≡ without_marked marks.now entries.old.items }
{
    entries.retain(
        |entry: &(Key, Value)| -> bool
            ensures { result ≡ not (is_marked_at marks.entry.now entry.now.0.variable) }
        { !is_marked(marks, entry.0.variable) },
    );
}

/// Leaves the numbers of the variables that have no mark.
fn leave_unmarked_pages(pages: &mut Pages, marks: &[bool])
    ensures { pages.new.entries ≡ filter (λ r. not (is_marked_at marks.now r.0.variable)) pages.old.entries }
{
    pages.retain(
        |key: &Key, page: &mut Page| -> bool
            ensures { (result ≡ not (is_marked_at marks.entry.now key.now.variable)) × (page.new ≡ page.old) }
        { !is_marked(marks, key.variable) },
    );
}

impl Table {
    /// No key.
    pub(crate) fn new(alloc: Global) -> Table
        ensures { result.entries.items ≡ [] }
    {
        Table {
            entries: Vec::new(alloc),
            pages: IndexMap::with_hasher(alloc, BuildHasherDefault::new()),
            noted: [0; NOTES],
            occupied: [false; BUCKETS],
        }
    }

    /// Makes room for so many more entries, and for their pages where they are few.
    pub(crate) fn reserve(&mut self, count: usize) -> Result<(), AllocError>
        ensures { self.new.entries.items ≡ self.old.entries.items }
    {
        self.entries.reserve(count)?;
        self.pages.reserve(count.min(ROOM))
    }

    /// The place of the entry of a key.
    #[inline(always)]
    fn place(&self, key: &Key) -> Option<usize>
        ensures { MatchOption result (steps.has self.now.entries.items key.now ≡ false) (StandsAt self.now.entries.items key.now) }
    {
        if !self.occupied[bucket_of(key)] {
            return None;
        }
        let noted = self.noted[key.note()] as usize;
        if stands_at(self.entries.as_slice(), noted, key) {
            return Some(noted);
        }
        match number(&self.pages, key) {
            0 => None,
            number => Some(number as usize - 1),
        }
    }

    /// Whether a key has a value.
    pub(crate) fn has(&self, key: &Key) -> bool
        ensures { result ≡ steps.has self.now.entries.items key.now }
    {
        self.place(key).is_some()
    }

    /// The value of a key, by one look-up and without memory.
    #[inline(always)]
    pub(crate) fn value(&self, key: &Key) -> Option<Value>
        ensures { result ≡ spec.value_at self.now.entries.items key.now }
    {
        match self.place(key) {
            Some(place) => Some(self.entries[place].1),
            None => None,
        }
    }

    /// One entry more, of a key that has none. Where memory is refused, none.
    pub(crate) fn append(&mut self, alloc: Global, key: Key, value: Value) -> Result<(), AllocError>
        requires { steps.has self.old.entries.items key ≡ false }
        ensures ok { OnOk result (self.new.entries.items ≡ self.old.entries.items ++ (key, value) ∷ []) }
        ensures err { OnErr result (self.new.entries.items ≡ self.old.entries.items) }
    {
        let number = number_behind(self.entries.len())?;
        self.entries.push((key, value))?;
        match note(&mut self.pages, alloc, &key, number) {
            Ok(()) => {
                self.occupied[bucket_of(&key)] = true;
                Ok(())
            }
            Err(_) => {
                let _ = self.entries.pop();
                Err(AllocError)
            }
        }
    }

    /// Gives this value to a key, where it has one: no key comes or goes.
    pub(crate) fn set(&mut self, key: &Key, value: Value)
        ensures { self.new.entries.items ≡ set_keys (key.now ∷ []) value self.old.entries.items }
    {
        if let Some(place) = self.place(key) {
            self.noted[key.note()] = place as u32;
            self.entries[place].1 = value;
        }
    }

    /// Takes out the entries of the variables that have a mark, by their places. There is none past the last mark.
    /// Their numbers go too, so that none of their keys is looked for.
    pub(crate) fn take_out(&mut self, marks: &[bool])
        ensures { self.new.entries.items ≡ without_marked marks.now self.old.entries.items }
    {
        let count = self.entries.len();
        leave_unmarked(&mut self.entries, marks);
        leave_unmarked_pages(&mut self.pages, marks);
        if self.entries.len() < count {
            renumber_all(&mut self.pages, self.entries.as_slice());
        }
    }
}
