//! A memory in a hash map, whose entries go stale when a wheel turns.

ghost use Rattle.std.specs.Prelude.{◌≡◌, ◌≤◌, ◌<◌, Some, None, All, OnOk, OnErr, IsTrue, filter, false, length, not, slice_get, if◌then◌else◌};
ghost use Rattle.std.specs.Map.{keys_of, lookup};
ghost use Rattle.std.specs.Option.{option_copied, option_map_or};
ghost use Rattle.fisca_memo_theory.specs.Reads.{reads_wheel};
ghost use Rattle.fisca_inputs.specs.Entries.{same_key};
ghost use Rattle.fisca_model.specs.declared.key.Key as declared;
ghost use Rattle.fisca_model.specs.Values as meaning;
ghost use Rattle.fisca_evaluator.specs.Found.{unless};
ghost use Rattle.fisca_evaluator.specs.Stamps.{found_fresh};
ghost use Rattle.fisca_evaluator.specs.declared.known.Stamped as stamps;

use crate::known::{Known, Stamped};
use crate::recall::Recall;
use crate::wheels::{has_wheel, is_fresh};
use fisca_inputs::KeyHasher;
use fisca_model::{Key, NOTES};
use fisca_simulation::keys_lie_in_the_calendar;
use indexmap::IndexMap;
use std::alloc::{AllocError, Global};
use std::hash::BuildHasherDefault;

/// For how many values there is room at once.
const ROOM: usize = 20;

/// What is kept under keys, found by the hash of keys that inputs have.
type Entries = IndexMap<Key, Stamped, BuildHasherDefault<KeyHasher>>;

/// What is remembered, found by the hashes of keys, with the times at which it was kept, and for each wheel the time at which it turned
/// last. The clock moves on when a wheel turns, and from then on what was kept and reads the wheel counts for nothing. It is written over
/// when its key is kept again.
///
/// A note says where to look for a key first, without its hash, since the same few keys are asked for and kept again and again. It may be of
/// another key, or of a place where nothing stands any more: what stands at the place counts only if its key is the one that is asked for.
#[derive(Drop)]
pub struct IndexRecall {
    entries: Entries,
    noted: [u32; NOTES],
    turned_at: [u64; 16],
    clock: u64,
    ghost kept: { (k : declared.Key) (s : stamps.Stamped) → lookup (same_key k) entries.entries ≡ Some s → s.kept_at ≤ clock },
    ghost turned: { All (λ time. time ≤ clock) turned_at },
    ghost sixteen: { length turned_at ≡ 16 },
    ghost notes: { length noted ≡ 64 },
}

impl IndexRecall {
    /// Nothing is remembered.
    pub fn new(alloc: Global) -> IndexRecall
        ensures { (k : meaning.Key) → found_fresh result.turned_at result.entries.entries k ≡ None }
    {
        IndexRecall {
            entries: IndexMap::with_hasher(alloc, BuildHasherDefault::new()),
            noted: [0; NOTES],
            turned_at: [0; 16],
            clock: 0,
        }
    }
}

/// Whether the key stands at this place.
#[inline(always)]
fn stands_at(entries: &Entries, place: usize, key: &Key) -> bool
    ensures { result ≡ option_map_or (same_key key.now) (slice_get (keys_of entries.now.entries) place) false }
{
    match entries.get_index(place) {
        Some((own, _stamped)) => *key == *own,
        None => false,
    }
}

/// What was kept under the key, where `noted` is the place to look first.
#[inline(always)]
fn kept_under<'a>(entries: &'a Entries, noted: usize, key: &Key) -> Option<&'a Stamped>
    ensures { option_copied result ≡ lookup (same_key key.now) entries.now.entries }
{
    if let Some((own, stamped)) = entries.get_index(noted) {
        if *key == *own {
            return Some(stamped);
        }
    }
    entries.get(key)
}

/// Puts this in place of what stands under the key at this place.
#[inline(always)]
fn put_at(entries: &mut Entries, place: usize, key: &Key, stamped: Stamped)
    requires { IsTrue (option_map_or (same_key key.now) (slice_get (keys_of entries.old.entries) place) false) }
    ensures { (k : declared.Key) → lookup (same_key k) entries.new.entries ≡ (if same_key k key.now then Some stamped else lookup (same_key k) entries.old.entries) }
{
    if let Some(kept) = entries.get_index_mut(place) {
        *kept = stamped;
    }
}

/// Makes room for some values where none is kept yet.
fn make_room(entries: &mut Entries) -> Result<(), AllocError>
    ensures { entries.new.entries ≡ entries.old.entries }
{
    if entries.is_empty() {
        entries.reserve(ROOM)?;
    }
    Ok(())
}

/// Puts this under the key, found by its hash, and says at which place it stands then.
fn put(entries: &mut Entries, key: Key, stamped: Stamped) -> Result<usize, AllocError>
    ensures ok { OnOk result ((k : declared.Key) → lookup (same_key k) entries.new.entries ≡ (if same_key k key then Some stamped else lookup (same_key k) entries.old.entries)) }
    ensures err { OnErr result (entries.new.entries ≡ entries.old.entries) }
{
    make_room(entries)?;
    let Stamped { known, kept_at } = stamped;
    let (place, _kept) = entries.insert_full(key, Stamped { known, kept_at })?;
    Ok(place)
}

/// Puts this under the key, where `noted` is the place to look first, and says at which place it stands then.
#[inline(always)]
fn put_noted(
    entries: &mut Entries,
    noted: usize,
    key: Key,
    stamped: Stamped,
) -> Result<usize, AllocError>
    ensures ok { OnOk result ((k : declared.Key) → lookup (same_key k) entries.new.entries ≡ (if same_key k key then Some stamped else lookup (same_key k) entries.old.entries)) }
    ensures err { OnErr result (entries.new.entries ≡ entries.old.entries) }
{
    if stands_at(entries, noted, &key) {
        put_at(entries, noted, &key, stamped);
        Ok(noted)
    } else {
        put(entries, key, stamped)
    }
}

/// Takes out what reads the wheel.
fn take_out(entries: &mut Entries, wheel: u32)
    requires { wheel < 16 }
    ensures filtered { entries.new.entries ≡ filter (λ e. not (reads_wheel e.1.known.reads wheel)) entries.old.entries }
    ensures left { (k : declared.Key) → lookup (same_key k) entries.new.entries ≡ unless (λ s. reads_wheel s.known.reads wheel) (lookup (same_key k) entries.old.entries) }
{
    // what the count says of the entries: no key stands twice
    let _count = entries.len();
    entries.retain(
        |_key: &Key, stamped: &mut Stamped| -> bool
            requires { wheel < 16 }
            ensures { (result ≡ not (reads_wheel stamped.old.known.reads wheel)) × (stamped.new ≡ stamped.old) }
        { !has_wheel(stamped.known.reads, wheel) },
    );
}

impl Recall for IndexRecall {
    ghost use Rattle.fisca_evaluator.specs.Stamps.{found_fresh};

    ghost find = { λ s. found_fresh s.turned_at s.entries.entries };

    #[inline(always)]
    fn look(&self, key: &Key) -> Option<Known> {
        keys_lie_in_the_calendar(key);
        let noted = self.noted[key.note()] as usize;
        match kept_under(&self.entries, noted, key) {
            None => None,
            Some(stamped) => {
                if is_fresh(&self.turned_at, stamped.known.reads, stamped.kept_at) {
                    Some(stamped.known)
                } else {
                    None
                }
            }
        }
    }

    #[inline(always)]
    fn keep(&mut self, key: Key, known: Known) -> Result<(), AllocError> {
        keys_lie_in_the_calendar(&key);
        let kept_at = self.clock;
        let note = key.note();
        let noted = self.noted[note] as usize;
        let place = put_noted(&mut self.entries, noted, key, Stamped { known, kept_at })?;
        self.noted[note] = place.min(u32::MAX as usize) as u32;
        Ok(())
    }

    fn drop_moved(&mut self, wheel: u32) {
        if self.clock < u64::MAX {
            self.clock += 1;
            self.turned_at[wheel as usize] = self.clock;
        } else {
            // a clock that cannot go on: what reads the wheel is taken out
            take_out(&mut self.entries, wheel);
        }
    }
}
