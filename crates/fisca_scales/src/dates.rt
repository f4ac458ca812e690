//! Values that hold from a date on.
ghost use Rattle.std.specs.Prelude.{◌≡◌, ◌<◌, [], None, IfOk, MatchOption, length, slice_get, map};
ghost use Rattle.std.specs.Ordering.{is_le};
ghost use Rattle.fisca_time.specs.Instant.{date_cmp};
ghost use Rattle.fisca_scales.specs.Dates.{value_at, latest, is_before, numbered_pair};
ghost use Rattle.fisca_scales.specs.Steps.Dates.{in_time, day_number};

use fisca_time::Instant;
use std::alloc::{AllocError, Global};
use std::collections::BTreeMap;
use std::marker::Model;

/// A value from a date on, or none from it on. The date is kept as its number, which is in order of time.
#[derive(Debug, Drop)]
pub struct Dated<V> {
    day: u32,
    value: Option<V>,
}

impl<V> Model for Dated<V> {
    ghost use Rattle.fisca_scales.specs.Dates.{Dated, date_of_number};

    ghost Value = { Dated V };

    ghost view = { λ d. record { date = date_of_number d.day; value = d.value } };
}

impl<V> Dated<V> {
    /// This value, or none, from this date on.
    #[tactic(auto, using(crate::proofs::Days::date_of_its_number))]
    pub fn new(date: Instant, value: Option<V>) -> Dated<V>
        ensures { result ≡ record { date = date; value = value } }
    {
        let day = day_number(date);
        Dated { day, value }
    }

    /// Whether the date is before another's.
    #[tactic(auto, using(crate::proofs::Days::before_by_number))]
    fn is_before(&self, other: &Dated<V>) -> bool
        ensures { result ≡ is_before self.now.date other.now.date }
    {
        self.day < other.day
    }

    /// Whether the date is not after an instant. The sign of a difference tells it, so that a search can go on by
    /// sums: the processor foretells a jump on dates wrongly half of the time.
    #[tactic(auto, using(crate::proofs::Days::reached_by_number))]
    fn is_reached(&self, instant: Instant) -> bool
        ensures { result ≡ is_le (date_cmp self.now.date instant) }
    {
        u64::from(self.day).wrapping_sub(u64::from(day_number(instant)) + 1) >= 1 << 63
    }
}

/// Values that hold from a date on, in order of time.
#[derive(Debug, Drop)]
pub struct Dates<V> {
    items: Vec<Dated<V>>,
}

impl<V> Model for Dates<V> {
    ghost use Rattle.std.specs.Prelude.{List, IsTrue};
    ghost use Rattle.fisca_scales.specs.Dates.{Dated, is_in_order};

    ghost Value = { List (Dated V) };

    ghost view = { λ d. d.items.items };

    ghost invariant = { λ d. IsTrue (is_in_order d.items.items) };
}

impl<V: Copy> Dates<V> {
    /// The value at an instant: that of the latest date not after it.
    pub fn value_at(&self, instant: Instant) -> Option<V>
        ensures { result ≡ value_at self.now instant }
    {
        let place = self.latest(instant)?;
        self.items[place].value
    }

    /// The place of the latest date not after an instant.
    fn latest(&self, instant: Instant) -> Option<usize>
        ensures { MatchOption result (latest self.now instant ≡ None)
            (λ place. (place < length self.now) × (latest self.now instant ≡ slice_get self.now place)) }
    {
        match self.items.first() {
            Some(first) if first.is_reached(instant) => {}
            _ => return None,
        }
        let mut place = 0;
        let mut size = self.items.len();
        'halves: while size > 1 {
            let half = size / 2;
            let step = if self.items[place + half].is_reached(instant) {
                half
            } else {
                0
            };
            place += step;
            size -= half;
        }
        Some(place)
    }

    /// These values in order of time, in which they mostly are.
    pub fn in_time(alloc: Global, items: Vec<Dated<V>>) -> Result<Dates<V>, AllocError>
        ensures { IfOk result (λ d. d ≡ in_time items.items) }
    {
        if items.is_sorted_by(
            |a: &Dated<V>, b: &Dated<V>| -> bool
                ensures { result ≡ is_before a.now.date b.now.date }
            { a.is_before(b) },
        ) {
            return Ok(Dates { items });
        }
        let mut sorted = BTreeMap::new(alloc);
        for dated in items.iter() {
            sorted.insert(dated.day, dated.value)?;
        }
        Dates::from_map(alloc, &sorted)
    }

    /// The values of a map, which keeps them in order of their numbers.
    fn from_map(alloc: Global, sorted: &BTreeMap<u32, Option<V>>) -> Result<Dates<V>, AllocError>
        ensures { IfOk result (λ d. d ≡ map numbered_pair sorted.now.entries) }
    {
        let mut items = Vec::with_capacity(alloc, sorted.len())?;
        for (day, value) in sorted.iter() {
            items.push(Dated {
                day: *day,
                value: *value,
            })?;
        }
        Ok(Dates { items })
    }
}

impl<V> Dates<V> {
    /// No values.
    pub fn new(alloc: Global) -> Dates<V>
        ensures { result ≡ [] }
    {
        Dates {
            items: Vec::new(alloc),
        }
    }
}

/// A date as one number, in order of time.
fn day_number(date: Instant) -> u32
    ensures number { result ≡ day_number date }
    ensures month { date.month < 256 }
    ensures day { date.day < 256 }
{
    u32::from(date.year()) * 65_536 + (u32::from(date.month()) * 256 + u32::from(date.day()))
}
