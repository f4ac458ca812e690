//! Numbers that stand side by side.

ghost use Rattle.std.specs.Prelude.{◌≡◌, ◌<◌, ◌==◌, ℕ, length, if◌then◌else◌, OnOk, OnErr};
ghost use Rattle.fisca_inputs.specs.Places.{number_at};

use std::alloc::{AllocError, Global};
use std::marker::Model;

/// How many numbers of a page take no memory of their own: most groups have few members.
const FIRST: usize = 4;

/// Numbers of members that follow one another, by their places in the page; 0 where there is none. Contracts see the list of them.
#[derive(Drop)]
pub(crate) struct Page {
    first: [u32; FIRST],
    more: Vec<u32>,
}

impl Model for Page {
    ghost use Rattle.std.specs.Prelude.{◌≡◌, ℕ, ◌++◌, List, length};

    ghost Value = { List ℕ };

    ghost view = { λ p. p.first ++ p.more.items };

    ghost invariant = { λ p. length p.first ≡ 4 };
}

/// Sets the number at this place, and no other.
fn set_number(numbers: &mut Vec<u32>, place: usize, number: u32)
    requires { place < length numbers.old.items }
    ensures { (m : ℕ) → number_at numbers.new.items m ≡ (if m == place then number else number_at numbers.old.items m) }
{
    numbers[place] = number;
}

/// Puts a number at this place, where there may be none, and no other at any place.
fn put_number(numbers: &mut Vec<u32>, place: usize, number: u32) -> Result<(), AllocError>
    requires { place < 64 }
    ensures ok { OnOk result ((m : ℕ) → number_at numbers.new.items m ≡ (if m == place then number else number_at numbers.old.items m)) }
    ensures err { OnErr result ((m : ℕ) → number_at numbers.new.items m ≡ number_at numbers.old.items m) }
{
    if numbers.len() <= place {
        numbers.resize(place + 1, 0)?;
    }
    set_number(numbers, place, number);
    Ok(())
}

impl Page {
    /// No number.
    pub(crate) fn new(alloc: Global) -> Page
        ensures { (m : ℕ) → number_at result m ≡ 0 }
    {
        Page {
            first: [0; FIRST],
            more: Vec::new(alloc),
        }
    }

    /// The number at a place.
    #[inline(always)]
    pub(crate) fn number(&self, place: usize) -> u32
        ensures { result ≡ number_at self.now place }
    {
        if place < FIRST {
            return self.first[place];
        }
        match self.more.get(place - FIRST) {
            Some(number) => *number,
            None => 0,
        }
    }

    /// Sets the number at this place, and no other.
    pub(crate) fn set(&mut self, place: usize, number: u32)
        requires { place < length self.old }
        ensures { (m : ℕ) → number_at self.new m ≡ (if m == place then number else number_at self.old m) }
    {
        if place < FIRST {
            self.first[place] = number;
        } else {
            set_number(&mut self.more, place - FIRST, number);
        }
    }

    /// Puts a number at this place, where there may be none, and no other at any place.
    pub(crate) fn put(&mut self, place: usize, number: u32) -> Result<(), AllocError>
        requires { place < 64 }
        ensures ok { OnOk result ((m : ℕ) → number_at self.new m ≡ (if m == place then number else number_at self.old m)) }
        ensures err { OnErr result ((m : ℕ) → number_at self.new m ≡ number_at self.old m) }
    {
        if place < FIRST {
            self.first[place] = number;
            return Ok(());
        }
        put_number(&mut self.more, place - FIRST, number)
    }
}
