//! Masks: a flag a lane.
ghost use Rattle.std.specs.Prelude.{◌≡◌, ℕ, ◌<◌, ◌&&◌, ◌||◌, not, length, map, IfOk};
ghost use Rattle.std.specs.List.{count_by};
ghost use Rattle.fisca_vectors.specs.Vectors.{flag};
ghost use Rattle.fisca_vectors.specs.Selected.{IsCombined, places_from};

use std::alloc::{AllocError, Global};
use std::marker::Model;

/// A flag a lane. Contracts see the list of the flags.
#[derive(Drop)]
pub struct Mask {
    pub(crate) flags: Vec<bool>,
}

impl Model for Mask {
    ghost use Rattle.std.specs.Prelude.{List, Bool};

    ghost Value = { List Bool };

    ghost view = { λ m. m.flags.items };
}

impl Mask {
    /// A mask of these flags.
    pub fn new(flags: Vec<bool>) -> Mask
        ensures { result ≡ flags.items }
    {
        Mask { flags }
    }

    /// How many lanes there are.
    pub fn len(&self) -> usize
        ensures { result ≡ length self.now }
    {
        self.flags.len()
    }

    /// The flag at a lane.
    pub fn get(&self, index: usize) -> bool
        requires { index < length self.now }
        ensures { result ≡ flag self.now index }
    {
        self.flags[index]
    }

    /// How many lanes have a true flag.
    pub fn count(&self) -> usize
        ensures { result ≡ count_by (λ f. f) self.now }
    {
        let mut count = 0;
        for flag in &self.flags {
            if *flag {
                count += 1;
            }
        }
        count
    }

    /// The opposite at each lane.
    pub fn not(&self) -> Result<Mask, AllocError>
        ensures { IfOk result (λ m. m ≡ map not self.now) }
    {
        let mut flags = Vec::with_capacity(*self.flags.allocator(), self.flags.len())?;
        for flag in &self.flags {
            flags.push(!*flag).map_err(AllocError::from)?;
        }
        Ok(Mask { flags })
    }

    /// Whether both flags are true, at each lane.
    pub fn and(&self, other: &Mask) -> Result<Mask, AllocError>
        requires { length self.now ≡ length other.now }
        ensures { IfOk result (λ m. IsCombined ◌&&◌ self.now other.now m) }
    {
        let mut flags = Vec::from_slice(*self.flags.allocator(), &self.flags)?;
        and_each(&mut flags, &other.flags);
        Ok(Mask { flags })
    }

    /// Whether a flag of both is true, at each lane.
    pub fn or(&self, other: &Mask) -> Result<Mask, AllocError>
        requires { length self.now ≡ length other.now }
        ensures { IfOk result (λ m. IsCombined ◌||◌ self.now other.now m) }
    {
        let mut flags = Vec::from_slice(*self.flags.allocator(), &self.flags)?;
        or_each(&mut flags, &other.flags);
        Ok(Mask { flags })
    }

    /// The lanes whose flag is true, from the first on.
    #[tactic(auto, using(crate::proofs::Places::place_taken, crate::proofs::Places::place_passed))]
    pub fn places(&self) -> Result<Vec<usize>, AllocError>
        ensures { IfOk result (λ v. v.items ≡ places_from 0 self.now) }
    {
        places_of(*self.flags.allocator(), &self.flags)
    }
}

/// Both flags at each lane, in place.
fn and_each(out: &mut [bool], other: &[bool])
    requires { length out.old ≡ length other.now }
    ensures { (k : ℕ) → k < length out.old → flag out.new k ≡ (flag out.old k && flag other.now k) }
{
    for i in 0..out.len() {
        out[i] = out[i] & other[i];
    }
}

/// A flag of both at each lane, in place.
fn or_each(out: &mut [bool], other: &[bool])
    requires { length out.old ≡ length other.now }
    ensures { (k : ℕ) → k < length out.old → flag out.new k ≡ (flag out.old k || flag other.now k) }
{
    for i in 0..out.len() {
        out[i] = out[i] | other[i];
    }
}

/// The places of the true flags.
fn places_of(alloc: Global, flags: &[bool]) -> Result<Vec<usize>, AllocError>
    ensures { IfOk result (λ v. v.items ≡ places_from 0 flags.now) }
{
    let mut places = Vec::new(alloc);
    for i in 0..flags.len() {
        if flags[i] {
            places.push(i).map_err(AllocError::from)?;
        }
    }
    Ok(places)
}
