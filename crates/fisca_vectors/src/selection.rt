//! Lanes that are chosen by a mask, taken out and put back.
ghost use Rattle.std.specs.Prelude.{◌≡◌, ◌<◌, length, IfOk, IfSome};
ghost use Rattle.std.specs.List.{All};
ghost use Rattle.fisca_vectors.specs.Vectors.{IsChosen, IsGathered};
ghost use Rattle.fisca_vectors.specs.Selected.{scattered};

use crate::levels::level_of;
use crate::mask::Mask;
use crate::moves::{gathered, merged, put_back};
use crate::vector::Vector;
use std::alloc::AllocError;

impl Vector {
    /// At each lane its number where the flag is true, that of the other vector elsewhere.
    pub fn choose(&self, mask: &Mask, other: &Vector) -> Result<Option<Vector>, AllocError>
        requires same { length self.now ≡ length other.now }
        requires masked { length self.now ≡ length mask.now }
        ensures { IfOk result (λ o. IfSome o (λ c. IsChosen mask.now self.now other.now c)) }
    {
        let alloc = *self.numerators.allocator();
        let Some(level) = level_of(self.denominator, self.bound, other.denominator, other.bound)
        else {
            return Ok(None);
        };
        let bound = level.left_bound.max(level.right_bound);
        let numerators = merged(
            alloc,
            level.factors,
            &mask.flags,
            &self.numerators,
            &other.numerators,
        )?;
        Ok(Some(Vector {
            numerators,
            denominator: level.denominator,
            bound,
        }))
    }

    /// The numbers at these lanes.
    pub fn gather(&self, places: &[usize]) -> Result<Vector, AllocError>
        requires { All (λ p. p < length self.now) places.now }
        ensures { IfOk result (λ c. IsGathered places.now self.now c) }
    {
        let numerators = gathered(*self.numerators.allocator(), &self.numerators, places)?;
        Ok(Vector {
            numerators,
            denominator: self.denominator,
            bound: self.bound,
        })
    }

    /// The other vector with the first number of this one at the first of the places, the second at the second, and so
    /// on.
    pub fn scatter(&self, places: &[usize], other: &Vector) -> Result<Option<Vector>, AllocError>
        requires same { length self.now ≡ length places.now }
        requires within { All (λ p. p < length other.now) places.now }
        ensures { IfOk result (λ o. IfSome o (λ c. c ≡ scattered places.now self.now other.now)) }
    {
        let alloc = *self.numerators.allocator();
        let Some(level) = level_of(self.denominator, self.bound, other.denominator, other.bound)
        else {
            return Ok(None);
        };
        let bound = level.left_bound.max(level.right_bound);
        let numerators = put_back(
            alloc,
            level.factors,
            places,
            &self.numerators,
            &other.numerators,
        )?;
        Ok(Some(Vector {
            numerators,
            denominator: level.denominator,
            bound,
        }))
    }
}
