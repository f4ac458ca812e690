//! Products and quotients, lane by lane.
ghost use Rattle.std.specs.Prelude.{◌≡◌, length, IfOk, IfSome};
ghost use Rattle.fisca_num.specs.Operations.{product_of, quotient_of};
ghost use Rattle.fisca_vectors.specs.Vectors.{IsLanewise, IsOfEach};

use crate::levels::{cut_of, product_within};
use crate::loops::products_of;
use crate::sides::{Each, Uniform};
use crate::vector::Vector;
use fisca_num::Fraction;
use std::alloc::AllocError;

impl Vector {
    /// The product at each lane.
    pub fn mul(&self, other: &Vector) -> Result<Option<Vector>, AllocError>
        requires { length self.now ≡ length other.now }
        ensures { IfOk result (λ o. IfSome o (λ c. IsLanewise product_of self.now other.now c)) }
    {
        let alloc = *self.numerators.allocator();
        let Some(denominator) = product_within(self.denominator, other.denominator) else {
            return Ok(None);
        };
        let Some(bound) = product_within(self.bound, other.bound) else {
            return Ok(None);
        };
        let right = Each(&other.numerators);
        let numerators = products_of(alloc, &self.numerators, &right)?;
        Ok(Some(Vector {
            numerators,
            denominator,
            bound,
        }))
    }

    /// The product of each lane and one number.
    pub fn mul_uniform(&self, other: Fraction) -> Result<Option<Vector>, AllocError>
        ensures { IfOk result (λ o. IfSome o (λ c. IsOfEach (λ x. product_of x other) self.now c)) }
    {
        let alloc = *self.numerators.allocator();
        let Some(cut) = cut_of(other.numerator(), self.denominator) else {
            return Ok(None);
        };
        let Some(denominator) = product_within(cut.denominator, other.denominator()) else {
            return Ok(None);
        };
        let Some(bound) = product_within(self.bound, cut.numerator.unsigned_abs()) else {
            return Ok(None);
        };
        let right = Uniform(cut.numerator);
        let numerators = products_of(alloc, &self.numerators, &right)?;
        Ok(Some(Vector {
            numerators,
            denominator,
            bound,
        }))
    }

    /// Each lane divided by one number; nothing where that is 0.
    pub fn div_uniform(&self, other: Fraction) -> Result<Option<Vector>, AllocError>
        ensures { IfOk result (λ o. IfSome o (λ c. IsOfEach (λ x. quotient_of x other) self.now c)) }
    {
        match Fraction::one().div(other) {
            Ok(inverse) => self.mul_uniform(inverse),
            Err(_) => Ok(None),
        }
    }
}
