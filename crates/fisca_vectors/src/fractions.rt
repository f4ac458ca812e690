//! A fraction a lane, each over a denominator of its own.
ghost use Rattle.std.specs.Prelude.{◌≡◌, ℕ, ◌<◌, ◌≤◌, ◌^◌, length, take, unsigned_abs, IfOk, IfSome, Ok};
ghost use Rattle.fisca_vectors.specs.Each.{by_operation, rounded_by, whole_by};
ghost use Rattle.fisca_vectors.specs.Vectors.{lane, IsLanewise, IsOfEach};

use crate::vector::Vector;
use fisca_num::{Fraction, NumFault};
use std::alloc::{AllocError, Global};
use std::marker::Model;

/// What is done with two numbers.
#[derive(Clone, Copy)]
pub enum FractionOperation {
    /// The sum.
    Add,
    /// The difference.
    Sub,
    /// The product.
    Mul,
    /// The quotient.
    Div,
}

impl FractionOperation {
    /// What it gives of two numbers, or why there is none.
    pub fn of(self, left: Fraction, right: Fraction) -> Result<Fraction, NumFault>
        ensures { result ≡ by_operation self left right }
    {
        match self {
            FractionOperation::Add => left.add(right),
            FractionOperation::Sub => left.sub(right),
            FractionOperation::Mul => left.mul(right),
            FractionOperation::Div => left.div(right),
        }
    }
}

/// Which whole number a number is rounded to.
#[derive(Clone, Copy)]
pub enum FractionRounding {
    /// The whole part, towards 0.
    Whole,
    /// The greatest that is not above it.
    Floor,
    /// The least that is not below it.
    Ceiling,
    /// The nearest, of two the even one.
    Nearest,
}

impl FractionRounding {
    /// The whole number.
    pub fn of(self, number: Fraction) -> i64
        ensures { result ≡ whole_by self number }
    {
        match self {
            FractionRounding::Whole => number.trunc(),
            FractionRounding::Floor => number.floor(),
            FractionRounding::Ceiling => number.ceil(),
            FractionRounding::Nearest => number.round(),
        }
    }
}

/// A number a lane, each in lowest terms. Contracts see the list of the numbers.
///
/// What has no room over one denominator goes on here, some ten times as slow.
#[derive(Drop)]
pub struct Fractions {
    items: Vec<Fraction>,
}

impl Model for Fractions {
    ghost use Rattle.std.specs.Prelude.{List};
    ghost use Rattle.fisca_num.specs.Number.{Number};

    ghost Value = { List Number };

    ghost view = { λ f. f.items.items };
}

impl Fractions {
    /// These numbers.
    pub fn new(items: Vec<Fraction>) -> Fractions
        ensures { result ≡ items.items }
    {
        Fractions { items }
    }

    /// How many lanes there are.
    pub fn len(&self) -> usize
        ensures { result ≡ length self.now }
    {
        self.items.len()
    }

    /// The number at a lane.
    pub fn get(&self, index: usize) -> Fraction
        requires { index < length self.now }
        ensures { result ≡ lane self.now index }
    {
        self.items[index]
    }

    /// What an operation gives at each lane; nothing where it gives no number at one.
    pub fn operate(
        &self,
        operation: FractionOperation,
        other: &Fractions,
    ) -> Result<Option<Fractions>, AllocError>
        requires { length self.now ≡ length other.now }
        ensures { IfOk result (λ o. IfSome o (λ c. IsLanewise (by_operation operation) self.now other.now c)) }
    {
        let alloc = *self.items.allocator();
        match operated(alloc, operation, &self.items, &other.items)? {
            Some(items) => Ok(Some(Fractions { items })),
            None => Ok(None),
        }
    }

    /// Each number rounded to a whole one; nothing where one is too wide.
    pub fn round(&self, rounding: FractionRounding) -> Result<Option<Fractions>, AllocError>
        ensures { IfOk result (λ o. IfSome o (λ c. IsOfEach (rounded_by rounding) self.now c)) }
    {
        match rounded(*self.items.allocator(), rounding, &self.items)? {
            Some(items) => Ok(Some(Fractions { items })),
            None => Ok(None),
        }
    }
}

impl Vector {
    /// The same numbers, each over a denominator of its own.
    pub fn fractions(&self) -> Result<Fractions, AllocError>
        ensures { IfOk result (λ f. f ≡ self.now) }
    {
        let mut items = Vec::with_capacity(*self.numerators.allocator(), self.len())?;
        for index in 0..self.len() {
            items.push(self.get(index)).map_err(AllocError::from)?;
        }
        Ok(Fractions { items })
    }
}

/// What an operation gives at each lane.
fn operated(
    alloc: Global,
    operation: FractionOperation,
    left: &[Fraction],
    right: &[Fraction],
) -> Result<Option<Vec<Fraction>>, AllocError>
    requires { length left.now ≡ length right.now }
    ensures { IfOk result (λ o. IfSome o (λ v. IsLanewise (by_operation operation) left.now right.now v.items)) }
{
    let mut made = Vec::from_slice(alloc, left)?;
    for i in 0..made.len() {
        match operation.of(left[i], right[i]) {
            Ok(number) => made[i] = number,
            Err(_) => return Ok(None),
        }
    }
    Ok(Some(made))
}

/// Each number rounded to a whole one.
fn rounded(
    alloc: Global,
    rounding: FractionRounding,
    numbers: &[Fraction],
) -> Result<Option<Vec<Fraction>>, AllocError>
    ensures { IfOk result (λ o. IfSome o (λ v. IsOfEach (rounded_by rounding) numbers.now v.items)) }
{
    let mut made = Vec::from_slice(alloc, numbers)?;
    for i in 0..made.len() {
        match Fraction::whole(rounding.of(numbers[i])) {
            Ok(number) => made[i] = number,
            Err(_) => return Ok(None),
        }
    }
    Ok(Some(made))
}
