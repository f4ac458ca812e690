//! Operations of formulas.
ghost use Rattle.std.specs.Prelude.{◌≡◌};
ghost use Rattle.fisca_typing.specs.Operations as spec;

/// What makes a value of one.
#[derive(Clone, Copy, Debug, PartialEq, Eq)]
pub enum Unary {
    /// The bool that it is not.
    Not,
    /// The number with the other sign.
    Minus,
    /// The greatest whole number that is not above it.
    Floor,
    /// The least whole number that is not below it.
    Ceil,
    /// The nearest number with so many decimal places, from -9 to 9; of two that are equally near the one that is even in
    /// its last place. Below 0 it is the nearest multiple of 10, of 100 and so on.
    Round(i8),
    /// The number without its sign.
    Absolute,
}

/// Whether formulas round to so many decimal places: from -9 to 9 (this project's own rule).
pub fn is_places(count: i64) -> bool
    ensures { result ≡ spec.is_places count }
{
    count.unsigned_abs() <= 9
}

/// What makes a number of two.
#[derive(Clone, Copy, Debug, PartialEq, Eq)]
pub enum Arithmetic {
    /// Their sum.
    Add,
    /// The first without the second.
    Subtract,
    /// Their product.
    Multiply,
    /// The first by the second.
    Divide,
    /// The lower one.
    Min,
    /// The higher one.
    Max,
}

/// What makes a bool of two.
#[derive(Clone, Copy, Debug, PartialEq, Eq)]
pub enum Logic {
    /// One of them is true, or both.
    Or,
    /// Both are true.
    And,
}

/// What makes one value of the values of a group's persons.
#[derive(Clone, Copy, Debug, PartialEq, Eq)]
pub enum Total {
    /// Their sum.
    Sum,
    /// The lowest.
    Min,
    /// The highest.
    Max,
    /// Whether one is true.
    Any,
    /// Whether all are true.
    All,
}

/// A function that formulas call by its name.
#[derive(Clone, Copy, Debug, PartialEq, Eq)]
pub enum Function {
    /// `where(condition, value, otherwise)`
    Where,
    /// `select([conditions], [values], default=value)`
    Select,
    /// `min_(first, second, ..)`
    Min,
    /// `max_(first, second, ..)`
    Max,
    /// `clip(number, low, high)`
    Clip,
    /// `not_(bool)`
    Not,
    /// `np.logical_and(first, second)`
    And,
    /// `np.logical_or(first, second)`
    Or,
    /// `floor(number)`
    Floor,
    /// `ceil(number)`
    Ceil,
    /// `round_(number)` or `round_(number, places)`
    Round,
    /// `abs_(number)`
    Absolute,
}

/// What an entity tells beside the values of variables.
#[derive(Clone, Copy, Debug, PartialEq, Eq)]
pub enum Method {
    /// A person has a role.
    HasRole,
    /// Each person of a group has a role or has it not (an addition of this project).
    EachHasRole,
    /// Values of the persons of a group.
    Members,
    /// What they come to.
    Total(Total),
    /// How many there are.
    Count,
}
