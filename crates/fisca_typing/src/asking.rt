//! How formulas ask for the values of variables.

use fisca_model::RolePlace;

/// For whom a variable is asked.
#[derive(Clone, Copy, Debug, PartialEq, Eq)]
pub enum Whom {
    /// For the member whose formula it is.
    Own,
    /// For that person's group of the entity at this place.
    Group(usize),
    /// For one person of the group after another.
    Person,
    /// For the one person who has this role in the group, if there is one.
    Holder(RolePlace),
}

/// What is asked for of a period.
#[derive(Clone, Copy, Debug, PartialEq, Eq)]
pub enum Asking {
    /// The value of the period itself.
    Plain,
    /// The sum over the period's parts.
    Add,
    /// The part of the year's value that falls to the period.
    Divide,
}
