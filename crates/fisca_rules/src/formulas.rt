//! The formulas of a variable.

ghost use Rattle.std.proofs.Props.{props};
ghost use Rattle.std.specs.Prelude.{IfSome};
ghost use Rattle.fisca_rules.specs.Starts.{AreStarts};

use crate::dated::DatedFormula;
use fisca_time::Instant;
use std::collections::BTreeMap;

/// The formulas of a variable. Of many the one in force is found by search.
#[derive(Drop)]
pub struct TypedFormulas {
    /// From top to bottom.
    pub items: Vec<DatedFormula>,
    pub(crate) starts: Option<BTreeMap<Instant, usize>>,
    ghost are_starts: { IfSome starts (λ m. AreStarts m items.items) } by { Prim.hlevel props },
}
