//! Inputs put in among those that are given.

ghost use Rattle.std.specs.Prelude.{◌≡◌, ◌∷◌, ◌++◌, [], OnOk};
ghost use Rattle.fisca_inputs.specs.Entries.{same_key};
ghost use Rattle.fisca_inputs.specs.Inputs.{key_given};
ghost use Rattle.fisca_situations.specs.Steps.Axes as spec;

use fisca_inputs::Given;
use std::alloc::AllocError;

/// Puts an input behind these. `AllocError` only where memory was refused.
pub fn push_input(items: &mut Vec<Given>, input: Given) -> Result<(), AllocError>
    ensures { OnOk result (items.new.items ≡ items.old.items ++ input ∷ []) }
{
    let Given {
        variable,
        member,
        period,
        value,
        line,
    } = input;
    items
        .push(Given {
            variable,
            member,
            period,
            value,
            line,
        })
        .map_err(AllocError::from)
}

/// Whether two inputs are of one variable, member and period.
fn is_same(ours: &Given, theirs: &Given) -> bool
    ensures { result ≡ same_key (key_given ours.now) (key_given theirs.now) }
{
    ours.variable == theirs.variable && ours.member == theirs.member && ours.period == theirs.period
}

/// Puts an input in, behind these or in the place of that of just this variable, member and period. `AllocError` only where memory was refused. This
/// project's own rule.
pub fn put_in(given: &mut Vec<Given>, input: Given) -> Result<(), AllocError>
    ensures { OnOk result (given.new.items ≡ spec.put_in given.old.items input) }
{
    for i in 0..given.len() {
        if is_same(&given[i], &input) {
            given[i] = input;
            return Ok(());
        }
    }
    push_input(given, input)
}
