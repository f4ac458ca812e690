//! Parameters and scales at a day.

ghost use Rattle.std.specs.Prelude.{◌≡◌};
ghost use Rattle.fisca_typing.specs.Meaning.{parameter_value, scale_value};
ghost use Rattle.fisca_params.specs.Lookup.{sum_in, value_in};
ghost use Rattle.fisca_params.specs.Tree.{content_at};
ghost use Rattle.fisca_ops.specs.Ended.{ended};

use crate::fault::{OperationFault, scale_fault};
use fisca_model::Value;
use fisca_num::Fraction;
use fisca_params::{NodeId, NodeKind, ParamTree, ParamValue};
use fisca_time::Instant;

/// The value of a parameter, if it has one.
fn value_or_fault(found: Option<ParamValue>) -> Result<Value, OperationFault>
    ensures { ended result ≡ parameter_value found }
{
    let Some(value) = found else {
        return Err(OperationFault::ParameterUndefined);
    };
    match value {
        ParamValue::Number(number) => Ok(Value::Number(number)),
        ParamValue::Bool(truth) => Ok(Value::Bool(truth)),
    }
}

/// The value of the parameter at a place on a day, as `parameter_value` has it. `ParameterUndefined` where there is none.
pub fn parameter_at(tree: &ParamTree, place: NodeId, day: Instant) -> Result<Value, OperationFault>
    ensures { ended result ≡ parameter_value (value_in (content_at tree.now place) day) }
{
    match tree.kind(place) {
        NodeKind::Number | NodeKind::Bool => value_or_fault(tree.value_at(place, day)),
        NodeKind::Node | NodeKind::Unusable | NodeKind::Scale => Err(
            OperationFault::ParameterUndefined,
        ),
    }
}

/// What the scale at a place makes of a base on a day, as `scale_value` has it. `ParameterUndefined` where no bracket is complete or there is no scale,
/// `BadScale` where two brackets have one threshold, `TooWide` where a part of a sum is beyond the limits.
pub fn scale_sum_at(
    tree: &ParamTree,
    place: NodeId,
    day: Instant,
    base: Fraction,
) -> Result<Value, OperationFault>
    ensures { ended result ≡ scale_value (sum_in (content_at tree.now place) day base) }
{
    match tree.kind(place) {
        NodeKind::Scale => match tree.calc(place, day, base) {
            Ok(sum) => Ok(Value::Number(sum)),
            Err(fault) => Err(scale_fault(fault)),
        },
        NodeKind::Node | NodeKind::Number | NodeKind::Bool | NodeKind::Unusable => Err(
            OperationFault::ParameterUndefined,
        ),
    }
}
