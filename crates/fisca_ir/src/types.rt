//! Types and levels of values.
ghost use Rattle.std.specs.Prelude.{◌≡◌};
ghost use Rattle.fisca_ast.specs.Outcomes.{Gives};
ghost use Rattle.fisca_typing.specs.Types as spec;

use fisca_ast::FormulaKind;
use fisca_model::ValueType;
use fisca_typing::Level;

/// Whether values of the type count as numbers: bools do, as 0 and 1.
pub fn is_numeric(value_type: ValueType) -> bool
    ensures { result ≡ spec.is_numeric value_type }
{
    match value_type {
        ValueType::Number | ValueType::Bool => true,
        ValueType::Enum(_) => false,
    }
}

/// Whether the type is that of numbers alone, which bools are none of here.
pub fn is_number(value_type: ValueType) -> bool
    ensures { result ≡ spec.is_number value_type }
{
    match value_type {
        ValueType::Number => true,
        ValueType::Bool | ValueType::Enum(_) => false,
    }
}

/// Whether the type is that of bools.
pub fn is_bool(value_type: ValueType) -> bool
    ensures { result ≡ spec.is_bool value_type }
{
    match value_type {
        ValueType::Bool => true,
        ValueType::Number | ValueType::Enum(_) => false,
    }
}

/// The type of what is one or the other: their common type, or `Number` for a number and a bool; else `BadType`.
pub fn common(first: ValueType, second: ValueType) -> Result<ValueType, FormulaKind>
    ensures { Gives (λ t. t) (spec.common first second) result }
{
    match (first, second) {
        (ValueType::Bool, ValueType::Bool) => Ok(ValueType::Bool),
        (ValueType::Number | ValueType::Bool, ValueType::Number | ValueType::Bool) => {
            Ok(ValueType::Number)
        }
        (ValueType::Enum(e), ValueType::Enum(f)) if e == f => Ok(ValueType::Enum(e)),
        _ => Err(FormulaKind::BadType),
    }
}

/// The higher of two levels, or `BadLevel` for a value of the group and values of its persons.
pub fn higher(first: Level, second: Level) -> Result<Level, FormulaKind>
    ensures { Gives (λ l. l) (spec.higher first second) result }
{
    match (first, second) {
        (Level::Constant, level) | (level, Level::Constant) => Ok(level),
        (Level::Own, Level::Own) => Ok(Level::Own),
        (Level::Members, Level::Members) => Ok(Level::Members),
        (Level::Own, Level::Members) | (Level::Members, Level::Own) => Err(FormulaKind::BadLevel),
    }
}

/// Whether there is one value for each person of the group.
pub fn is_of_members(level: Level) -> bool
    ensures { result ≡ spec.is_of_members level }
{
    match level {
        Level::Members => true,
        Level::Constant | Level::Own => false,
    }
}
