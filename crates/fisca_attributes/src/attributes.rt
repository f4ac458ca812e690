//! Attributes of variables, as they are written.

ghost use Rattle.std.specs.Prelude.{◌≡◌, map, option_map};
ghost use Rattle.fisca_ast.specs.Views.{tree};
ghost use Rattle.fisca_ast.specs.ModuleViews.{item};
ghost use Rattle.fisca_ast.specs.Outcomes.{Gives};
ghost use Rattle.fisca_attributes.specs.Steps.AttributeForms as spec;

use crate::values::name_value;
use fisca_ast::{ClassLine, Expr, FormulaKind, bare};
use fisca_symbols::{SetInput, SourceText};
use fisca_time::Unit;

/// The name of a type.
#[derive(Clone, Copy, Debug, PartialEq, Eq)]
pub enum TypeName {
    /// `float`
    Float,
    /// `int`
    Int,
    /// `bool`
    Bool,
    /// `date`
    Date,
    /// `str`
    Text,
    /// `Enum`
    Enum,
}

#[tactic(auto, unfolding(crate::specs::Steps::AttributeForms::type_named))]
fn type_named(name: &[u8]) -> Result<TypeName, FormulaKind>
    ensures { result ≡ spec.type_named name.now }
{
    if name == b"float".as_slice() {
        return Ok(TypeName::Float);
    }
    if name == b"int".as_slice() {
        return Ok(TypeName::Int);
    }
    if name == b"bool".as_slice() {
        return Ok(TypeName::Bool);
    }
    if name == b"date".as_slice() {
        return Ok(TypeName::Date);
    }
    if name == b"str".as_slice() {
        return Ok(TypeName::Text);
    }
    if name == b"Enum".as_slice() {
        return Ok(TypeName::Enum);
    }
    Err(FormulaKind::BadAttribute)
}

/// The name of a type.
pub fn type_value(value: &Expr<'_>) -> Result<TypeName, FormulaKind>
    ensures { result ≡ spec.type_value (tree value.now) }
{
    type_named(name_value(value)?.as_bytes())
}

#[tactic(auto, unfolding(crate::specs::Steps::AttributeForms::period_named))]
fn period_named(name: &[u8]) -> Result<Unit, FormulaKind>
    ensures { result ≡ spec.period_named name.now }
{
    if name == b"DAY".as_slice() {
        return Ok(Unit::Day);
    }
    if name == b"MONTH".as_slice() {
        return Ok(Unit::Month);
    }
    if name == b"YEAR".as_slice() {
        return Ok(Unit::Year);
    }
    if name == b"ETERNITY".as_slice() {
        return Ok(Unit::Eternity);
    }
    Err(FormulaKind::BadAttribute)
}

/// The unit of this name behind a name, which is `DateUnit`.
fn unit_of(name: &[u8], left: Result<SourceText<'_>, FormulaKind>) -> Result<Unit, FormulaKind>
    ensures { result ≡ spec.unit_of name.now left.entry }
{
    match left {
        Ok(word) => {
            if word.as_bytes() == b"DateUnit".as_slice() {
                period_named(name)
            } else {
                Err(FormulaKind::BadAttribute)
            }
        }
        Err(_) => Err(FormulaKind::BadAttribute),
    }
}

/// A definition period, perhaps behind `DateUnit.`.
pub fn period_value(value: &Expr<'_>) -> Result<Unit, FormulaKind>
    ensures { result ≡ spec.period_value (tree value.now) }
{
    match bare(value) {
        Expr::Name(name) => period_named(name.as_bytes()),
        Expr::Attribute(access) => unit_of(access.name.as_bytes(), name_value(&access.front)),
        Expr::Number(_)
        | Expr::Text(_)
        | Expr::Bracketed(_, _)
        | Expr::Applied(_, _)
        | Expr::Prefixed(_, _)
        | Expr::Binary(_, _)
        | Expr::Compare(_, _) => Err(FormulaKind::BadAttribute),
    }
}

#[tactic(auto, unfolding(crate::specs::Steps::AttributeForms::sharing_named))]
fn sharing_named(name: &[u8]) -> Result<SetInput, FormulaKind>
    ensures { result ≡ spec.sharing_named name.now }
{
    if name == b"set_input_divide_by_period".as_slice() {
        return Ok(SetInput::DivideByPeriod);
    }
    if name == b"set_input_dispatch_by_period".as_slice() {
        return Ok(SetInput::DispatchByPeriod);
    }
    Err(FormulaKind::BadAttribute)
}

/// How longer inputs are shared.
pub fn sharing_value(value: &Expr<'_>) -> Result<SetInput, FormulaKind>
    ensures { result ≡ spec.sharing_value (tree value.now) }
{
    sharing_named(name_value(value)?.as_bytes())
}

/// The value of the first attribute of this name.
pub fn value_at<'e, 'a>(name: &[u8], items: &'e [ClassLine<'a>]) -> Option<&'e Expr<'a>>
    ensures { option_map (λ e. tree e.now) result ≡ spec.value_at name.now (map item items.now) }
{
    for one in items {
        if let ClassLine::Attribute(attribute) = one {
            if attribute.name.as_bytes() == name {
                return Some(&attribute.value);
            }
        }
    }
    None
}
