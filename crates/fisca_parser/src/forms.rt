//! Forms of values.

ghost use Rattle.std.specs.Prelude.{◌≡◌, option_map};
ghost use Rattle.std.specs.List.{list_all};
ghost use Rattle.fisca_ast.specs.Views.{tree, series_view, argument_view};
ghost use Rattle.fisca_parser.specs.Steps.Forms as spec;
ghost use Rattle.fisca_ast.specs.ModuleViews.{assigned, statement};

use fisca_ast::{
    Argument, Arguments, Assignment, Delimiter, Expr, Statement, Suffix, bare, is_name,
};

/// Whether this name and nothing else.
fn is_the_name(word: &[u8], value: &Expr) -> bool
    ensures { result ≡ spec.is_the_name word.now (tree value.now) }
{
    match bare(value) {
        Expr::Name(name) => name.as_bytes() == word,
        Expr::Number(_)
        | Expr::Text(_)
        | Expr::Bracketed(_, _)
        | Expr::Attribute(_)
        | Expr::Applied(_, _)
        | Expr::Prefixed(_, _)
        | Expr::Binary(_, _)
        | Expr::Compare(_, _) => false,
    }
}

/// Whether `build_entity(..)`.
fn is_entity(value: &Expr) -> bool
    ensures { result ≡ spec.is_entity (tree value.now) }
{
    match bare(value) {
        Expr::Applied(Suffix::Call, call) => {
            is_the_name(b"build_entity".as_slice(), &call.front)
        }
        Expr::Applied(Suffix::Subscript, _)
        | Expr::Name(_)
        | Expr::Number(_)
        | Expr::Text(_)
        | Expr::Bracketed(_, _)
        | Expr::Attribute(_)
        | Expr::Prefixed(_, _)
        | Expr::Binary(_, _)
        | Expr::Compare(_, _) => false,
    }
}

/// Whether a name and nothing else.
fn is_any_name(argument: &Argument) -> bool
    ensures { result ≡ spec.is_any_name (argument_view argument.now) }
{
    match argument {
        Argument::Positional(value) => match bare(value) {
            Expr::Name(name) => is_name(name.as_bytes()),
            Expr::Number(_)
            | Expr::Text(_)
            | Expr::Bracketed(_, _)
            | Expr::Attribute(_)
            | Expr::Applied(_, _)
            | Expr::Prefixed(_, _)
            | Expr::Binary(_, _)
            | Expr::Compare(_, _) => false,
        },
        Argument::Keyword(_, _) | Argument::Entry(_, _) => false,
    }
}

/// Whether all are names.
fn all_names(items: &[Argument]) -> bool
    ensures { result ≡ list_all (λ a. spec.is_any_name (argument_view a)) items.now }
{
    for item in items {
        if !is_any_name(item) {
            return false;
        }
    }
    true
}

/// Whether names.
#[tactic(auto, using(crate::proofs::ListedNames::names_of))]
fn are_names(arguments: &Arguments) -> bool
    ensures { result ≡ spec.are_names (series_view arguments.now) }
{
    all_names(arguments.parts().0)
}

/// Whether `[NAME, ..]`.
fn is_list_of_names(value: &Expr) -> bool
    ensures { result ≡ spec.is_list_of_names (tree value.now) }
{
    match bare(value) {
        Expr::Bracketed(Delimiter::Square, arguments) => are_names(arguments),
        Expr::Bracketed(Delimiter::Round | Delimiter::Curly, _)
        | Expr::Name(_)
        | Expr::Number(_)
        | Expr::Text(_)
        | Expr::Attribute(_)
        | Expr::Applied(_, _)
        | Expr::Prefixed(_, _)
        | Expr::Binary(_, _)
        | Expr::Compare(_, _) => false,
    }
}

/// What a module declares by a name and a value.
#[tactic(auto, unfolding(crate::specs::Steps::Forms::declared))]
pub(crate) fn declared(assignment: Assignment<'_>) -> Option<Statement<'_>>
    ensures { option_map statement result ≡ spec.declared (assigned assignment.entry) }
{
    if is_entity(&assignment.value) {
        return Some(Statement::Entity(assignment));
    }
    if assignment.name.as_bytes() == b"entities".as_slice() && is_list_of_names(&assignment.value) {
        return Some(Statement::Entities(assignment));
    }
    None
}

fn is_week(name: &[u8]) -> bool
    ensures { result ≡ spec.is_week name.now }
{
    name == b"WEEK".as_slice() || name == b"WEEKDAY".as_slice()
}

/// Whether `WEEK` or `WEEKDAY`, perhaps after `DateUnit.`.
fn is_week_unit(value: &Expr) -> bool
    ensures { result ≡ spec.is_week_unit (tree value.now) }
{
    match bare(value) {
        Expr::Name(name) => is_week(name.as_bytes()),
        Expr::Attribute(access) => {
            is_the_name(b"DateUnit".as_slice(), &access.front) && is_week(access.name.as_bytes())
        }
        Expr::Number(_)
        | Expr::Text(_)
        | Expr::Bracketed(_, _)
        | Expr::Applied(_, _)
        | Expr::Prefixed(_, _)
        | Expr::Binary(_, _)
        | Expr::Compare(_, _) => false,
    }
}

/// Whether a definition period of weeks.
#[tactic(auto, unfolding(crate::specs::Steps::Forms::is_week_attribute))]
pub(crate) fn is_week_attribute(assignment: &Assignment) -> bool
    ensures { result ≡ spec.is_week_attribute (assigned assignment.now) }
{
    assignment.name.as_bytes() == b"definition_period".as_slice() && is_week_unit(&assignment.value)
}
