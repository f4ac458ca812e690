//! Which arguments may stand where.

ghost use Rattle.std.specs.Prelude.{◌≡◌};
ghost use Rattle.fisca_expr_parser.specs.Steps.Spelling as spec;
ghost use Rattle.fisca_ast.specs.Views.{argument_view};

use crate::mode::{Mode, Place};
use fisca_ast::{Argument, Delimiter, Suffix};

/// Whether an argument by position may stand here.
pub(crate) fn takes_positional(place: Place) -> bool
    ensures { result ≡ spec.takes_positional place }
{
    match place {
        Place::Alone | Place::InList | Place::InCall => true,
        Place::BehindKeyword | Place::InMap => false,
    }
}

/// Whether an argument by keyword may stand here.
pub(crate) fn takes_keyword(place: Place) -> bool
    ensures { result ≡ spec.takes_keyword place }
{
    match place {
        Place::InCall | Place::BehindKeyword => true,
        Place::Alone | Place::InList | Place::InMap => false,
    }
}

/// Whether an entry of a map may stand here.
pub(crate) fn takes_entry(place: Place) -> bool
    ensures { result ≡ spec.takes_entry place }
{
    match place {
        Place::InMap => true,
        Place::Alone | Place::InList | Place::InCall | Place::BehindKeyword => false,
    }
}

/// Whether any number may stand here.
pub(crate) fn takes_many(place: Place) -> bool
    ensures { result ≡ spec.takes_many place }
{
    match place {
        Place::Alone => false,
        Place::InList | Place::InCall | Place::BehindKeyword | Place::InMap => true,
    }
}

/// What may stand behind an argument.
pub(crate) fn place_behind(place: Place, argument: &Argument<'_>) -> Place
    ensures { result ≡ spec.place_behind place (argument_view argument.now) }
{
    match argument {
        Argument::Positional(_) | Argument::Entry(_, _) => place,
        Argument::Keyword(_, _) => Place::BehindKeyword,
    }
}

/// What may stand in brackets.
pub(crate) fn place_in(mode: Mode, bracket: Delimiter) -> Place
    ensures { result ≡ spec.place_in mode bracket }
{
    match (mode, bracket) {
        (Mode::Formula, Delimiter::Round) => Place::Alone,
        (Mode::Value, Delimiter::Round) | (_, Delimiter::Square) => Place::InList,
        (_, Delimiter::Curly) => Place::InMap,
    }
}

/// Whether these brackets may begin an expression.
pub(crate) fn allows(mode: Mode, bracket: Delimiter) -> bool
    ensures { result ≡ spec.allows mode bracket }
{
    match (mode, bracket) {
        (Mode::Formula, Delimiter::Curly) => false,
        (Mode::Value, _) | (Mode::Formula, Delimiter::Round | Delimiter::Square) => true,
    }
}

/// What may stand in brackets behind an expression.
pub(crate) fn place_behind_suffix(suffix: Suffix) -> Place
    ensures { result ≡ spec.place_behind_suffix suffix }
{
    match suffix {
        Suffix::Call => Place::InCall,
        Suffix::Subscript => Place::Alone,
    }
}
