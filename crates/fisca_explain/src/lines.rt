//! The line of a key.

ghost use Rattle.std.specs.Prelude.{◌≡◌, [], IfOk, None, OnOk, option_map, slice_get, string_bytes};
ghost use Rattle.fisca_columns.specs.Steps.Texts.{member_of, name_of};
ghost use Rattle.fisca_columns.specs.Texts.{value_text};
ghost use Rattle.fisca_explain.specs.Explained.{of_key};
ghost use Rattle.fisca_explain.specs.Lines.{KeepsKey, fault_in, names_at, value_in};
ghost use Rattle.fisca_explain.specs.Says.{HasAnswer, NamesKey, Says};
ghost use Rattle.fisca_explanation.specs.Explanations.{Reason, above, unfit};
ghost use Rattle.fisca_model.specs.Seen.{key_seen, value_seen};
ghost use Rattle.fisca_situations.specs.Steps.Views.{situation as situation_view};
ghost use Rattle.fisca_symbols.specs.Known.{tables as known};
ghost use Rattle.fisca_time.specs.PeriodText.{text_of as period_text};

use crate::bare::{is_bare, may_be_bare};
use crate::line::{Kind, Line, Source};
use crate::origin::Origin;
use crate::view::View;
use fisca_ast::ClassLine;
use fisca_columns::write_value;
use fisca_declarations::Declaration;
use fisca_folder::write_shown;
use fisca_model::{EvalFault, Key, Value};
use fisca_rule_files::{text_of, text_told, write_day};
use fisca_situations::Situation;
use fisca_symbols::Tables;
use fisca_time::{Instant, Period};
use std::alloc::AllocError;

/// The bytes of memory that a value has at first; one that is longer takes more.
const VALUE_ROOM: usize = 16;

/// The name of the variable at a place, and nothing where there is none.
fn name_at<'t>(tables: &'t Tables<'_>, variable: usize) -> &'t str
    ensures { result.now ≡ name_of (slice_get (known tables.now).variables variable) }
{
    match tables.variables.as_slice().get(variable) {
        Some(variable) => variable.name.as_str(),
        None => "",
    }
}

/// The name of a key's member, and nothing where there is none.
fn member_at<'s>(tables: &Tables<'_>, situation: &'s Situation, key: &Key) -> &'s str
    ensures { result.now ≡ member_of (situation_view situation.now).members key.now.member (slice_get (known tables.now).variables key.now.variable) }
{
    match tables.variables.as_slice().get(key.variable) {
        Some(variable) => situation.name(variable.entity, key.member).unwrap_or(""),
        None => "",
    }
}

/// A period.
fn period_text(view: &View<'_, '_, '_, '_>, period: Period) -> Result<String, AllocError>
    ensures { IfOk result (λ text. string_bytes text ≡ period_text period) }
{
    match period.text(view.alloc) {
        Ok(text) => Ok(text),
        Err(_) => Err(AllocError),
    }
}

/// Puts the names of a key's variable and of its member, and its period.
fn put_key(
    view: &View<'_, '_, '_, '_>,
    situation: &Situation,
    key: &Key,
    line: &mut Line,
) -> Result<(), AllocError>
    ensures key { OnOk result (NamesKey (names_at view.now situation.now EvalFault.Memory) (key_seen key.now) line.new) }
    ensures others { OnOk result (line.new ≡ record line.old { name = line.new.name; member = line.new.member; period = line.new.period }) }
{
    line.name = text_of(view.alloc, name_at(&view.rules.tables, key.variable))?;
    line.member = text_of(view.alloc, member_at(&view.rules.tables, situation, key))?;
    line.period = period_text(view, key.period)?;
    Ok(())
}

/// Puts what is told of a variable, beside its unit.
fn put_told(
    view: &View<'_, '_, '_, '_>,
    declaration: &Declaration<'_>,
    line: &mut Line,
) -> Result<(), AllocError>
    ensures { OnOk result (KeepsKey line.old line.new) }
{
    line.label = text_told(view.alloc, &declaration.label)?;
    match declaration.reference.as_slice().first() {
        Some(reference) => write_shown(reference.as_str(), &mut line.reference),
        None => Ok(()),
    }
}

/// The line on which the formula that starts on this day begins; of two that do so it is the upper that is in force.
fn formula_line(declaration: &Declaration<'_>, start: Instant) -> Option<usize> {
    for line in declaration.formulas.lines() {
        if let ClassLine::Formula(formula) = line {
            if formula.start == start {
                return Some(formula.line);
            }
        }
    }
    None
}

/// Appends the path of the module at a place.
fn write_module(
    view: &View<'_, '_, '_, '_>,
    module: usize,
    text: &mut String,
) -> Result<(), AllocError> {
    match view.modules.get(module) {
        Some(file) => write_shown(file.path(), text),
        None => Ok(()),
    }
}

/// Puts where the formula in force stands, and from when on it is.
fn put_formula(
    view: &View<'_, '_, '_, '_>,
    declaration: &Declaration<'_>,
    key: &Key,
    line: &mut Line,
) -> Result<(), AllocError>
    ensures { OnOk result (KeepsKey line.old line.new) }
{
    let (Some(day), Some(formulas)) = (key.period.start(), view.rules.formulas.get(key.variable))
    else {
        return Ok(());
    };
    let Some(dated) = formulas.in_force(day) else {
        return Ok(());
    };
    write_day(dated.start, &mut line.since)?;
    write_module(view, declaration.module, &mut line.file)?;
    line.line = formula_line(declaration, dated.start);
    Ok(())
}

/// Puts where an input stands: given at the key's period, or shared from a longer one; a default where it is stated nowhere.
fn put_input(
    view: &View<'_, '_, '_, '_>,
    situation: &Situation,
    key: &Key,
    line: &mut Line,
) -> Result<(), AllocError>
    ensures { OnOk result (KeepsKey line.old line.new) }
{
    let Some(stated) = view.stated.find(view.rules, situation, key) else {
        line.source = Source::Beside;
        return Ok(());
    };
    line.line = Some(stated.line);
    if stated.period == key.period {
        return Ok(());
    }
    line.source = Source::Shared;
    line.since = period_text(view, stated.period)?;
    Ok(())
}

/// What the value of a key comes from, as lines tell it; of an input it may be another.
fn source_of(origin: &Origin<'_, '_>) -> Source {
    match origin {
        Origin::Unfit => Source::Unfit,
        Origin::Input => Source::Given,
        Origin::Default => Source::Default,
        Origin::Neutral => Source::Neutral,
        Origin::Formula(_, _) => Source::Formula,
    }
}

/// Puts what the value of a key comes from.
fn put_origin(
    view: &View<'_, '_, '_, '_>,
    situation: &Situation,
    key: &Key,
    declaration: &Declaration<'_>,
    origin: Origin<'_, '_>,
    line: &mut Line,
) -> Result<(), AllocError>
    ensures { OnOk result (KeepsKey line.old line.new) }
{
    line.source = source_of(&origin);
    match origin {
        Origin::Input => put_input(view, situation, key, line),
        Origin::Formula(_, _) => put_formula(view, declaration, key, line),
        Origin::Unfit | Origin::Default | Origin::Neutral => Ok(()),
    }
}

/// The value of a key.
fn value_text(view: &View<'_, '_, '_, '_>, key: &Key, value: Value) -> Result<String, AllocError>
    ensures { IfOk result (λ text. string_bytes text ≡ value_text (known view.now.rules.now.tables) key.now.variable value) }
{
    let mut text = String::with_capacity(view.alloc, VALUE_ROOM)?;
    write_value(&view.rules.tables, key.variable, value, &mut text)?;
    Ok(text)
}

/// Puts the value of a key, or why there is none.
fn put_answer(
    view: &View<'_, '_, '_, '_>,
    key: &Key,
    answer: Result<Value, EvalFault>,
    line: &mut Line,
) -> Result<(), AllocError>
    requires fault { line.old.fault.now ≡ [] }
    requires value { string_bytes line.old.value ≡ [] }
    ensures answer { OnOk result (HasAnswer (record { tables = known view.now.rules.now.tables; members = []; fault = fault_in answer }) key.now.variable (option_map value_seen (value_in answer)) line.new) }
    ensures others { OnOk result (line.new ≡ record line.old { value = line.new.value; is_bare = line.new.is_bare; fault = line.new.fault }) }
{
    match answer {
        Ok(value) => {
            let may_be = may_be_bare(&value);
            line.value = value_text(view, key, value)?;
            line.is_bare = is_bare(may_be, line.value.as_str());
            Ok(())
        }
        Err(fault) => {
            line.fault = fault.name();
            Ok(())
        }
    }
}

/// The line of a key with its names and its value alone, as one that was explained above has it.
fn line_above(
    view: &View<'_, '_, '_, '_>,
    situation: &Situation,
    depth: usize,
    key: &Key,
    answer: Result<Value, EvalFault>,
) -> Result<Line, AllocError>
    ensures says { IfOk result (λ line. Says (names_at view.now situation.now (fault_in answer)) (of_key depth (key_seen key.now) (option_map value_seen (value_in answer)) unfit) line) }
    ensures source { IfOk result (λ line. line.source ≡ Source.Above) }
{
    let mut line = Line::new(view.alloc, depth, Kind::Key, Source::Above);
    put_key(view, situation, key, &mut line)?;
    put_answer(view, key, answer, &mut line)?;
    Ok(line)
}

/// Puts what the value of a key comes from, and what is told of its variable, where it is said what it comes from.
fn put_source(
    view: &View<'_, '_, '_, '_>,
    situation: &Situation,
    key: &Key,
    declaration: &Declaration<'_>,
    origin: Option<Origin<'_, '_>>,
    line: &mut Line,
) -> Result<(), AllocError>
    ensures key { OnOk result (KeepsKey line.old line.new) }
    ensures above { OnOk result (origin.entry ≡ None → line.new.source ≡ line.old.source) }
{
    match origin {
        None => Ok(()),
        Some(origin) => {
            put_origin(view, situation, key, declaration, origin, line)?;
            put_told(view, declaration, line)
        }
    }
}

/// The line of a key: its names, its value, what that comes from, and what is told of its variable. One that was explained above says so alone.
pub(crate) fn line_of_key(
    view: &View<'_, '_, '_, '_>,
    situation: &Situation,
    depth: usize,
    key: &Key,
    answer: Result<Value, EvalFault>,
    origin: Option<Origin<'_, '_>>,
) -> Result<Line, AllocError>
    ensures { IfOk result (λ line. (reason : Reason) → (reason ≡ above → origin.entry ≡ None)
        → Says (names_at view.now situation.now (fault_in answer)) (of_key depth (key_seen key.now) (option_map value_seen (value_in answer)) reason) line) }
{
    let mut line = line_above(view, situation, depth, key, answer)?;
    match view.rules.declarations.get(key.variable) {
        None => Ok(line),
        Some(declaration) => {
            line.unit = text_told(view.alloc, &declaration.unit)?;
            put_source(view, situation, key, declaration, origin, &mut line)?;
            Ok(line)
        }
    }
}
