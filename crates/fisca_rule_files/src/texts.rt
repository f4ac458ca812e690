//! The texts of a variable.

ghost use Rattle.std.specs.Prelude.{◌≡◌, ◌++◌, IfOk, OnOk, map, option_map, slice_get, string_bytes};
ghost use Rattle.fisca_declarations.specs.VariableForms.{written};
ghost use Rattle.fisca_folder.specs.Shown.{shown};
ghost use Rattle.fisca_rule_files.specs.Listing as spec;
ghost use Rattle.fisca_rules.specs.Views.{dated, rule_set};

use crate::days::write_day;
use fisca_declarations::Declaration;
use fisca_folder::write_shown;
use fisca_params::SourceFile;
use fisca_rules::{DatedFormula, RuleSet};
use fisca_symbols::{DeclaredType, SourceText};
use fisca_time::Unit;
use std::alloc::{AllocError, Global};

/// A text of a module, in one line, as `write_shown` has it. `AllocError` only where no memory is left.
pub fn text_of(alloc: Global, said: &str) -> Result<String, AllocError>
    ensures { IfOk result (λ text. string_bytes text ≡ shown said.now) }
{
    let mut text = String::new(alloc);
    write_shown(said, &mut text)?;
    Ok(text)
}

/// What is told of a variable in a text of a module, and nothing where nothing is told. `AllocError` only where no memory is left.
pub fn text_told(alloc: Global, told: &Option<SourceText<'_>>) -> Result<String, AllocError>
    ensures { IfOk result (λ text. string_bytes text ≡ spec.text_told told.now) }
{
    match told {
        Some(said) => text_of(alloc, said.as_str()),
        None => Ok(String::new(alloc)),
    }
}

/// The key of the entity at a place.
pub(crate) fn entity_text(
    alloc: Global,
    rules: &RuleSet<'_>,
    place: usize,
) -> Result<String, AllocError>
    ensures { IfOk result (λ text. string_bytes text ≡ spec.entity_text (slice_get (rule_set rules.now).entities place)) }
{
    match rules.entities().get(place) {
        Some(entity) => text_of(alloc, entity.key.as_str()),
        None => Ok(String::new(alloc)),
    }
}

/// The name of the Enum at a place.
fn enum_text(alloc: Global, rules: &RuleSet<'_>, place: usize) -> Result<String, AllocError>
    ensures { IfOk result (λ text. string_bytes text ≡ spec.enum_text (slice_get (rule_set rules.now).enums place)) }
{
    match rules.enums().get(place) {
        Some(choices) => text_of(alloc, choices.name.as_str()),
        None => Ok(String::new(alloc)),
    }
}

/// A type as modules write it, but an Enum by its own name.
pub(crate) fn type_text(
    alloc: Global,
    rules: &RuleSet<'_>,
    value_type: DeclaredType,
) -> Result<String, AllocError>
    ensures { IfOk result (λ text. string_bytes text ≡ spec.type_text (rule_set rules.now).enums value_type) }
{
    match value_type {
        DeclaredType::Float => String::from_str(alloc, "float"),
        DeclaredType::Int => String::from_str(alloc, "int"),
        DeclaredType::Bool => String::from_str(alloc, "bool"),
        DeclaredType::Date => String::from_str(alloc, "date"),
        DeclaredType::Text => String::from_str(alloc, "str"),
        DeclaredType::Enum(place) => enum_text(alloc, rules, place),
    }
}

/// A definition period in small letters.
pub(crate) fn period_text(alloc: Global, unit: Unit) -> Result<String, AllocError>
    ensures { IfOk result (λ text. string_bytes text ≡ spec.period_text unit) }
{
    String::from_str(
        alloc,
        match unit {
            Unit::Day => "day",
            Unit::Month => "month",
            Unit::Year => "year",
            Unit::Eternity => "eternity",
        },
    )
}

/// Appends the first days of formulas, each behind a space.
fn write_starts(formulas: &[DatedFormula], text: &mut String) -> Result<(), AllocError>
    ensures { OnOk result (string_bytes text.new ≡ string_bytes text.old ++ spec.starts_text (map dated formulas.now)) }
{
    for formula in formulas {
        text.push(' ')?;
        write_day(formula.start, text)?;
    }
    Ok(())
}

/// The first days of formulas from top to bottom; where there are none, that there are inputs alone.
fn formulas_text(alloc: Global, formulas: &[DatedFormula]) -> Result<String, AllocError>
    ensures { IfOk result (λ text. string_bytes text ≡ spec.formulas_text (map dated formulas.now)) }
{
    match formulas {
        [] => String::from_str(alloc, "input"),
        [first, more @ ..] => {
            let mut text = String::new(alloc);
            write_day(first.start, &mut text)?;
            write_starts(more, &mut text)?;
            Ok(text)
        }
    }
}

/// The same of the variable at a place.
pub(crate) fn formulas_at(
    alloc: Global,
    rules: &RuleSet<'_>,
    place: usize,
) -> Result<String, AllocError>
    ensures { IfOk result (λ text. string_bytes text ≡ spec.formulas_text (spec.formulas_in (slice_get (rule_set rules.now).formulas place))) }
{
    match rules.formulas.get(place) {
        Some(formulas) => formulas_text(alloc, formulas.items.as_slice()),
        None => String::from_str(alloc, "input"),
    }
}

/// The declaration of the variable at a place.
pub(crate) fn declaration_at<'a, 't>(
    rules: &'a RuleSet<'t>,
    place: usize,
) -> Option<&'a Declaration<'t>>
    ensures { option_map (λ d. written d.now) result ≡ slice_get (rule_set rules.now).declarations place }
{
    rules.declarations.get(place)
}

/// Appends the path of the module at a place.
fn write_module(modules: &[&SourceFile], place: usize, text: &mut String) -> Result<(), AllocError>
    ensures { OnOk result (string_bytes text.new ≡ string_bytes text.old ++ spec.path_text (slice_get (map (λ f. f.now) modules.now) place)) }
{
    match modules.get(place) {
        Some(file) => write_shown(file.path(), text),
        None => Ok(()),
    }
}

/// The module and the line on which a variable begins, as `variables/income.py:12`.
pub(crate) fn place_text(
    alloc: Global,
    modules: &[&SourceFile],
    place: usize,
    line: usize,
) -> Result<String, AllocError>
    ensures { IfOk result (λ text. string_bytes text ≡ spec.place_text (map (λ f. f.now) modules.now) place line) }
{
    let mut text = String::new(alloc);
    write_module(modules, place, &mut text)?;
    text.push(':')?;
    text.push_str(itoa::Buffer::new().format(line))?;
    Ok(text)
}
