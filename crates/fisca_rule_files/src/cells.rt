//! The cells of a variable, and its line.

ghost use Rattle.std.specs.Prelude.{◌≡◌, ◌++◌, [], IfOk, OnOk, map, option_map, slice_get, string_bytes};
ghost use Rattle.fisca_declarations.specs.VariableForms.{written};
ghost use Rattle.fisca_forms.specs.Forms.{quoted};
ghost use Rattle.fisca_forms.specs.LineForms.{cells_from};
ghost use Rattle.fisca_rule_files.specs.Listing as spec;
ghost use Rattle.fisca_rules.specs.Views.{rule_set};

use crate::texts::{
    declaration_at, entity_text, formulas_at, period_text, place_text, text_of, text_told,
    type_text,
};
use fisca_declarations::Declaration;
use fisca_forms::LineForm;
use fisca_params::SourceFile;
use fisca_rules::RuleSet;
use fisca_symbols::Variable;
use std::alloc::{AllocError, Global};

/// The names of the cells.
pub fn list_names(alloc: Global) -> Result<Vec<String>, AllocError>
    ensures { IfOk result (λ names. map (λ name. string_bytes name) names.items ≡ spec.list_names) }
{
    let mut names = Vec::new(alloc);
    names.push(String::from_str(alloc, "variable")?)?;
    names.push(String::from_str(alloc, "entity")?)?;
    names.push(String::from_str(alloc, "value_type")?)?;
    names.push(String::from_str(alloc, "definition_period")?)?;
    names.push(String::from_str(alloc, "formulas")?)?;
    names.push(String::from_str(alloc, "unit")?)?;
    names.push(String::from_str(alloc, "label")?)?;
    names.push(String::from_str(alloc, "declared")?)?;
    Ok(names)
}

/// Appends what the declaration of a variable says.
fn push_declared(
    alloc: Global,
    modules: &[&SourceFile],
    declaration: Option<&Declaration<'_>>,
    texts: &mut Vec<String>,
) -> Result<(), AllocError>
    ensures { OnOk result (map (λ t. string_bytes t) texts.new.items ≡ map (λ t. string_bytes t) texts.old.items ++ spec.texts_declared (map (λ f. f.now) modules.now) (option_map (λ d. written d.now) declaration.entry)) }
{
    match declaration {
        None => Ok(()),
        Some(said) => {
            texts.push(text_told(alloc, &said.unit)?)?;
            texts.push(text_told(alloc, &said.label)?)?;
            texts.push(place_text(alloc, modules, said.module, said.line)?)?;
            Ok(())
        }
    }
}

/// The cells of the variable at a place.
fn texts_of(
    alloc: Global,
    modules: &[&SourceFile],
    rules: &RuleSet<'_>,
    place: usize,
    variable: &Variable<'_>,
) -> Result<Vec<String>, AllocError>
    ensures { IfOk result (λ texts. map (λ t. string_bytes t) texts.items ≡ spec.texts_of (map (λ f. f.now) modules.now) (rule_set rules.now) place variable.now) }
{
    let mut texts = Vec::new(alloc);
    texts.push(text_of(alloc, variable.name.as_str())?)?;
    texts.push(entity_text(alloc, rules, variable.entity)?)?;
    texts.push(type_text(alloc, rules, variable.value_type)?)?;
    texts.push(period_text(alloc, variable.definition_period)?)?;
    texts.push(formulas_at(alloc, rules, place)?)?;
    let declaration = declaration_at(rules, place);
    push_declared(alloc, modules, declaration, &mut texts)?;
    Ok(texts)
}

/// Appends cells with these texts.
fn write_cells(form: &LineForm, texts: &[String], line: &mut String) -> Result<(), AllocError>
    ensures { OnOk result (string_bytes line.new ≡ string_bytes line.old ++ cells_from form.now.format form.now.names 0 (map quoted (map (λ t. string_bytes t) texts.now))) }
{
    for place in 0..texts.len() {
        form.write_cell(place, false, texts[place].as_str(), line)?;
    }
    Ok(())
}

/// Appends the line of the variable at a place.
pub(crate) fn write_line(
    alloc: Global,
    form: &LineForm,
    modules: &[&SourceFile],
    rules: &RuleSet<'_>,
    place: usize,
    variable: &Variable<'_>,
    line: &mut String,
) -> Result<(), AllocError>
    ensures { OnOk result (string_bytes line.new ≡ string_bytes line.old ++ spec.line_of form.now (map (λ f. f.now) modules.now) (rule_set rules.now) place variable.now) }
{
    let texts = texts_of(alloc, modules, rules, place, variable)?;
    write_cells(form, texts.as_slice(), line)?;
    form.write_end(line)
}
