//! The lines of all variables.

ghost use Rattle.std.specs.Prelude.{◌≡◌, ◌<◌, length, map};
ghost use Rattle.fisca_rule_files.specs.Listing.{listed_row};
ghost use Rattle.fisca_rules.specs.Views.{rule_set};
ghost use Rattle.fisca_writer.specs.Ranges.{no_limit};
ghost use Rattle.fisca_writer.specs.Run.{IsRun, is_write};
ghost use Rattle.fisca_writer.specs.Sink.{CountsFailure};

use crate::cells::write_line;
use fisca_forms::LineForm;
use fisca_params::SourceFile;
use fisca_rules::RuleSet;
use fisca_writer::{
    GroupLengths, Limit, RowFault, RowSink, Rows, RunEnd, RunFault, Selection, write_lines,
};
use std::alloc::Global;
use std::convert::Infallible;

/// The variables of a rule set as rows of one group: each has a line.
#[derive(Drop)]
struct VariableRows<'a, 't> {
    alloc: Global,
    form: &'a LineForm,
    modules: &'a [&'a SourceFile],
    rules: &'a RuleSet<'t>,
    here: Option<u64>,
    ghost some: { 0 < length rules.now.tables.variables },
}

impl<'a, 't> Rows for VariableRows<'a, 't> {
    ghost use Rattle.std.specs.Prelude.{⊤, [], ◌∷◌, length, map};
    ghost use Rattle.fisca_rule_files.specs.Listing.{listed_row};
    ghost use Rattle.fisca_rules.specs.Views.{rule_set};

    type Fault = Infallible;

    ghost row_at = { λ r. listed_row r.form.now (map (λ f. f.now) r.modules.now) (rule_set r.rules.now) };

    ghost counts = { λ r. length r.rules.now.tables.variables ∷ [] };

    ghost here = { λ r. r.here };

    // nothing has to be made ready
    ghost ready = { λ _. ⊤ };

    // nothing is remembered
    ghost worked = { λ _ _ _. ⊤ };

    ghost refused = { λ _ _ _. ⊤ };

    fn groups(&self) -> GroupLengths {
        let mut groups = GroupLengths::new();
        groups.push(self.rules.variables().len() as u64);
        groups
    }

    fn work_out(
        &mut self,
        position: u64,
        _turned: u32,
        line: &mut String,
    ) -> Result<Selection, RowFault<Infallible>> {
        self.here = Some(position);
        let (alloc, form, modules, rules) = (self.alloc, self.form, self.modules, self.rules);
        let place = position as usize;
        match rules.variables().get(place) {
            None => Ok(Selection::Dropped),
            Some(variable) => match write_line(alloc, form, modules, rules, place, variable, line) {
                Ok(()) => Ok(Selection::Kept),
                Err(_) => Err(RowFault::Memory),
            },
        }
    }
}

/// Writes a line for each variable of a rule set into a sink, in the order in which its modules declare them: the variable, its entity, its type, its
/// definition period, `input` or the first days of its formulas, its unit, its label, and the module and the line on which it begins, as cells of a form.
/// The modules are those that the rule set was made of, in order of their paths. Each line is worked out whole before any of it is handed over.
///
/// - `Write` only where the sink failed in this call: it has the lines before the variable that is named, and a proper beginning of the line there.
/// - `Memory` only where memory was refused, at the variable that is named: the sink has the lines before it.
///
/// This project's own rule.
pub fn write_listing<S: RowSink>(
    alloc: Global,
    form: &LineForm,
    modules: &[&SourceFile],
    rules: &RuleSet<'_>,
    sink: &mut S,
) -> Result<RunEnd, RunFault<Infallible>>
    ensures run { IsRun (listed_row form.now (map (λ f. f.now) modules.now) (rule_set rules.now)) (length (rule_set rules.now).variables) 0 no_limit (S.taken sink.old) (S.taken sink.new) result }
    ensures failures { CountsFailure (is_write result) (S.failures sink.old) (S.failures sink.new) }
{
    if rules.variables().is_empty() {
        return Ok(RunEnd::End);
    }
    let mut rows = VariableRows {
        alloc,
        form,
        modules,
        rules,
        here: None,
    };
    write_lines(alloc, &mut rows, 0, Limit::none(), sink)
}
