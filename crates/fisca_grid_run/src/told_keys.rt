//! What is told of a key that has no value.

ghost use Rattle.std.specs.Prelude.{◌≡◌, IfOk};
ghost use Rattle.fisca_grid_run.specs.Unanswered.{IsUnanswered};
ghost use Rattle.fisca_situations.specs.Steps.Views.{situation as situation_view};

use fisca_columns::key_text;
use fisca_model::EvalFault;
use fisca_rule_files::Unanswered;
use fisca_rules::RuleSet;
use fisca_situations::Situation;
use std::alloc::{AllocError, Global};

/// This fault, with this text of its key.
fn with_key(fault: EvalFault, key: String) -> Unanswered
    ensures fault { result.fault ≡ fault }
    ensures key { result.key ≡ key }
{
    Unanswered { fault, key }
}

/// A fault, with the text of the key that it names. Want of memory names none, and is the error, as is that of the text.
pub fn unanswered(
    alloc: Global,
    rules: &RuleSet<'_>,
    situation: &Situation,
    fault: &EvalFault,
) -> Result<Unanswered, AllocError>
    ensures { IfOk result (IsUnanswered rules.now (situation_view situation.now).members fault.now) }
{
    let Some(found) = (*fault).key() else {
        return Err(AllocError);
    };
    match key_text(alloc, &rules.tables, situation, &found) {
        Ok(key) => Ok(with_key(*fault, key)),
        Err(error) => Err(error),
    }
}
