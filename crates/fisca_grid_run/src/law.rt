//! The headline, as the contract of a function that does nothing.

ghost use Rattle.std.specs.Prelude.{ℕ, List, Option, Ok, Err};
ghost use Rattle.fisca_grid_run.specs.Headline.{ArePlain, IsFaulted, IsWhole};
ghost use Rattle.fisca_grid_run.specs.Run.{IsRunAnswer, IsRunning, IsStyleIn, Running, limit_of, start_of};
ghost use Rattle.fisca_rows.specs.declared.style.RowStyle.{RowStyle};
ghost use Rattle.fisca_rows.specs.declared.style.RowStyle.TheVariants.{Plain};
ghost use Rattle.fisca_grid_run.specs.Forms.{header_of};
ghost use Rattle.std.specs.Io.KnownBytes.{Appends};
ghost use Rattle.fisca_command_line.specs.declared.options.RunOptions.{RunOptions};
ghost use Rattle.fisca_writer.specs.declared.fault.RunEnd.{RunEnd};
ghost use Rattle.fisca_writer.specs.declared.fault.RunFault.TheVariants.{Eval};
ghost use Rattle.fisca_params.specs.Source.{Source};
ghost use Rattle.fisca_rule_files.specs.declared.refusal.Refusal.TheVariants.{Run};
ghost use Rattle.fisca_rule_files.specs.declared.refusal.Unanswered.{Unanswered};

use fisca_model::EvalFault;
use fisca_writer::runs_continue;

/// The headline, of what `run_rules` answers: where nothing stopped a run, it has written exactly the lines of the positions from the start that
/// satisfy the filter, up to the limit of lines and before the position where the range ends, and the position that it answers continues with exactly the remaining lines; a fault of an evaluation leaves
/// the lines before it, and is the first one from the start on: it stands at the position that is named. Before the lines stands that of the names, where
/// the options ask for it; where they ask for no form and do not keep the run going, the lines are the plain ones, and stand alone.
pub fn runs_are_whole()
    ensures whole { (files : List Source) (text : List ℕ) (options : RunOptions) (old new : Option (List ℕ)) (end : RunEnd) → IsRunAnswer files text options old new (Ok end) → (r : Running) × IsRunning files text options.form r × ((style : RowStyle) × IsStyleIn r options style × ((between : Option (List ℕ)) × Appends old between (header_of options.form r.names) × IsWhole r style (start_of r options) (limit_of r options) between new end)) }
    ensures faulted { (files : List Source) (text : List ℕ) (options : RunOptions) (old new : Option (List ℕ)) (position : ℕ) (u : Unanswered) → IsRunAnswer files text options old new (Err (Run (Eval position u))) → (r : Running) × IsRunning files text options.form r × ((style : RowStyle) × IsStyleIn r options style × ((between : Option (List ℕ)) × Appends old between (header_of options.form r.names) × IsFaulted r style (start_of r options) (limit_of r options) between new position u)) }
    ensures plain { (files : List Source) (text : List ℕ) (options : RunOptions) (old new : Option (List ℕ)) (end : RunEnd) → ArePlain options → IsRunAnswer files text options old new (Ok end) → (r : Running) × IsRunning files text options.form r × IsWhole r Plain (start_of r options) (limit_of r options) old new end }
    ensures plain_faulted { (files : List Source) (text : List ℕ) (options : RunOptions) (old new : Option (List ℕ)) (position : ℕ) (u : Unanswered) → ArePlain options → IsRunAnswer files text options old new (Err (Run (Eval position u))) → (r : Running) × IsRunning files text options.form r × IsFaulted r Plain (start_of r options) (limit_of r options) old new position u }
{
    runs_continue::<EvalFault>();
}
