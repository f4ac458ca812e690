//! The law of the values at the positions of run files.

ghost use Rattle.std.specs.Prelude.{◌≡◌, ◌≢◌, ℕ, List, Some, Ok, Err};
ghost use Rattle.fisca_grid_run.specs.Runs.{IsAsked, simulation_in};
ghost use Rattle.fisca_inputs.specs.declared.given.Given.{Given};
ghost use Rattle.fisca_key_semantics.specs.Answers.{answer};
ghost use Rattle.fisca_model.specs.Causes.{Fault, stuck};
ghost use Rattle.fisca_model.specs.Values as meaning;
ghost use Rattle.fisca_model.specs.declared.key.Key.{Key};
ghost use Rattle.fisca_rules.specs.declared.rule_set.RuleSet.{RuleSet};
ghost use Rattle.fisca_run_file.specs.Positions.{moved_at, situation_with};
ghost use Rattle.fisca_run_file.specs.RunFiles.{RunFile};
ghost use Rattle.fisca_simulation.specs.Simulations.{sources};
ghost use Rattle.fisca_simulation.specs.Told.{IsReady, told_in};
ghost use Rattle.fisca_situations.specs.Situations.{Situation};
ghost use Rattle.fisca_yaml.specs.Node.{Node};

use fisca_model::EvalFault;
use fisca_simulation::{answers_are_told, no_operand_is_of_a_wrong_type};

/// Law: in the situation at a position of a file that is accepted under a safe rule set values may be asked for. No formula is stuck there, whatever key
/// it is of, and no fault that is told of a key is want of memory in disguise.
pub fn values_at_positions_are_never_stuck()
    ensures ready { (rules : RuleSet) (n : Node) (f : RunFile) → IsAsked rules n f → (position : ℕ) (moved : List Given) (s : Situation) → moved_at rules.tables f position ≡ Some moved
        → situation_with rules.tables f moved ≡ Ok s → IsReady (simulation_in rules f s) }
    ensures answers { (rules : RuleSet) (n : Node) (f : RunFile) → IsAsked rules n f → (position : ℕ) (moved : List Given) (s : Situation) → moved_at rules.tables f position ≡ Some moved
        → situation_with rules.tables f moved ≡ Ok s → (k : meaning.Key) (fault : Fault) → answer (sources (simulation_in rules f s)) k ≡ Err fault → fault.cause ≢ stuck }
    ensures told { (rules : RuleSet) (n : Node) (f : RunFile) → IsAsked rules n f → (position : ℕ) (moved : List Given) (s : Situation) → moved_at rules.tables f position ≡ Some moved
        → situation_with rules.tables f moved ≡ Ok s → (key : Key) → told_in (simulation_in rules f s) key ≢ Err EvalFault.Memory }
{
    no_operand_is_of_a_wrong_type();
    answers_are_told()
}
