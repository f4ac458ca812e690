//! Laws of what the values of keys come from, each as the contract of a function that does nothing.

ghost use Rattle.std.specs.Prelude.{◌≡◌, ◌≢◌, List, Ok, Err};
ghost use Rattle.fisca_key_semantics.specs.Answers.{answer};
ghost use Rattle.fisca_model.specs.Causes.{Fault, stuck};
ghost use Rattle.fisca_inputs.specs.Typed.{IsValueOf};
ghost use Rattle.fisca_model.specs.Values.{Key, Value};
ghost use Rattle.fisca_rules.specs.Rules.{DatedFormula, known_by};
ghost use Rattle.fisca_rules.specs.Steps.InForce.{in_force};
ghost use Rattle.fisca_simulation.specs.InForce.{IsInForce};
ghost use Rattle.fisca_simulation.specs.Simulations.{Simulation, sources};
ghost use Rattle.fisca_simulation.specs.Sound.{InputsFit, IsSafeRules};
ghost use Rattle.fisca_time.specs.Instant.{CivilDate};

/// Law: the formula in force on a day starts by the day, and none that does so starts after it. There is none only where none starts by
/// the day.
pub fn the_formula_in_force_starts_last()
    ensures { (day : CivilDate) (ds : List DatedFormula) → IsInForce day ds (in_force day ds) }
{}

/// Law: the value of a key is of its variable's type, in a situation whose inputs are, under a rule set that was built.
pub fn values_are_of_their_types()
    ensures { (m : Simulation) → IsSafeRules m.rules → InputsFit m.rules m.situation → (k : Key) (v : Value) → answer (sources m) k ≡ Ok v → IsValueOf (known_by m.rules) k.variable v }
{}

/// Law: no formula meets an operand of a wrong type, in a situation whose inputs are of their variables' types, under a rule set that was
/// built.
pub fn no_operand_is_of_a_wrong_type()
    ensures { (m : Simulation) → IsSafeRules m.rules → InputsFit m.rules m.situation → (k : Key) (f : Fault) → answer (sources m) k ≡ Err f → f.cause ≢ stuck }
{}
