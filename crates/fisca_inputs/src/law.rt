//! Laws of inputs, each as the contract of a function that does nothing.

ghost use Rattle.std.specs.Prelude.{◌≡◌, ℕ, List, [], false, Some, Ok};
ghost use Rattle.fisca_inputs.specs.Entries.{Entries, value_at};
ghost use Rattle.fisca_inputs.specs.Inputs.{inputs_of};
ghost use Rattle.fisca_inputs.specs.Steps.Order.{in_order};
ghost use Rattle.fisca_inputs.specs.Rules.{Rule};
ghost use Rattle.fisca_inputs.specs.Steps.Rules.{is_longer};
ghost use Rattle.fisca_inputs.specs.Sharing.{all_shared, shared};
ghost use Rattle.fisca_inputs.specs.Steps.Sharing.{parts_of};
ghost use Rattle.fisca_inputs.specs.Totals.{AddUpTo, value_or_default};
ghost use Rattle.fisca_inputs.specs.declared.given.Given.{Given};
ghost use Rattle.fisca_model.specs.declared.value.Value.TheVariants as v;
ghost use Rattle.fisca_model.specs.declared.key.Key.{Key};
ghost use Rattle.fisca_model.specs.Periods.{fits};
ghost use Rattle.fisca_num.specs.Number.{Number};
ghost use Rattle.fisca_symbols.specs.declared.variable.SetInput.TheVariants as sharing;

/// Law: where an input is divided over the parts of its period, what these had before and their shares add up to it. The sum is that of
/// rationals: brought to any common denominator, the numerators add up.
pub fn shares_add_up()
    ensures { (r : Rule) (g : Given) (n : Number) (es after : Entries) → fits r.unit g.period ≡ false → r.set_input ≡ Some sharing.DivideByPeriod
        → g.value ≡ v.Number n → shared r g es ≡ Ok after → AddUpTo after (parts_of r g) n }
{}

/// Law: a key has the value that it was given, by itself or by sharing; else, where some member of its kind has one for the variable and
/// period, the variable's default, if there is such a member; else none.
pub fn defaults_stand_beside()
    ensures { (rules : List Rule) (counts : List ℕ) (givens : List Given) (es after : Entries) → all_shared rules (in_order rules givens) [] ≡ Ok es
        → inputs_of rules counts givens ≡ Ok after → (k : Key) → value_at after k ≡ value_or_default rules counts es k }
{}
