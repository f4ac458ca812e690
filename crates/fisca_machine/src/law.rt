//! A law of plans.

ghost use Rattle.std.specs.List.{list_all};
ghost use Rattle.std.specs.Prelude.{◌≡◌};
ghost use Rattle.fisca_model.specs.Groups.{Groups, Point};
ghost use Rattle.fisca_machine.specs.Plans.{has_plan, is_operand, operands};
ghost use Rattle.fisca_machine.specs.Running.{Locals};
ghost use Rattle.fisca_typing.specs.Nodes.{Node};
ghost use Rattle.fisca_model.specs.Tables.{Tables};

/// A formula has a plan exactly where each of its operands, from left to right, is known at once or is what a key asks for.
pub fn plans_are_of_operands()
    ensures { (c : Tables) (g : Groups) (ls : Locals) (n : Node) (p : Point) → has_plan c g ls n p ≡ list_all (λ e. is_operand c g ls e p) (operands n) }
{}
