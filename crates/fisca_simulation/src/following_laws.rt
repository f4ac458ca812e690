//! Laws of formulas that are noted, each as the contract of a function that does nothing.

ghost use Rattle.std.specs.Prelude.{◌≡◌, List, map};
ghost use Rattle.fisca_typing.specs.Meaning.{formula_means};
ghost use Rattle.fisca_ir.specs.Views.{node};
ghost use Rattle.fisca_ir.specs.declared.node.Node.{Node};
ghost use Rattle.fisca_key_semantics.specs.Answers.{Oracle, outcome};
ghost use Rattle.fisca_key_semantics.specs.Chains.{asked};
ghost use Rattle.fisca_key_semantics.specs.Inquiry.{of_key};
ghost use Rattle.fisca_model.specs.Groups.{Groups, Point};
ghost use Rattle.fisca_model.specs.Tables.{Tables};
ghost use Rattle.fisca_model.specs.Values.{Key};
ghost use Rattle.fisca_simulation.specs.Followed.{IsEnd, keys_noted, values_of};
ghost use Rattle.fisca_simulation.specs.NotedFormulas.{noted_formula};
ghost use Rattle.fisca_simulation.specs.Noted.{Noted, erased};
ghost use Rattle.fisca_simulation.specs.Played.{played};

/// Law: without what it reads, a formula that is noted is what formulas mean.
pub fn noting_changes_nothing()
    ensures { (c : Tables) (g : Groups) (ns : List Node) (e : Node) (p : Point)
        → erased (noted_formula c g (record { values = map node ns; result = node e }) p) ≡ formula_means c g (record { values = map node ns; result = node e }) p }
{}

/// Law: the keys that are noted of the formula of a key are just those that it asks for, in order.
pub fn keys_that_are_noted_are_asked_for()
    ensures { (W : Oracle) (key : Key) (d : Noted) → keys_noted (played (values_of W) d).notes ≡ asked W (of_key key (erased d)) }
{}

/// Law: a formula that is followed ends as it does.
pub fn formulas_end_as_they_are_followed()
    ensures { (W : Oracle) (key : Key) (d : Noted) → IsEnd key (played (values_of W) d).end (outcome W (of_key key (erased d))) }
{}
