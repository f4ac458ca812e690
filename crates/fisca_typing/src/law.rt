//! Laws of typed formulas, and of what they mean.

ghost use Rattle.std.specs.Prelude.{◌≡◌, List, [], Ok};
ghost use Rattle.fisca_ast.specs.Tree.{Tree, height};
ghost use Rattle.fisca_model.specs.Groups.{Groups, Point};
ghost use Rattle.fisca_model.specs.Tables.{Tables};
ghost use Rattle.fisca_model.specs.declared.value_type.ValueType.{ValueType};
ghost use Rattle.fisca_typing.specs.Formulas.{Assigned, Formula, formula_of};
ghost use Rattle.fisca_typing.specs.Meaning.{formula_means};
ghost use Rattle.fisca_typing.specs.Names.{Names};
ghost use Rattle.fisca_typing.specs.Safe.{IsSafe};
ghost use Rattle.fisca_typing.specs.Sizes.{Sized, Written, all_capped, all_sized, capped, capped_size_of, is_small, put_in, size_of};
ghost use Rattle.fisca_typing.specs.Wellformed.{HasMembers, IsTypedFormula, before_cast};

/// The height and the count of nodes, worked out from those of the earlier locals, are those of the expression in which
/// each name of a local is replaced by the local's own expression; without locals the height is that of the expression.
pub fn sizes_are_of_locals_put_in()
    ensures put_in { (locals : List Written) (e : Tree) → size_of (all_sized locals) e ≡ size_of [] (put_in locals e) }
    ensures plain { (e : Tree) → (size_of [] e).height ≡ height e }
{}

/// To count no further than one past the limits at each step gives the size up to there, and decides the limits alike.
pub fn counting_to_the_limits_decides_them()
    ensures size { (locals : List Sized) (e : Tree) → capped_size_of (all_capped locals) e ≡ capped (size_of locals e) }
    ensures limits { (locals : List Sized) (e : Tree) → is_small (capped (size_of locals e)) ≡ is_small (size_of locals e) }
{}

/// A formula that has a type is never stuck: as long as its questions are answered by values of the variables' types, it
/// meets no operand of another type, no name that stands for nothing and no member that is not there, and gives a value of
/// its type or tells a fault. So it is for a formula as it is written, and for its typed form wherever that comes from.
pub fn never_stuck()
    ensures written { (n : Names) (groups : Groups) (t : ValueType) (locals : List Assigned) (e : Tree) (f : Formula) → n.locals ≡ [] → HasMembers n.tables → formula_of n t locals e ≡ Ok f → (p : Point) → IsSafe n.tables (before_cast t) (formula_means n.tables groups f p) }
    ensures typed { (c : Tables) (groups : Groups) (f : Formula) (t : ValueType) → HasMembers c → IsTypedFormula c f t → (p : Point) → IsSafe c t (formula_means c groups f p) }
{}
