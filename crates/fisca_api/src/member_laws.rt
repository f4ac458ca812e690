//! Laws of the members of situations: persons have groups, and what formulas ask for is there.

ghost use Rattle.std.specs.Prelude.{◌≡◌, ℕ, List, Bool, Option, Some, Ok, slice_get, nat_lt, true, false};
ghost use Rattle.std.specs.List.{list_all};
ghost use Rattle.fisca_ast.specs.Modules.{Statement};
ghost use Rattle.fisca_groups.specs.Grouped.{grouped, persons_of};
ghost use Rattle.fisca_groups.specs.Lookup.{count_at};
ghost use Rattle.fisca_groups.specs.declared.entity_members.EntityMembers.{EntityMembers};
ghost use Rattle.fisca_inputs.specs.declared.given.Given.{Given};
ghost use Rattle.fisca_key_semantics.specs.Chains.{AsksFor, PathFrom};
ghost use Rattle.fisca_model.specs.Groups.{Groups};
ghost use Rattle.fisca_model.specs.Values.{Key};
ghost use Rattle.fisca_params.specs.Tree.{TreeNode};
ghost use Rattle.fisca_api.specs.Members.{AreMembers, AreThere, Follows, HasGroup, IsMember, IsThere};
ghost use Rattle.fisca_rules.specs.Steps.Rules.{rules_of};
ghost use Rattle.fisca_rules.specs.Views.{rule_set};
ghost use Rattle.fisca_rules.specs.declared.rule_set.RuleSet.{RuleSet};
ghost use Rattle.fisca_run_file.specs.Positions.{situation_with};
ghost use Rattle.fisca_run_file.specs.RunFiles.{RunFile, run_file_of};
ghost use Rattle.fisca_simulation.specs.Simulations.{formula_of, sources, worked_out};
ghost use Rattle.fisca_situations.specs.Situations.{Situation};
ghost use Rattle.fisca_situations.specs.Steps.Situations.{situation_of};
ghost use Rattle.fisca_symbols.specs.declared.entity.Entity.{Entity};
ghost use Rattle.fisca_symbols.specs.declared.tables.Tables.{Tables};
ghost use Rattle.fisca_symbols.specs.declared.variable.Variable.{Variable};
ghost use Rattle.fisca_time.specs.Period.{Span};
ghost use Rattle.fisca_typing.specs.Formulas.{Formula};
ghost use Rattle.fisca_yaml.specs.Node.{Node};

/// Law: among the members of an input each person has a group of each kind, which is there, and each person that a group holds is there. The members of a
/// situation that was read are such, and so are those of the situation at each position of a run file.
pub fn persons_have_groups()
    ensures groups { (c : Tables) (ms : List EntityMembers) → AreMembers c ms → (e : ℕ) (x : Entity) → slice_get c.entities e ≡ Some x → x.is_person ≡ false
        → (q : ℕ) (y : Entity) → slice_get c.entities q ≡ Some y → y.is_person ≡ true → (person : ℕ) → IsMember ms q person → HasGroup ms e person }
    ensures persons { (c : Tables) (ms : List EntityMembers) → AreMembers c ms → (e : ℕ) (x : Entity) → slice_get c.entities e ≡ Some x → x.is_person ≡ false
        → (q : ℕ) (y : Entity) → slice_get c.entities q ≡ Some y → y.is_person ≡ true → (group : ℕ)
        → list_all (λ person. nat_lt person (count_at ms q)) (persons_of group (slice_get ms e)) ≡ true }
    ensures situations { (c : Tables) (default : Option Span) (line : ℕ) (n : Node) (s : Situation) → situation_of c default line n ≡ Ok s → AreMembers c s.members }
    ensures positions { (c : Tables) (n : Node) (f : RunFile) → run_file_of c n ≡ Ok f → (moved : List Given) (s : Situation) → situation_with c f moved ≡ Ok s → AreMembers c s.members }
{}

/// Law: where the member of a key is there, so is that of each key that its formula asks for in an accepted rule set, and of each that these ask for, however
/// long the chain: no formula meets a member out of range. Nor does what its formula means depend on which group and role stand for a person that is not
/// there, or that has no group: none is ever looked up.
pub fn members_asked_for_are_there()
    ensures asked { (nodes : List TreeNode) (modules : List (List Statement)) (rules : RuleSet) → rules_of nodes modules ≡ Ok (rule_set rules) → (s : Situation) → AreMembers rules.tables s.members
        → (neutral : List Bool) (k j : Key) → IsThere (rule_set rules) s.members k → AsksFor (sources (record { rules = rule_set rules; situation = s; neutral = neutral })) k j → IsThere (rule_set rules) s.members j }
    ensures chains { (nodes : List TreeNode) (modules : List (List Statement)) (rules : RuleSet) → rules_of nodes modules ≡ Ok (rule_set rules) → (s : Situation) → AreMembers rules.tables s.members
        → (neutral : List Bool) (k : Key) (ks : List Key) → IsThere (rule_set rules) s.members k → PathFrom (sources (record { rules = rule_set rules; situation = s; neutral = neutral })) k ks
        → AreThere (rule_set rules) s.members ks }
    ensures others { (nodes : List TreeNode) (modules : List (List Statement)) (rules : RuleSet) → rules_of nodes modules ≡ Ok (rule_set rules) → (s : Situation) → AreMembers rules.tables s.members
        → (g : Groups) → Follows s.members g → (neutral : List Bool) (k : Key) (x : Variable) → slice_get rules.tables.variables k.variable ≡ Some x → IsMember s.members x.entity k.member
        → (f : Formula) → formula_of (rule_set rules) neutral x k ≡ Some f → worked_out (rule_set rules) g x k f ≡ worked_out (rule_set rules) (grouped s.members) x k f }
{}
