//! What children are looked for: by which they are found again.
ghost use Rattle.std.specs.Prelude.{◌≡◌, ◌∷◌};

use fisca_params::NodeId;
use std::hash::{Hash, Hasher};
use std::marker::Model;
use std::rc::Rc;

/// An Enum, and the nodes whose children its members lead to, seen as a list with the place of the Enum first.
#[derive(Drop)]
pub(crate) struct Looked {
    choices: usize,
    places: Rc<Vec<NodeId>>,
}

impl Model for Looked {
    ghost use Rattle.std.specs.Prelude.{ℕ, List, ◌∷◌};

    ghost Value = { List ℕ };

    ghost view = { λ l. l.choices ∷ l.places.value.items };
}

impl Looked {
    /// The children of these nodes by the members of this Enum.
    pub(crate) fn new(choices: usize, places: Rc<Vec<NodeId>>) -> Looked
        ensures { result ≡ choices ∷ places.value.items }
    {
        Looked { choices, places }
    }
}

impl PartialEq for Looked {
    ghost use Rattle.std.specs.Cmp.{partial_equiv_from_equiv};
    ghost use Rattle.std.specs.Cmp.Lexicographic.{nat_list_eq_equiv};
    ghost use Rattle.std.specs.Str.{bytes_eq};

    ghost eq = { bytes_eq };

    ghost laws = { partial_equiv_from_equiv nat_list_eq_equiv };

    fn eq(&self, other: &Self) -> bool {
        self.choices == other.choices && self.places.as_slice() == other.places.as_slice()
    }
}

impl Eq for Looked {
    ghost use Rattle.std.specs.Cmp.Lexicographic.{nat_list_eq_equiv};

    ghost laws = { nat_list_eq_equiv };
}

impl Hash for Looked {
    ghost use Rattle.std.proofs.Common.{ap};
    ghost use Rattle.std.specs.Cmp.Lexicographic.{bytes_decides};
    ghost use Rattle.fisca_check.specs.Rows.{looked_fed};

    ghost hash_input = { looked_fed };

    ghost respects_eq = { λ a b h. ap looked_fed ((bytes_decides a b).0 h) };

    fn hash<H: Hasher>(&self, state: &mut H) {
        self.choices.hash(state);
        self.places.as_slice().hash(state);
    }
}
