//! Inputs in the order of a file, while they are read.

ghost use Rattle.std.specs.Prelude.{◌≡◌, [], ◌∷◌, ◌++◌, ◌||◌, ◌≤◌, false, length, not, IfOk, OnOk};
ghost use Rattle.std.specs.List.{list_any};
ghost use Rattle.indexmap.specs.IndexSet.{contains};
ghost use Rattle.fisca_inputs.specs.Entries.{same_key};
ghost use Rattle.fisca_inputs.specs.Inputs.{and_given, key_given};
ghost use Rattle.fisca_inputs.specs.Outcomes.{Tells};
ghost use Rattle.fisca_inputs.specs.declared.given.Given as declared_given;
ghost use Rattle.fisca_model.specs.declared.key.Key as declared;
ghost use Rattle.fisca_situations.specs.GivenKeys.{HasKeys, is_key_of};

use fisca_inputs::{Given, KeyHasher, SituationFault, SituationKind};
use fisca_model::Key;
use indexmap::IndexSet;
use std::alloc::{AllocError, Global};
use std::hash::BuildHasherDefault;
use std::marker::Model;

/// Keys, each once.
type Keys = IndexSet<Key, BuildHasherDefault<KeyHasher>>;

/// So many inputs are looked through one by one, which costs less than a table where there are few.
const FEW: usize = 8;

/// Inputs in the order of a file, seen as a list. No two are of one variable, member and period: where there are more than a few, a table has
/// the keys of all.
#[derive(Drop)]
pub struct GivenInputs {
    items: Vec<Given>,
    keys: Keys,
}

impl Model for GivenInputs {
    ghost use Rattle.std.specs.Prelude.{List};
    ghost use Rattle.indexmap.specs.IndexSet.{contains};
    ghost use Rattle.fisca_inputs.specs.Entries.{same_key};
    ghost use Rattle.fisca_inputs.specs.declared.given.Given.{Given};
    ghost use Rattle.fisca_situations.specs.GivenKeys.{HasKeys};

    ghost Value = { List Given };

    ghost view = { λ g. g.items.items };

    ghost invariant = { λ g. HasKeys (contains same_key g.keys) g.items.items };
}

/// What a given input is of.
fn key_of(given: &Given) -> Key
    ensures { result ≡ key_given given.now }
{
    Key {
        variable: given.variable,
        member: given.member,
        period: given.period,
    }
}

/// Whether one of these inputs is of this key.
fn is_given(items: &[Given], key: &Key) -> bool
    ensures { result ≡ list_any (λ g. same_key key.now (key_given g)) items.now }
{
    items.iter().any(|given| *key == key_of(given))
}

/// Notes one key more, and says whether it is new.
fn note(keys: &mut Keys, key: Key) -> Result<bool, AllocError>
    ensures told { IfOk result (λ is_new. is_new ≡ not (contains same_key keys.old key)) }
    ensures noted { OnOk result ((k : declared.Key) → contains same_key keys.new k ≡ (same_key key k || contains same_key keys.old k)) }
{
    Ok(keys.insert(key)?)
}

/// Notes the keys of inputs in a table that has none.
fn note_all(keys: &mut Keys, items: &[Given]) -> Result<(), AllocError>
    requires { (k : declared.Key) → contains same_key keys.old k ≡ false }
    ensures { OnOk result ((k : declared.Key) → contains same_key keys.new k ≡ is_key_of items.now k) }
{
    for given in items {
        let _is_new = note(keys, key_of(given))?;
    }
    Ok(())
}

/// Fills the table where inputs come to be more than a few.
fn fill(keys: &mut Keys, items: &[Given]) -> Result<(), AllocError>
    requires many { 8 ≤ length items.now }
    requires keys { HasKeys (contains same_key keys.old) items.now }
    ensures { OnOk result ((k : declared.Key) → contains same_key keys.new k ≡ is_key_of items.now k) }
{
    if items.len() == FEW {
        return note_all(keys, items);
    }
    Ok(())
}

/// Notes the key of one input more behind these, and says whether none of them is of it.
fn note_behind(keys: &mut Keys, items: &[Given], key: Key) -> Result<bool, AllocError>
    requires { HasKeys (contains same_key keys.old) items.now }
    ensures told { IfOk result (λ is_new. is_new ≡ not (list_any (λ g. same_key key (key_given g)) items.now)) }
    ensures noted { OnOk result ((given : declared_given.Given) → key_given given ≡ key → HasKeys (contains same_key keys.new) (items.now ++ given ∷ [])) }
{
    if items.len() < FEW {
        return Ok(!is_given(items, &key));
    }
    fill(keys, items)?;
    note(keys, key)
}

impl GivenInputs {
    /// None.
    pub fn new(alloc: Global) -> GivenInputs
        ensures { result ≡ [] }
    {
        GivenInputs {
            items: Vec::new(alloc),
            keys: Keys::with_hasher(alloc, BuildHasherDefault::new()),
        }
    }

    /// One more. `InconsistentInput` at its line where there is one of this variable, member and period already, and `Memory` at
    /// line 0 where a growth was refused.
    pub fn with(self, given: Given) -> Result<GivenInputs, SituationFault>
        ensures { Tells (λ g. g) (and_given self given) result }
    {
        let GivenInputs {
            mut items,
            mut keys,
        } = self;
        if !note_behind(&mut keys, items.as_slice(), key_of(&given))? {
            return Err(SituationFault {
                line: given.line,
                kind: SituationKind::InconsistentInput,
            });
        }
        items.push(given)?;
        Ok(GivenInputs { items, keys })
    }

    /// The inputs in order.
    pub fn as_slice(&self) -> &[Given]
        ensures { result.now ≡ self.now }
    {
        self.items.as_slice()
    }
}
