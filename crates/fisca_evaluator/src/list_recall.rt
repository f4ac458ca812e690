//! A memory in a list.

ghost use Rattle.std.specs.Prelude.{◌≡◌, ◌<◌, Some, None, OnOk, OnErr, filter, not, if◌then◌else◌};
ghost use Rattle.std.proofs.Props.{props};
ghost use Rattle.std.specs.Map.{lookup};
ghost use Rattle.fisca_memo_theory.specs.Reads.{reads_wheel};
ghost use Rattle.fisca_inputs.specs.Entries.{same_key};
ghost use Rattle.fisca_model.specs.declared.key.Key as declared;
ghost use Rattle.fisca_model.specs.Values as meaning;
ghost use Rattle.fisca_inputs.specs.Places.{AreOnce};
ghost use Rattle.fisca_evaluator.specs.Found.{found, place_from, unless};

use crate::known::Known;
use crate::recall::Recall;
use crate::wheels::has_wheel;
use fisca_model::Key;
use fisca_simulation::keys_lie_in_the_calendar;
use std::alloc::{AllocError, Global};

/// A list of keys, each once, with what is remembered of them. A look-up goes over it from the front.
#[derive(Drop)]
pub struct ListRecall {
    pairs: Vec<(Key, Known)>,
    ghost once: { AreOnce pairs.items } by { Prim.hlevel props },
}

impl ListRecall {
    /// Nothing is remembered.
    pub fn new(alloc: Global) -> ListRecall
        ensures { (k : meaning.Key) → found result.pairs.items k ≡ None }
    {
        ListRecall {
            pairs: Vec::new(alloc),
        }
    }
}

/// What stands beside the first pair of the key.
fn look_up(pairs: &[(Key, Known)], key: &Key) -> Option<Known>
    ensures { result ≡ lookup (same_key key.now) pairs.now }
{
    for pair in pairs {
        if *key == pair.0 {
            return Some(pair.1);
        }
    }
    None
}

/// The place of the first pair of the key.
fn place_of(pairs: &[(Key, Known)], key: &Key) -> Option<usize>
    ensures { result ≡ place_from 0 key.now pairs.now }
{
    for (place, pair) in pairs.iter().enumerate() {
        if *key == pair.0 {
            return Some(place);
        }
    }
    None
}

/// Puts this beside the key: in its pair, or in a new one behind the others.
fn put(pairs: &mut Vec<(Key, Known)>, key: Key, known: Known) -> Result<(), AllocError>
    requires { AreOnce pairs.old.items }
    ensures ok { OnOk result ((k : declared.Key) → lookup (same_key k) pairs.new.items ≡ (if same_key k key then Some known else lookup (same_key k) pairs.old.items)) }
    ensures err { OnErr result (pairs.new.items ≡ pairs.old.items) }
    ensures once { AreOnce pairs.new.items }
{
    match place_of(pairs.as_slice(), &key) {
        Some(place) => {
            pairs[place] = (key, known);
            Ok(())
        }
        None => {
            pairs.push((key, known))?;
            Ok(())
        }
    }
}

/// Takes out what reads the wheel.
fn take_out(pairs: &mut Vec<(Key, Known)>, wheel: u32)
    requires wheel { wheel < 16 }
    requires once { AreOnce pairs.old.items }
    ensures filtered { pairs.new.items ≡ filter (λ p. not (reads_wheel p.1.reads wheel)) pairs.old.items }
    ensures left { (k : declared.Key) → lookup (same_key k) pairs.new.items ≡ unless (λ known. reads_wheel known.reads wheel) (lookup (same_key k) pairs.old.items) }
    ensures once { AreOnce pairs.new.items }
{
    pairs.retain(
        |pair: &(Key, Known)| -> bool
            requires { wheel < 16 }
            ensures { result ≡ not (reads_wheel pair.now.1.reads wheel) }
        { !has_wheel(pair.1.reads, wheel) },
    );
}

impl Recall for ListRecall {
    ghost use Rattle.fisca_evaluator.specs.Found.{found};

    ghost find = { λ s. found s.pairs.items };

    fn look(&self, key: &Key) -> Option<Known> {
        keys_lie_in_the_calendar(key);
        look_up(self.pairs.as_slice(), key)
    }

    fn keep(&mut self, key: Key, known: Known) -> Result<(), AllocError> {
        keys_lie_in_the_calendar(&key);
        put(&mut self.pairs, key, known)
    }

    fn drop_moved(&mut self, wheel: u32) {
        take_out(&mut self.pairs, wheel);
    }
}
