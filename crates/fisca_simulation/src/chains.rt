//! Chains of keys, each of which asks for the next.

ghost use Rattle.std.specs.Prelude.{◌≡◌, ◌==◌, ◌&&◌, ◌++◌, ◌∷◌, [], IsTrue, Some, map, option_map};
ghost use Rattle.fisca_key_semantics.specs.Answers as answers;
ghost use Rattle.fisca_key_semantics.specs.Keys as keys_spec;
ghost use Rattle.fisca_key_semantics.specs.Stacks.{first_of as first_key};
ghost use Rattle.fisca_model.specs.EvalFaults.{told};
ghost use Rattle.fisca_model.specs.Seen.{key_seen};
ghost use Rattle.fisca_time.specs.Period.{is_period};

use fisca_model::{EvalFault, Key};

/// The period of a key lies in the calendar, as each period does.
#[inline(always)]
pub fn keys_lie_in_the_calendar(key: &Key)
    ensures { IsTrue (is_period key.now.period) }
{
    // a period says so with its unit: no lemma can, since what each period keeps of itself is known where periods are made
    let _unit = key.period.unit();
}

/// Whether two keys are of the same variable and member.
fn is_same_owner(left: &Key, right: &Key) -> bool
    ensures { result ≡ ((left.now.variable == right.now.variable) && (left.now.member == right.now.member)) }
{
    left.variable == right.variable && left.member == right.member
}

/// Whether two keys are the same. Their periods are looked at first: keys of one variable and member often stand below one another.
#[inline(always)]
pub fn is_same_key(left: &Key, right: &Key) -> bool
    ensures { result ≡ keys_spec.same_key (key_seen left.now) (key_seen right.now) }
{
    keys_lie_in_the_calendar(left);
    keys_lie_in_the_calendar(right);
    left.period == right.period && is_same_owner(left, right)
}

/// Whether the key stands in a chain of these, each of which asks for the next. This project's own rule.
pub fn stands_in(keys: &[Key], key: &Key) -> bool
    ensures { result ≡ keys_spec.has (map key_seen keys.now) (key_seen key.now) }
{
    for one in keys {
        if is_same_key(one, key) {
            return true;
        }
    }
    false
}

/// Whether the key stands among these or is the last one behind them.
#[tactic(auto, using(fisca_key_semantics::proofs::KeyFacts::has_behind))]
fn stands_behind(keys: &[Key], last: &Key, key: &Key) -> bool
    ensures { result ≡ keys_spec.has (map key_seen keys.now ++ key_seen last.now ∷ []) (key_seen key.now) }
{
    if stands_in(keys, key) {
        return true;
    }
    is_same_key(last, key)
}

/// The first key that stands again further on, in a chain of these and a last one.
fn first_again(keys: &[Key], last: &Key) -> Option<Key>
    ensures { option_map key_seen result ≡ answers.first_again (map key_seen keys.now ++ key_seen last.now ∷ []) }
{
    match keys {
        [] => None,
        [first, behind @ ..] => {
            if stands_behind(behind, last, first) {
                Some(*first)
            } else {
                first_again(behind, last)
            }
        }
    }
}

/// The key that was asked for first, in a chain of these and a last one.
pub fn first_of_chain(keys: &[Key], key: &Key) -> Key
    ensures { key_seen result ≡ first_key (map key_seen keys.now) (key_seen key.now) }
{
    match keys {
        [] => *key,
        [first, ..] => *first,
    }
}

/// What it means that the key is asked for below a hundred others: `Cycle` with the first key that stands again in the chain, else `TooDeep`
/// with the first.
pub(crate) fn too_long(keys: &[Key], key: &Key) -> EvalFault
    ensures { told result ≡ Some (answers.verdict (first_key (map key_seen keys.now) (key_seen key.now)) (map key_seen keys.now ++ key_seen key.now ∷ [])) }
{
    match first_again(keys, key) {
        Some(again) => EvalFault::Cycle(again),
        None => EvalFault::TooDeep(first_of_chain(keys, key)),
    }
}
