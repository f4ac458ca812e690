//! Sets of wheels, as the bits of a word. A wheel is a group of axes that turn together.

ghost use Rattle.std.specs.Prelude.{◌≡◌, ◌<◌};
ghost use Rattle.fisca_memo_theory.specs.Reads.{reads_wheel};
ghost use Rattle.fisca_evaluator.specs.Stamps.{fresh};

/// Whether the set has the wheel.
pub(crate) fn has_wheel(wheels: u16, wheel: u32) -> bool
    requires { wheel < 16 }
    ensures { result ≡ reads_wheel wheels wheel }
{
    (wheels >> wheel) % 2 == 1
}

/// Whether no wheel of the set turned later than that.
#[tactic(auto, using(crate::proofs::Wheel::fresh_none))]
pub(crate) fn is_fresh(turned_at: &[u64], wheels: u16, since: u64) -> bool
    ensures { result ≡ fresh turned_at.now wheels since }
{
    if wheels == 0 {
        return true;
    }
    match turned_at {
        [] => true,
        [first, rest @ ..] => {
            (wheels % 2 == 0 || *first <= since) && is_fresh(rest, wheels / 2, since)
        }
    }
}
