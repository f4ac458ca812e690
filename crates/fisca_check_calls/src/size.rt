//! Heights and counts of nodes, no further than one past the limits.
ghost use Rattle.std.specs.Prelude.{◌≡◌};
ghost use Rattle.fisca_check_calls.specs.Counts.{size as size_of};
ghost use Rattle.fisca_typing.specs.Sizes as spec;

/// How high an expression is and how many nodes it has, each counted to one past its limit at most.
#[derive(Clone, Copy, Debug, PartialEq, Eq)]
pub struct Size {
    /// The height: an atom has 1.
    pub height: u32,
    /// The nodes.
    pub nodes: u32,
}

/// The size of nothing.
pub fn none() -> Size
    ensures { size_of result ≡ spec.none }
{
    Size {
        height: 0,
        nodes: 0,
    }
}

/// The size of an atom.
pub fn one() -> Size
    ensures { size_of result ≡ spec.one }
{
    Size {
        height: 1,
        nodes: 1,
    }
}

/// The size of an expression above another.
pub fn above(inside: Size) -> Size
    ensures { size_of result ≡ spec.capped (spec.above (size_of inside)) }
{
    Size {
        height: inside.height.min(120) + 1,
        nodes: inside.nodes.min(20_000) + 1,
    }
}

/// The size of two expressions side by side.
pub fn beside(first: Size, second: Size) -> Size
    ensures { size_of result ≡ spec.capped (spec.beside (size_of first) (size_of second)) }
{
    let nodes = first.nodes.min(20_001) + second.nodes.min(20_001);
    Size {
        height: first.height.max(second.height).min(121),
        nodes: nodes.min(20_001),
    }
}

/// Whether a size is within the limits: 120 high, 20,000 nodes.
pub fn is_small(size: Size) -> bool
    ensures { result ≡ spec.is_small (size_of size) }
{
    size.height <= 120 && size.nodes <= 20_000
}
