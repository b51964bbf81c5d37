//! A heap of fixed shape: the leaf of dispatcher d is node 16 + d, node i stands above the nodes 2 i and 2 i + 1, and node 1 is its top.

ghost use Rattle.std.specs.Prelude.{◌≡◌, ◌==◌, ◌+◌, ◌<◌, length, ℕ, if◌then◌else◌};
ghost use Rattle.dc_ready.specs.Heaps.{is_before, before, winner, node, IsHeap};

/// A ready dispatcher, by its due and its number.
#[derive(Clone, Copy, Debug, PartialEq, Eq)]
pub(crate) struct Candidate {
    pub(crate) due: u64,
    pub(crate) number: u32,
}

/// By (due, number).
fn is_before(a: Candidate, b: Candidate) -> bool
    ensures { result ≡ is_before a b }
{
    a.due < b.due || (a.due == b.due && a.number < b.number)
}

fn before(a: Candidate, b: Option<Candidate>) -> Candidate
    ensures { result ≡ before a b }
{
    match b {
        None => a,
        Some(b) => { if is_before(b, a) { b } else { a } }
    }
}

fn winner(a: Option<Candidate>, b: Option<Candidate>) -> Option<Candidate>
    ensures { result ≡ winner a b }
{
    match a {
        None => b,
        Some(a) => Some(before(a, b)),
    }
}

/// Writes a leaf, and what changes above it.
pub(crate) fn put_leaf(nodes: &mut [Option<Candidate>; 32], d: usize, leaf: Option<Candidate>)
    requires below { d < 16 }
    requires heap { IsHeap nodes.old }
    ensures size { length nodes.new ≡ 32 }
    ensures heap { IsHeap nodes.new }
    ensures leaves { (k : ℕ) → k < 16 → node nodes.new (16 + k) ≡ (if k == d then leaf else node nodes.old (16 + k)) }
{
    let mut at = 16 + d;
    nodes[at] = leaf;
    while at > 1 {
        at /= 2;
        nodes[at] = winner(nodes[2 * at], nodes[2 * at + 1]);
    }
}
