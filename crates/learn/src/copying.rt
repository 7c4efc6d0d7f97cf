// Conditions of a cone copied behind the nodes of a store.
ghost use Rattle.std.specs.Prelude.{◌≡◌, ℕ, ◌+◌, ◌*◌, ◌<◌, ◌≤◌, true, length};
ghost use Rattle.condition.specs.Store.{count};
ghost use Rattle.condition.specs.Nodes.{behind, decoded};
ghost use Rattle.decide.specs.Counting.{counted};
ghost use Rattle.decide.specs.Folding.{Room};
ghost use Rattle.decide.specs.Reaching.{marked, Closed};
ghost use Rattle.learn.specs.Copying.{sorted, Copies};

use condition::{Node, nth_node};
use decide::{intern, renamed};

// Copies each marked one of the first n nodes of a cone, and writes down its place in the store; a node to which the index leads is not
// added again.
pub(crate) fn copy(
    cone: &[u64],
    n: usize,
    marks: &[bool],
    nodes: &mut [u64],
    index: &mut [u64],
    places: &mut [u64],
)
    requires cone { (n ≤ count cone.now) × (1 + 5 * n ≤ length cone.now) }
    requires marks { n ≤ length marks.now }
    requires places { n ≤ length places.old }
    requires closed { Closed cone.now n marks.now }
    requires behind { (i : ℕ) → i < n → behind (decoded cone.now i) i ≡ true }
    requires room { Room nodes.old (counted n (marked marks.now)) }
    requires indexed { 0 < length index.old }
    ensures { Copies cone.now n marks.now nodes.old nodes.new places.new }
{
    for i in 0..n {
        if marks[i] {
            let node = sorted(renamed(nth_node(cone, i), places, i));
            places[i] = intern(nodes, index, node);
        }
    }
}

// A node, the smaller place first where it joins two conditions: so what is tidy already is found as it stands.
fn sorted(node: Node) -> Node
    ensures { result ≡ sorted node }
{
    match node {
        Node::Both(a, b) => Node::Both(a.min(b), a.max(b)),
        Node::Either(a, b) => Node::Either(a.min(b), a.max(b)),
        _ => node,
    }
}
