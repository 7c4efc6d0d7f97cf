// Nodes that stand already.
ghost use Rattle.std.specs.Prelude.{◌≡◌, ℕ, ◌+◌, ◌*◌, ◌<◌, ◌≤◌, true, length, IfSome, Decides, MatchOption};
ghost use Rattle.condition.specs.Store.{count, store_fits, cond_at};
ghost use Rattle.condition.specs.Shapes.{node_of};
ghost use Rattle.condition.specs.Nodes.{behind, StandsAs, Found, Lacks};

use crate::Node;
use crate::reading::nth_node;
use crate::store::store_count;

// The lowest place at which a node stands, behind all that it names; none where there is none, or no store.
// A comparison that names a gap above 63 is never found, since its numbers are read as never.
pub fn find(nodes: &[u64], node: Node) -> Option<u64>
    ensures found { MatchOption result (Lacks nodes.now node) (Found nodes.now node) }
    ensures condition { IfSome result (λ i. cond_at nodes.now i ≡ node_of node (cond_at nodes.now)) }
{
    let count = store_count(nodes).ok()?;
    (0..count).find(|&i| stands_as(nodes, i, node))
}

// Whether a node stands at place i, behind all that it names.
pub fn stands_as(nodes: &[u64], i: u64, node: Node) -> bool
    requires { (i < count nodes.now) × (1 + 5 * count nodes.now ≤ length nodes.now) }
    ensures { Decides result (StandsAs nodes.now i node) }
{
    behind(node, i) && nth_node(nodes, i as usize) == node
}

// Whether all places that a node names lie before i.
fn behind(node: Node, i: u64) -> bool
    ensures { result ≡ behind node i }
{
    match node {
        Node::Always | Node::Never | Node::Equal(_, _) => true,
        Node::Not(a) => a < i,
        Node::Both(a, b) | Node::Either(a, b) => a < i && b < i,
    }
}
