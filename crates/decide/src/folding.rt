// Marked nodes of a store copied into a cone, so that every copied condition holds under the same fillings.
ghost use Rattle.std.specs.Prelude.{◌≡◌, ℕ, ◌+◌, ◌*◌, ◌<◌, ◌≤◌, false, length, slice_index, slice_index_or};
ghost use Rattle.condition.specs.Store.{count};
ghost use Rattle.decide.specs.Building.{Same};
ghost use Rattle.decide.specs.Counting.{counted};
ghost use Rattle.decide.specs.Folding.{Room, place_in, renamed, Folds};
ghost use Rattle.decide.specs.Reaching.{marked, Closed};

use crate::building::Cone;
use crate::marked::Marked;
use crate::simplifying::NEVER;
use condition::Node;

impl Cone<'_, '_> {
    // Copies each marked one of the first n nodes of a store, and writes down its place in the cone.
    pub fn fold(&mut self, nodes: &[u64], n: u64, marks: &[bool], places: &mut [u64])
        requires stand { (n ≤ count nodes.now) × (1 + 5 * n ≤ length nodes.now) }
        requires marks { n ≤ length marks.now }
        requires closed { Closed nodes.now n marks.now }
        requires places { n ≤ length places.old }
        requires room { Room self.old.nodes.now (counted n (marked marks.now)) }
        ensures same { Same self.old self.new }
        ensures folds { Folds nodes.now n marks.now self.old.nodes.now self.new.nodes.now places.new }
        ensures unmarked { (i : ℕ) → slice_index_or marks.now i false ≡ false → slice_index places.new i ≡ slice_index places.old i }
        ensures past { (i : ℕ) → n ≤ i → slice_index places.new i ≡ slice_index places.old i }
    {
        let marked = Marked {
            nodes,
            n: n as usize,
            marks,
        };
        for i in marked.places() {
            places[i] = self.build(renamed(marked.node(i), places, i));
        }
    }
}

// Node i over the cone's places of the nodes that it names.
pub fn renamed(node: Node, places: &[u64], i: usize) -> Node
    requires { i ≤ length places.now }
    ensures { result ≡ renamed (place_in i places.now) node }
{
    match node {
        Node::Always => Node::Always,
        Node::Never => Node::Never,
        Node::Equal(a, b) => Node::Equal(a, b),
        Node::Not(a) => Node::Not(place_in(places, i, a)),
        Node::Both(a, b) => Node::Both(place_in(places, i, a), place_in(places, i, b)),
        Node::Either(a, b) => Node::Either(place_in(places, i, a), place_in(places, i, b)),
    }
}

// The cone's place of an earlier node than i; that of never for others.
fn place_in(places: &[u64], i: usize, j: u64) -> u64
    requires { i ≤ length places.now }
    ensures { result ≡ place_in i places.now j }
{
    if j < i as u64 {
        places[j as usize]
    } else {
        NEVER
    }
}
