// Nodes of a store, each kept once: found through an index, or added behind those that stand.
//
// An index is a slice of places by hash, each written one higher, and 0 where there is none. It is only a hint: what it holds is checked
// against the store. So any slice may serve; one of zeros, twice as long as the nodes are many, leaves hardly a node standing twice.
ghost use Rattle.std.specs.Prelude.{◌≡◌, ◌+◌, ◌*◌, ◌<◌, ◌≤◌, length, MatchResult};
ghost use Rattle.condition.specs.Store.{count, cond_at};
ghost use Rattle.condition.specs.Shapes.{node_of, Named};
ghost use Rattle.condition.specs.Nodes.{StandsAs};
ghost use Rattle.decide.specs.Folding.{Neat, Room, Built};
ghost use Rattle.decide.specs.Building.{Same, Interned};

use crate::building::Cone;
use condition::{Node, add, nth_node, stands_as};
use std::hash::{BuildHasher, BuildHasherDefault, FoldHasher};

// How many entries of an index are looked at for one node.
const PROBES: usize = 64;

// The place of a node in a store; it is added where the index does not lead to it.
pub fn intern(nodes: &mut [u64], index: &mut [u64], node: Node) -> u64
    requires room { Room nodes.old 1 }
    requires indexed { 0 < length index.old }
    ensures { Interned nodes.old nodes.new node result }
{
    match seek(nodes, index, node) {
        Ok(place) => place,
        Err(slot) => {
            let place = add(nodes, node);
            index[slot] = place + 1;
            place
        }
    }
}

// Has an index lead to the nodes that stand.
pub fn index_all(nodes: &[u64], index: &mut [u64])
    requires whole { 1 + 5 * count nodes.now ≤ length nodes.now }
    requires indexed { 0 < length index.old }
{
    for i in 0..nodes[0] {
        if let Err(slot) = seek(nodes, index, nth_node(nodes, i as usize)) {
            index[slot] = i + 1;
        }
    }
}

// The place of a node that the index leads to; else the entry of the index that is to lead to it.
fn seek(nodes: &[u64], index: &[u64], node: Node) -> Result<u64, usize>
    requires whole { 1 + 5 * count nodes.now ≤ length nodes.now }
    requires indexed { 0 < length index.now }
    ensures { MatchResult result (λ i. StandsAs nodes.now i node) (λ slot. slot < length index.now) }
{
    let hash = BuildHasherDefault::<FoldHasher>::new().hash_one(node);
    let start = hash as usize % index.len();
    for k in 0..PROBES {
        let slot = (start + k) % index.len();
        let Some(place) = index[slot].checked_sub(1) else {
            return Err(slot);
        };
        if place < nodes[0] && stands_as(nodes, place, node) {
            return Ok(place);
        }
    }
    Err(start)
}

impl Cone<'_, '_> {
    // The place of a node; it is added where the index does not lead to it.
    pub fn intern(&mut self, node: Node) -> u64
        requires neat { Neat (count self.old.nodes.now) node }
        requires named { Named node }
        requires room { Room self.old.nodes.now 1 }
        ensures same { Same self.old self.new }
        ensures built { Built self.old.nodes.now self.new.nodes.now node result }
        ensures says { cond_at self.new.nodes.now result ≡ node_of node (cond_at self.old.nodes.now) }
    {
        intern(self.nodes, self.index, node)
    }
}
