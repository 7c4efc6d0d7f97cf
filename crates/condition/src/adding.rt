// Nodes added behind those that stand.
ghost use Rattle.std.specs.Prelude.{◌≡◌, ℕ, ◌+◌, ◌*◌, ◌<◌, ◌≤◌, true, length, IfOk, OnErr, OnOk, slice_index};
ghost use Rattle.condition.specs.Store.{count, store_fits, store_told, room_told, cond_at, Grown};
ghost use Rattle.condition.specs.Shapes.{node_of};
ghost use Rattle.condition.specs.Nodes.{two, five, Added};
ghost use Rattle.condition.specs.Refusals.{outcome, first};

use crate::store::room;
use crate::{Cell, Node, Refusal};

// Adds a node behind those that stand, where there is room, and gives its place.
pub fn add(nodes: &mut [u64], node: Node) -> u64
    requires { 6 + 5 * count nodes.old ≤ length nodes.old }
    ensures place { result ≡ count nodes.old }
    ensures count { count nodes.new ≡ result + 1 }
    ensures numbers { (k : ℕ) → k < 5 → slice_index nodes.new (1 + 5 * result + k) ≡ slice_index (five node) k }
    ensures grown { Grown nodes.old nodes.new }
    ensures stays { (j : ℕ) → j < result → cond_at nodes.new j ≡ cond_at nodes.old j }
    ensures new { cond_at nodes.new result ≡ node_of node (cond_at nodes.old) }
{
    let count = nodes[0];
    write(&mut nodes[1 + 5 * count as usize..], node);
    nodes[0] = count + 1;
    count
}

// Adds a node behind those that stand, and gives its place; where it refuses, nothing has changed.
pub fn append(nodes: &mut [u64], node: Node) -> Result<u64, Refusal>
    ensures refusal { outcome result ≡ first (store_told nodes.old) (room_told nodes.old 1) }
    ensures kept { OnErr result (nodes.new ≡ nodes.old) }
    ensures added { IfOk result (Added nodes.old nodes.new node) }
    ensures store { OnOk result (store_fits nodes.new ≡ true) }
{
    let room = room(nodes)?;
    if room == 0 {
        return Err(Refusal::StoreFull(0));
    }
    Ok(add(nodes, node))
}

// Writes a node at the front of a part of the store, and nothing behind it.
pub(crate) fn write(front: &mut [u64], node: Node)
    requires { 5 ≤ length front.old }
    ensures new { (k : ℕ) → k < 5 → slice_index front.new k ≡ slice_index (five node) k }
    ensures past { (k : ℕ) → 5 ≤ k → slice_index front.new k ≡ slice_index front.old k }
{
    front[..5].copy_from_slice(&<[u64; 5]>::from(node));
}

// A cell as two numbers.
impl From<Cell> for [u64; 2] {
    ghost from_gives = { λ c r. r ≡ two c };

    fn from(cell: Cell) -> [u64; 2] {
        match cell {
            Cell::Number(n) => [0, n],
            Cell::Gap(name) => [1, name],
        }
    }
}

// A node as five numbers.
impl From<Node> for [u64; 5] {
    ghost from_gives = { λ n r. r ≡ five n };

    fn from(node: Node) -> [u64; 5] {
        match node {
            Node::Always => [0, 0, 0, 0, 0],
            Node::Never => [1, 0, 0, 0, 0],
            Node::Equal(a, b) => {
                let a = <[u64; 2]>::from(a);
                let b = <[u64; 2]>::from(b);
                [2, a[0], a[1], b[0], b[1]]
            }
            Node::Not(a) => [3, a, 0, 0, 0],
            Node::Both(a, b) => [4, a, b, 0, 0],
            Node::Either(a, b) => [5, a, b, 0, 0],
        }
    }
}
