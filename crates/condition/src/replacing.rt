// Cells and nodes in the place of those that stand.
ghost use Rattle.std.specs.Prelude.{◌≡◌, ◌≢◌, ℕ, ◌+◌, ◌*◌, ◌<◌, ◌≤◌, ◌⊎◌, length, slice_index, slice_set};
ghost use Rattle.condition.specs.Store.{count};
ghost use Rattle.condition.specs.Shapes.{Named};
ghost use Rattle.condition.specs.Nodes.{tag, name, decoded};

use crate::adding::write;
use crate::{Cell, Node};

// Writes a cell in the place of the one at i, and nothing else.
pub fn set_cell(xs: &mut [u64], i: usize, cell: Cell)
    requires { i + 1 < length xs.old }
    ensures { xs.new ≡ slice_set (slice_set xs.old i (tag cell)) (i + 1) (name cell) }
{
    let two = <[u64; 2]>::from(cell);
    xs[i] = two[0];
    xs[i + 1] = two[1];
}

// Writes a node in the place of node i of a store, and nothing else.
pub fn set_node(nodes: &mut [u64], i: usize, node: Node)
    requires { 1 + 5 * (i + 1) ≤ length nodes.old }
    ensures count { count nodes.new ≡ count nodes.old }
    ensures read { Named node → decoded nodes.new i ≡ node }
    ensures others { (j : ℕ) → j ≢ i → decoded nodes.new j ≡ decoded nodes.old j }
    ensures rest { (k : ℕ) → (k ≤ 5 * i) ⊎ (1 + 5 * (i + 1) ≤ k) → slice_index nodes.new k ≡ slice_index nodes.old k }
{
    write(&mut nodes[1 + 5 * i..], node);
}
