// Numbers turned into cells and nodes.
ghost use Rattle.std.specs.Prelude.{◌≡◌, ℕ, ◌+◌, ◌*◌, ◌<◌, ◌≤◌, length, slice_index};
ghost use Rattle.condition.specs.Cond.{Cond};
ghost use Rattle.condition.specs.Store.{count, cell_in, has_name, comparison, node};
ghost use Rattle.condition.specs.Shapes.{cell_of, node_of, Named};
ghost use Rattle.condition.specs.Nodes.{compared, node_from, decoded};

use crate::{Cell, Node};

// The cell that the two numbers at i stand for.
pub fn cell_at(xs: &[u64], i: usize) -> Cell
    requires { i + 1 < length xs.now }
    ensures { cell_of result ≡ cell_in (slice_index xs.now i) (slice_index xs.now (i + 1)) }
{
    if xs[i] == 0 {
        Cell::Number(xs[i + 1])
    } else {
        Cell::Gap(xs[i + 1])
    }
}

// Whether a cell is a number or one of the 64 gaps.
fn has_name(cell: Cell) -> bool
    ensures { result ≡ has_name (cell_of cell) }
{
    match cell {
        Cell::Number(_) => true,
        Cell::Gap(k) => k < 64,
    }
}

// That two cells are equal; never where one is no gap of the 64.
fn comparison(a: Cell, b: Cell) -> Node
    ensures is { (go : ℕ → Cond) → node_of result go ≡ comparison (cell_of a) (cell_of b) }
    ensures named { Named result }
    ensures read { result ≡ compared a b }
{
    if has_name(a) && has_name(b) {
        Node::Equal(a, b)
    } else {
        Node::Never
    }
}

// The node that the five numbers at i stand for.
pub fn node_at(xs: &[u64], i: usize) -> Node
    requires { i + 4 < length xs.now }
    ensures is { (go : ℕ → Cond) → node_of result go ≡ node (slice_index xs.now i) (slice_index xs.now (i + 1)) (slice_index xs.now (i + 2)) (slice_index xs.now (i + 3)) (slice_index xs.now (i + 4)) go }
    ensures named { Named result }
    ensures read { result ≡ node_from (slice_index xs.now i) (slice_index xs.now (i + 1)) (slice_index xs.now (i + 2)) (slice_index xs.now (i + 3)) (slice_index xs.now (i + 4)) }
{
    match xs[i] {
        0 => Node::Always,
        1 => Node::Never,
        2 => comparison(cell_at(xs, i + 1), cell_at(xs, i + 3)),
        3 => Node::Not(xs[i + 1]),
        4 => Node::Both(xs[i + 1], xs[i + 2]),
        _ => Node::Either(xs[i + 1], xs[i + 2]),
    }
}

// Node i of a store.
pub fn nth_node(nodes: &[u64], i: usize) -> Node
    requires stands { i < count nodes.now }
    requires whole { 1 + 5 * (i + 1) ≤ length nodes.now }
    ensures read { result ≡ decoded nodes.now i }
    ensures named { Named result }
{
    node_at(nodes, 1 + 5 * i)
}
