// Writing a number over a gap, on numbers in memory: cell by cell, line by line and list by list; and node by node in a store.
ghost use Rattle.std.specs.Prelude.{◌≡◌, ◌+◌, ◌*◌, ◌<◌, ◌≤◌, true, length, None, slice_index};
ghost use Rattle.condition.specs.Store.{count, has_name};
ghost use Rattle.condition.specs.Shapes.{cell_of, Named};
ghost use Rattle.list.specs.Layout.{line_size, lists_told};
ghost use Rattle.learn.specs.Places.{put_number, over_cell, over_cells, over_lines, over_lists, over_node, OverNodes};

use condition::{Cell, Node, cell_at, nth_node, set_cell, set_node};
use list::{line_size, read_shape};

// In the cell at a place.
fn over_cell(xs: &mut [u64], at: usize, gap: u64, number: u64)
    requires { at + 1 < length xs.old }
    ensures { xs.new ≡ over_cell gap number at xs.old }
{
    if cell_at(xs, at) == Cell::Gap(gap) {
        set_cell(xs, at, Cell::Number(number));
    }
}

// In w cells from a place on.
fn over_cells(xs: &mut [u64], at: usize, w: usize, gap: u64, number: u64)
    requires { at + 2 * w ≤ length xs.old }
    ensures { xs.new ≡ over_cells gap number w at xs.old }
{
    for a in 0..w {
        over_cell(xs, at + 2 * a, gap, number);
    }
}

// In the cells of n lines, w cells wide, from a place on.
pub(crate) fn over_lines(xs: &mut [u64], at: usize, n: usize, w: usize, gap: u64, number: u64)
    requires { at + n * line_size w ≤ length xs.old }
    ensures { xs.new ≡ over_lines gap number n w at xs.old }
{
    let mut next = at;
    for _ in 0..n {
        over_cells(xs, next + 1, w, gap, number);
        next += line_size(w);
    }
}

// In the cells of all lists.
pub(crate) fn over_lists(lists: &mut [u64], gap: u64, number: u64)
    requires { lists_told lists.old ≡ None }
    ensures { lists.new ≡ over_lists gap number (slice_index lists.old 0) 2 lists.old }
{
    let mut at = 2;
    let count = lists[0];
    for _ in 0..count {
        let shape = read_shape(lists, at);
        over_lines(lists, shape.at, shape.lines, shape.width, gap, number);
        at = shape.at + shape.lines * line_size(shape.width);
    }
}

// In the nodes of a store: only those that compare the gap are written.
pub(crate) fn over_nodes(nodes: &mut [u64], gap: u64, number: u64)
    requires { 1 + 5 * count nodes.old ≤ length nodes.old }
    ensures { OverNodes gap number (count nodes.old) nodes.old nodes.new }
{
    let count = nodes[0] as usize;
    for i in 0..count {
        let node = nth_node(nodes, i);
        let over = over_node(node, gap, number);
        if over != node {
            set_node(nodes, i, over);
        }
    }
}

// In the cells of a node.
fn over_node(node: Node, gap: u64, number: u64) -> Node
    ensures is { result ≡ over_node gap number node }
    ensures named { Named node → Named result }
{
    match node {
        Node::Equal(a, b) => Node::Equal(put_number(a, gap, number), put_number(b, gap, number)),
        _ => node,
    }
}

// The cell, or the number where it is the gap.
fn put_number(cell: Cell, gap: u64, number: u64) -> Cell
    ensures is { result ≡ put_number gap number cell }
    ensures named { has_name (cell_of cell) ≡ true → has_name (cell_of result) ≡ true }
{
    if cell == Cell::Gap(gap) {
        Cell::Number(number)
    } else {
        cell
    }
}
