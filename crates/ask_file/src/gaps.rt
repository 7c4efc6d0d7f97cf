// The gaps that a file names.
use condition::{Cell, Node, cell_at, node_at};

// A mark for each gap that the lists or the conditions name.
pub fn named_gaps(lists: &[u64], nodes: &[u64]) -> [bool; 64] {
    let mut named = [false; 64];
    let count = lists.first().copied().unwrap_or(0);
    let mut at = 2;
    for _ in 0..count {
        at = mark_list(lists, at, &mut named);
    }
    mark_nodes(nodes, &mut named);
    named
}

// The cells of the list that stands at a place; the place behind it.
fn mark_list(lists: &[u64], at: usize, named: &mut [bool; 64]) -> usize {
    let Some([lines, columns, rest @ ..]) = lists.get(at..) else {
        return at;
    };
    let size = (*columns as usize).saturating_mul(2).saturating_add(1);
    for line in rest.chunks_exact(size).take(*lines as usize) {
        let (_, cells) = line.split_at(1);
        mark_cells(cells, named);
    }
    at.saturating_add(2)
        .saturating_add(size.saturating_mul(*lines as usize))
}

fn mark_cells(cells: &[u64], named: &mut [bool; 64]) {
    for cell in cells.chunks_exact(2) {
        mark(cell_at(cell, 0), named);
    }
}

// The cells that the nodes of a store compare.
fn mark_nodes(store: &[u64], named: &mut [bool; 64]) {
    let nodes = store.get(1..).unwrap_or(&[]);
    for node in nodes.chunks_exact(5) {
        if let Node::Equal(a, b) = node_at(node, 0) {
            mark(a, named);
            mark(b, named);
        }
    }
}

fn mark(cell: Cell, named: &mut [bool; 64]) {
    if let Cell::Gap(gap) = cell {
        if let Some(mark) = named.get_mut(gap as usize) {
            *mark = true;
        }
    }
}
