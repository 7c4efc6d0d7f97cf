// Conditions under a filling, plainly: a node is looked up again wherever it is named. Nothing here stands on the libraries.

// A number for each gap.
pub type Numbers = [u64; 64];

// The nodes of a store, five numbers each.
pub fn nodes_of(store: &[u64]) -> &[[u64; 5]] {
    let (nodes, _) = store.get(1..).unwrap_or(&[]).as_chunks::<5>();
    nodes
}

// Whether a node holds under a filling; one that does not stand, or not before the node that names it, never does.
pub fn holds(nodes: &[[u64; 5]], place: u64, numbers: &Numbers) -> bool {
    let Some(node) = nodes.get(place as usize) else {
        return false;
    };
    let earlier = &nodes[..place as usize];
    match node[0] {
        0 => true,
        1 => false,
        2 => are_equal(node, numbers),
        3 => !holds(earlier, node[1], numbers),
        4 => holds(earlier, node[1], numbers) && holds(earlier, node[2], numbers),
        _ => holds(earlier, node[1], numbers) || holds(earlier, node[2], numbers),
    }
}

// Whether the two cells of a comparison have one number.
fn are_equal(node: &[u64; 5], numbers: &Numbers) -> bool {
    let a = number([node[1], node[2]], numbers);
    let b = number([node[3], node[4]], numbers);
    a.is_some() && a == b
}

// The number of a cell; none of a gap past the 64.
pub fn number(cell: [u64; 2], numbers: &Numbers) -> Option<u64> {
    if cell[0] == 0 {
        Some(cell[1])
    } else {
        numbers.get(cell[1] as usize).copied()
    }
}
