// Lines under never left out of an answer.
ghost use Rattle.std.specs.Prelude.{◌≡◌, ℕ, ◌+◌, ◌*◌, ◌<◌, ◌≤◌, true, length, slice_index};
ghost use Rattle.condition.specs.Store.{count, cond_at};
ghost use Rattle.list.specs.Layout.{line_size, lines_named};
ghost use Rattle.learn.specs.Dropping.{is_never, Dropped, Moved};

use condition::{Node, nth_node};
use list::line_size;

// Of the n lines at the front of an answer, w cells wide, moves those that are not under never up to the front, in order, and tells how many
// they are.
pub(crate) fn drop_never(nodes: &[u64], answer: &mut [u64], n: usize, w: usize) -> usize
    requires store { 1 + 5 * count nodes.now ≤ length nodes.now }
    requires whole { n * line_size w ≤ length answer.old }
    requires named { lines_named (count nodes.now) n w answer.old ≡ true }
    ensures { Dropped nodes.now n w answer.old result answer.new }
{
    let mut kept = 0;
    for i in 0..n {
        let size = line_size(w);
        if !is_never(nodes, answer[i * size]) {
            move_down(answer, i * size, kept * size, size);
            kept += 1;
        }
    }
    kept
}

// Whether the condition of a node that stands is never.
fn is_never(nodes: &[u64], node: u64) -> bool
    requires { (node < count nodes.now) × (1 + 5 * count nodes.now ≤ length nodes.now) }
    ensures { result ≡ is_never (cond_at nodes.now node) }
{
    match nth_node(nodes, node as usize) {
        Node::Never => true,
        _ => false,
    }
}

// Moves so many numbers from one place down to another.
fn move_down(numbers: &mut [u64], from: usize, to: usize, size: usize)
    requires { (to ≤ from) × (from + size ≤ length numbers.old) }
    ensures { Moved from to size numbers.old numbers.new }
{
    for t in 0..size {
        numbers[to + t] = numbers[from + t];
    }
}
