// The nodes that conditions reach, marked.
ghost use Rattle.std.specs.Prelude.{◌≡◌, ℕ, ◌+◌, ◌*◌, ◌≤◌, true, ◌&&◌, ◌||◌, List, length, ◌==◌, nat_lt};
ghost use Rattle.condition.specs.Cond.{has};
ghost use Rattle.condition.specs.Store.{count};
ghost use Rattle.decide.specs.Reaching.{places_of, marked, reached, Closed, AllCovered};

use condition::{Node, nth_node};

// Marks all that the marked ones of the first n nodes reach: of the first n nodes, what a marked one names is marked.
pub fn close(nodes: &[u64], n: usize, marks: &mut [bool])
    requires stands { (n ≤ count nodes.now) × (1 + 5 * n ≤ length nodes.now) }
    requires fits { n ≤ length marks.old }
    ensures closed { Closed nodes.now n marks.new }
    ensures kept { (i : ℕ) → marked marks.old i ≡ true → marked marks.new i ≡ true }
    ensures exact { (j : ℕ) → marked marks.new j ≡ reached nodes.now n (marked marks.old) j }
    ensures reached { (ns gs : List ℕ) → AllCovered ns gs nodes.now n marks.old → AllCovered ns gs nodes.now n marks.new }
{
    for i in (0..n).rev() {
        if marks[i] {
            mark_named(nth_node(nodes, i), i, marks);
        }
    }
}

// Marks the places before i that a node names.
fn mark_named(node: Node, i: usize, marks: &mut [bool])
    requires { i ≤ length marks.old }
    ensures { (j : ℕ) → marked marks.new j ≡ (marked marks.old j || (nat_lt j i && has (places_of node) j)) }
{
    match node {
        Node::Always | Node::Never | Node::Equal(_, _) => {}
        Node::Not(a) => mark(a, i, marks),
        Node::Both(a, b) | Node::Either(a, b) => {
            mark(a, i, marks);
            mark(b, i, marks);
        }
    }
}

// Marks a place before i.
fn mark(place: u64, i: usize, marks: &mut [bool])
    requires { i ≤ length marks.old }
    ensures { (j : ℕ) → marked marks.new j ≡ (marked marks.old j || (nat_lt j i && place == j)) }
{
    if place < i as u64 {
        marks[place as usize] = true;
    }
}
