// What conditions come to, in one sense or another: whether they hold under a filling, or what is left of them; worked out for all
// nodes of a store in one pass.
ghost use Rattle.std.specs.Prelude.{◌≡◌, ℕ, ◌+◌, ◌*◌, ◌<◌, ◌≤◌, cond as if, true, length, slice_index_or};
ghost use Rattle.condition.specs.Cond.{Cond, always, never, equal, not_so, both, either};
ghost use Rattle.condition.specs.Store.{count, has_name, earlier};
ghost use Rattle.condition.specs.Shapes.{cell_of, node_of, Named};
ghost use Rattle.evaluate.specs.Senses.{ComeTo};

use condition::{Cell, Node, nth_node};

// A sense in which conditions are taken: what each comes to follows from what its parts come to.
pub trait Sense {
    // What a condition comes to.
    type Value: Copy;

    // The value is what the condition comes to.
    ghost means: { Self → Self.Value → Cond → Type 0 };

    // What a condition that always holds comes to, or one that never does.
    fn constant(&self, holds: bool) -> Self::Value
        ensures { means self.now result (if holds always never) };

    // What the comparison of two cells comes to.
    fn equal(&self, a: Cell, b: Cell) -> Self::Value
        requires { (has_name (cell_of a) ≡ true) × (has_name (cell_of b) ≡ true) }
        ensures { means self.now result (equal (cell_of a) (cell_of b)) };

    fn not(&self, x: Self::Value) -> Self::Value
        ensures { (c : Cond) → means self.now x c → means self.now result (not_so c) };

    fn both(&self, x: Self::Value, y: Self::Value) -> Self::Value
        ensures { (c d : Cond) → means self.now x c → means self.now y d → means self.now result (both c d) };

    fn either(&self, x: Self::Value, y: Self::Value) -> Self::Value
        ensures { (c d : Cond) → means self.now x c → means self.now y d → means self.now result (either c d) };
}

// What the first n nodes of a store come to, in one pass; the values behind them stay.
pub fn work_out<S: Sense>(nodes: &[u64], n: u64, sense: &S, values: &mut [S::Value])
    requires stands { (n ≤ count nodes.now) × (1 + 5 * n ≤ length nodes.now) }
    requires fits { n ≤ length values.old }
    ensures values { ComeTo (S.means sense.now) nodes.now n values.new }
    ensures past { (j : ℕ) → n ≤ j → (x : S.Value) → slice_index_or values.new j x ≡ slice_index_or values.old j x }
{
    for i in 0..n as usize {
        let node = nth_node(nodes, i);
        let here = value(sense, node, values, i);
        values[i] = here;
    }
}

// What node i comes to, from the values of the nodes before it.
fn value<S: Sense>(sense: &S, node: Node, values: &[S::Value], i: usize) -> S::Value
    requires named { Named node }
    requires fits { i ≤ length values.now }
    ensures { (go : ℕ → Cond) → ((j : ℕ) → j < i → (x : S.Value) → S.means sense.now (slice_index_or values.now j x) (go j)) → S.means sense.now result (node_of node (earlier i go)) }
{
    match node {
        Node::Always => sense.constant(true),
        Node::Never => sense.constant(false),
        Node::Equal(a, b) => sense.equal(a, b),
        Node::Not(a) => sense.not(before(sense, values, i, a)),
        Node::Both(a, b) => sense.both(before(sense, values, i, a), before(sense, values, i, b)),
        Node::Either(a, b) => sense.either(
            before(sense, values, i, a),
            before(sense, values, i, b),
        ),
    }
}

// What an earlier node than i comes to, from the values of the nodes before i; others read as never.
pub fn before<S: Sense>(sense: &S, values: &[S::Value], i: usize, j: u64) -> S::Value
    requires { i ≤ length values.now }
    ensures { (go : ℕ → Cond) → ((k : ℕ) → k < i → (x : S.Value) → S.means sense.now (slice_index_or values.now k x) (go k)) → S.means sense.now result (earlier i go j) }
{
    if j < i as u64 {
        values[j as usize]
    } else {
        sense.constant(false)
    }
}
