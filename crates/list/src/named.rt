// Whether the nodes that lists name stand in a store.
ghost use Rattle.std.specs.Prelude.{◌≡◌, ◌*◌, ◌≤◌, true, false, length, IfOk, None, MatchOption, slice_index};
ghost use Rattle.condition.specs.Refusals.{outcome};
ghost use Rattle.list.specs.Layout.{line_size, list_size, Fits, lines_named, list_named, lists_told, named_below};

use crate::passing::passing;
use crate::{Lines, line_size};
use condition::Refusal;

// How many lists there are, or which names a node that does not stand among count nodes.
pub fn check_named(lists: &[u64], count: u64) -> Result<u64, Refusal>
    requires { lists_told lists.now ≡ None }
    ensures refusal { outcome result ≡ named_below lists.now count }
    ensures value { IfOk result (λ n. n ≡ slice_index lists.now 0) }
{
    let named = passing(
        &lists[2..],
        lists[0],
        |list|
            requires { Fits list.now }
        { named_size(list, count) },
    );
    if named != lists[0] {
        return Err(Refusal::NoSuchNode(named));
    }
    if lists[1] >= count {
        return Err(Refusal::NoSuchNode(8));
    }
    Ok(named)
}

// How many numbers the list at the front takes, if its lines name only nodes that stand.
fn named_size(xs: &[u64], count: u64) -> Option<usize>
    requires { Fits xs.now }
    ensures { MatchOption result (list_named count xs.now ≡ false) (λ n. (list_named count xs.now ≡ true) × (n ≡ list_size xs.now) × (n ≤ length xs.now)) }
{
    let n = xs[0] as usize;
    let w = xs[1] as usize;
    if !any_lines_named(&xs[2..], n, w, count) {
        return None;
    }
    Some(2 + n * line_size(w))
}

// Whether the nodes of n lines, w cells wide, stand among count nodes.
pub fn any_lines_named(xs: &[u64], n: usize, w: usize, count: u64) -> bool
    requires { n * line_size w ≤ length xs.now }
    ensures { result ≡ lines_named count n w xs.now }
{
    Lines::of(xs, n, w).all(|line| line.node() < count)
}
