// The store: how many nodes stand in it, and which.
ghost use Rattle.std.specs.Prelude.{◌≡◌, ℕ, ◌+◌, ◌*◌, ◌<◌, ◌≤◌, true, false, length, drop, IfOk, MatchOption};
ghost use Rattle.std.specs.Bool.{then_some};
ghost use Rattle.condition.specs.Cond.{Cond};
ghost use Rattle.condition.specs.Store.{count, store_told, stands, room, node_in, earlier, cond_at};
ghost use Rattle.condition.specs.Shapes.{node_of, Named};
ghost use Rattle.condition.specs.Nodes.{decoded};
ghost use Rattle.condition.specs.Refusals.{outcome};

use crate::reading::nth_node;
use crate::{Node, Refusal};

// The most nodes that a store may have.
pub const MOST_NODES: u64 = 131072;

// How many nodes stand in a store, or why it is none.
pub fn store_count(nodes: &[u64]) -> Result<u64, Refusal>
    ensures refusal { outcome result ≡ store_told nodes.now }
    ensures value { IfOk result (λ n. (n ≡ count nodes.now) × (n ≤ 131072) × (1 + 5 * n ≤ length nodes.now)) }
{
    let count = *nodes.first().ok_or(Refusal::BadStore(0))?;
    if count > MOST_NODES || 1 + 5 * count > nodes.len() as u64 {
        return Err(Refusal::BadStore(count));
    }
    Ok(count)
}

// How many more nodes fit, by the slice's length and by the most that a store may have.
pub fn room(nodes: &[u64]) -> Result<u64, Refusal>
    ensures refusal { outcome result ≡ store_told nodes.now }
    ensures value { IfOk result (λ n. n ≡ room nodes.now) }
{
    let count = store_count(nodes)?;
    let most = (nodes.len() as u64 - 1) / 5;
    Ok(most.min(MOST_NODES) - count)
}

// The node at place i; none where it does not stand in a store.
pub fn read_node(nodes: &[u64], i: u64) -> Option<Node>
    ensures read { result ≡ then_some (stands nodes.now i) (decoded nodes.now i) }
    ensures is { MatchOption result (stands nodes.now i ≡ false) (λ n. (go : ℕ → Cond) → node_of n go ≡ node_in (drop 1 nodes.now) i go) }
    ensures condition { MatchOption result (stands nodes.now i ≡ false) (λ n. cond_at nodes.now i ≡ node_of n (earlier i (cond_at nodes.now))) }
    ensures named { MatchOption result (stands nodes.now i ≡ false) Named }
{
    let count = store_count(nodes).ok()?;
    if i >= count {
        return None;
    }
    Some(nth_node(nodes, i as usize))
}
