// Whether conditions hold under a filling.
#![tactic(auto, unfolding(crate::specs::Filling::holds))]

ghost use Rattle.std.specs.Prelude.{◌≡◌, ◌+◌, ◌*◌, ◌≤◌, length, vec_len, IfOk, Some, None, MatchResult};
ghost use Rattle.condition.specs.Store.{count, store_told, cond_at};
ghost use Rattle.condition.specs.Refusals.{told, first};
ghost use Rattle.condition.specs.declared.Refusal.TheVariants.{NoMemory};
ghost use Rattle.evaluate.specs.Filling.{holds};
ghost use Rattle.evaluate.specs.Shapes.{numbers_of};
ghost use Rattle.evaluate.specs.Values.{WorkedOut};

use crate::Filling;
use crate::sense::{Sense, work_out};
use condition::{Cell, Refusal, store_count};
use std::alloc::Global;

// Under a filling a condition holds or not.
impl Sense for Filling {
    type Value = bool;

    ghost means = { λ f x c. x ≡ holds (numbers_of f) c };

    fn constant(&self, holds: bool) -> bool {
        holds
    }

    fn equal(&self, a: Cell, b: Cell) -> bool {
        self.of(a) == self.of(b)
    }

    fn not(&self, x: bool) -> bool {
        !x
    }

    fn both(&self, x: bool, y: bool) -> bool {
        x && y
    }

    fn either(&self, x: bool, y: bool) -> bool {
        x || y
    }
}

// Whether the condition at node i of a store holds under a filling; false where the node does not stand.
pub fn holds_at(heap: Global, nodes: &[u64], i: u64, filling: Filling) -> Result<bool, Refusal>
    ensures refusal { MatchResult result (λ _. store_told nodes.now ≡ None) (λ e. Some (told e) ≡ first (store_told nodes.now) (Some (told NoMemory))) }
    ensures value { IfOk result (λ b. b ≡ holds (numbers_of filling) (cond_at nodes.now i)) }
{
    let count = store_count(nodes)?;
    if i >= count {
        return Ok(false);
    }
    let values = worked_out(heap, nodes, i + 1, &filling)?;
    Ok(values[i as usize])
}

// Whether each of the first n conditions of a store holds under a filling.
pub fn worked_out(
    heap: Global,
    nodes: &[u64],
    n: u64,
    filling: &Filling,
) -> Result<Vec<bool>, Refusal>
    requires stands { (n ≤ count nodes.now) × (1 + 5 * n ≤ length nodes.now) }
    ensures { MatchResult result (λ v. WorkedOut (numbers_of filling.now) nodes.now n v.items × (vec_len v ≡ n)) (λ e. e ≡ NoMemory) }
{
    let mut values = vec![in heap; false; n as usize]?;
    work_out(nodes, n, filling, values.as_mut_slice());
    Ok(values)
}
