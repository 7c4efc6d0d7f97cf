// The first filling that meets a goal: gap by gap, the first number of a given order that can be continued.
ghost use Rattle.std.specs.Prelude.{◌≡◌, ℕ, ◌+◌, ◌<◌, ◌≤◌, true, length, slice_index};
ghost use Rattle.condition.specs.Cond.{has};
ghost use Rattle.condition.specs.Store.{count};
ghost use Rattle.decide.specs.Search.{tried, Begun};
ghost use Rattle.decide.specs.Picking.{Lives, Opened, PickedNext, PickedFirst};

use crate::gaps::first_place;
use crate::rows::{Row, Rows};
use crate::search::search;
use crate::sides::Sides;
use crate::task::Task;
use crate::words::Pair;

// The numbers of the first filling that meets what is known with what is shown, if one does.
pub(crate) fn pick_first(task: &Task, order: &[u64], values: &mut [Pair]) -> Option<Row>
    requires room { count task.now.cone.now ≤ length values.old }
    requires all { (k : ℕ) → k < length task.now.pool.items → has order.now (slice_index task.now.pool.items k) ≡ true }
    ensures { PickedFirst task.now order.now result }
{
    let mut row = Row::default();
    if !can_meet(task, 0, row, values) {
        return None;
    }
    for depth in 0..task.gaps.names.len() {
        row = pick_next(task, order, depth, row, values)?;
    }
    Some(row)
}

// The row with the first number for the next gap that can be continued, if one can.
fn pick_next(task: &Task, order: &[u64], depth: usize, row: Row, values: &mut [Pair]) -> Option<Row>
    requires room { count task.now.cone.now ≤ length values.old }
    requires all { (k : ℕ) → k < length task.now.pool.items → has order.now (slice_index task.now.pool.items k) ≡ true }
    requires deep { depth < length (tried task.now) }
    requires begun { Begun task.now depth row }
    ensures { PickedNext task.now order.now depth row result }
{
    for number in order {
        if let Some(next) = open_with(task, depth, row, *number) {
            if can_meet(task, depth + 1, next, values) {
                return Some(next);
            }
        }
    }
    None
}

// The row with a number for the next gap, if that may be tried: it is named, in use, or the next fresh one.
fn open_with(task: &Task, depth: usize, row: Row, number: u64) -> Option<Row>
    requires deep { depth < length (tried task.now) }
    requires begun { Begun task.now depth row }
    ensures { Opened task.now depth row number result }
{
    let open = task.named + row.used;
    let place = first_place(&task.pool, number)?;
    if place > open {
        return None;
    }
    let used = if place == open {
        row.used + 1
    } else {
        row.used
    };
    Some(row.with(depth, number, used))
}

// Whether some filling that goes on from a row, in which the gaps before `depth` are settled, meets what is known with what is shown.
fn can_meet(task: &Task, depth: usize, row: Row, values: &mut [Pair]) -> bool
    requires room { count task.now.cone.now ≤ length values.old }
    requires deep { depth ≤ length (tried task.now) }
    requires begun { Begun task.now depth row }
    ensures { Lives task.now depth row result }
{
    let mut rows = Rows::new();
    rows.list.push(row);
    let met = search(task, depth, &rows, values, Sides::default());
    met.yes.is_some()
}
