// Which rows meet the goals, where all gaps are settled.
#![tactic(auto, unfolding(evaluate::specs::Filling::holds))]

ghost use Rattle.std.specs.Prelude.{◌≡◌, ℕ, ◌+◌, ◌*◌, ◌<◌, ◌≤◌, Bool, length};
ghost use Rattle.condition.specs.Store.{count};
ghost use Rattle.decide.specs.Search.{tried};
ghost use Rattle.decide.specs.Lanes.{depth_of};
ghost use Rattle.decide.specs.Leaves.{Holds, MeetIn};

use crate::columns::Table;
use crate::gaps::Gaps;
use crate::rows::{Row, Rows};
use crate::sides::Sides;
use crate::task::Task;
use crate::words::{Pair, Word};
use condition::Cell;
use evaluate::Sense;

// In which lanes each of both goals is met, where the rows have all gaps settled.
pub(crate) fn meet(task: &Task, rows: &Rows, values: &mut [Pair]) -> Sides<Pair>
    requires room { count task.now.cone.now ≤ length values.old }
    ensures { MeetIn (tried task.now) rows.now.list.items task.now.cone.now task.now.goal result }
{
    let (front, back) = rows.list.split_at(rows.list.len().min(256));
    let leaves = Leaves {
        gaps: &task.gaps,
        front: task.table(front, task.gaps.names.len()),
        back: task.table(back, task.gaps.names.len()),
    };
    task.come_to(&leaves, values)
}

// Rows with all gaps settled: those in front in the lanes of the first word, those at the back in those of the second.
#[derive(Drop)]
struct Leaves<'a> {
    gaps: &'a Gaps,
    front: Table<'a>,
    back: Table<'a>,
    ghost settled: { (depth_of front ≡ length gaps.now.names.items) × (depth_of back ≡ length gaps.now.names.items) },
}

// A condition holds in a lane or not.
impl Sense for Leaves<'_> {
    type Value = Pair;

    ghost means = { λ s x c. Holds s.gaps.now.names.items s.front.rows.now x.first c × Holds s.gaps.now.names.items s.back.rows.now x.second c };

    fn constant(&self, holds: bool) -> Pair {
        Pair {
            first: Word::same(holds),
            second: Word::same(holds),
        }
    }

    fn equal(&self, a: Cell, b: Cell) -> Pair {
        let (a, b) = (self.gaps.spot(a), self.gaps.spot(b));
        Pair {
            first: self.front.equal(a, b),
            second: self.back.equal(a, b),
        }
    }

    fn not(&self, x: Pair) -> Pair {
        Pair {
            first: !x.first,
            second: !x.second,
        }
    }

    fn both(&self, x: Pair, y: Pair) -> Pair {
        Pair {
            first: x.first & y.first,
            second: x.second & y.second,
        }
    }

    fn either(&self, x: Pair, y: Pair) -> Pair {
        Pair {
            first: x.first | y.first,
            second: x.second | y.second,
        }
    }
}
