// Whether some filling meets a condition, decided by trying.
ghost use Rattle.std.specs.Prelude.{◌≤◌, Bool, length};
ghost use Rattle.condition.specs.Store.{count};
ghost use Rattle.decide.specs.Sides.{side};
ghost use Rattle.decide.specs.Search.{goal};
ghost use Rattle.decide.specs.Trying.{Tried};

use crate::rows::{Row, Rows};
use crate::search::search;
use crate::sides::Sides;
use crate::task::Task;
use crate::words::Pair;
use evaluate::Filling;

// Tries the fillings that decide both goals for all fillings, in one run: one that fits what is known and has what is shown, and one
// that fits and lacks it.
pub(crate) fn try_all(task: &Task, values: &mut [Pair]) -> Sides<Option<Filling>>
    requires { count task.now.cone.now ≤ length values.old }
    ensures { (t : Bool) → Tried (goal task.now t) (side t result) }
{
    let mut rows = Rows::new();
    rows.list.push(Row::default());
    let met = search(task, 0, &rows, values, Sides::default());
    let gaps = &task.gaps;
    met.map(|row| row.map(|row| row.filling(gaps)))
}
