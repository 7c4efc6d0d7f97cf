// What conditions might still be, in each lane.
#![tactic(auto, unfolding(crate::specs::Might::might))]

ghost use Rattle.std.specs.Prelude.{◌≡◌, ℕ, ◌+◌, ◌*◌, ◌<◌, ◌≤◌, Bool, true, false, length, IfSome, MatchOption};
ghost use Rattle.condition.specs.Shapes.{cell_of};
ghost use Rattle.condition.specs.Store.{count};
ghost use Rattle.evaluate.specs.Filling.{fill_cell};
ghost use Rattle.decide.specs.Bit.{lane, half};
ghost use Rattle.decide.specs.Might.{settled, tell};
ghost use Rattle.decide.specs.Rows.{on_of, filling_of, number_in, Inside};
ghost use Rattle.decide.specs.Lanes.{depth_of, Tells, Meets};
ghost use Rattle.decide.specs.Search.{tried};
ghost use Rattle.decide.specs.declared.rows.Row.{Row};

use crate::columns::Table;
use crate::gaps::Gaps;
use crate::rows::{Rows, Spot};
use crate::sides::Sides;
use crate::task::Task;
use crate::words::{Pair, Word};
use condition::Cell;
use evaluate::Sense;

// In which lanes each of both goals might still be met, where the rows have the gaps before `depth` settled.
pub(crate) fn might_meet(task: &Task, depth: usize, rows: &Rows, values: &mut [Pair]) -> Sides<Word>
    requires room { count task.now.cone.now ≤ length values.old }
    requires deep { depth ≤ 6 }
    requires narrow { length rows.now.list.items ≤ 256 }
    ensures { Meets (tried task.now) depth rows.now.list.items task.now.cone.now task.now.goal result }
{
    let lanes = Lanes {
        gaps: &task.gaps,
        table: task.table(&rows.list, depth),
    };
    let might = task.come_to(&lanes, values);
    Sides {
        yes: might.yes.first,
        no: might.no.first,
    }
}

// Rows, one in each lane, and the gaps whose numbers they have.
#[derive(Drop)]
struct Lanes<'a> {
    gaps: &'a Gaps,
    table: Table<'a>,
}

// A condition might hold in the lanes of the first word, and fail in those of the second.
impl Sense for Lanes<'_> {
    type Value = Pair;

    ghost means = { Tells };

    fn constant(&self, holds: bool) -> Pair {
        is_just(Word::same(holds))
    }

    fn equal(&self, a: Cell, b: Cell) -> Pair {
        match (self.spot(a), self.spot(b)) {
            (Some(p), Some(q)) => is_just(self.table.equal(p, q)),
            _ if a == b => self.constant(true),
            _ => open(),
        }
    }

    fn not(&self, x: Pair) -> Pair {
        Pair {
            first: x.second,
            second: x.first,
        }
    }

    fn both(&self, x: Pair, y: Pair) -> Pair {
        Pair {
            first: x.first & y.first,
            second: x.second | y.second,
        }
    }

    fn either(&self, x: Pair, y: Pair) -> Pair {
        Pair {
            first: x.first | y.first,
            second: x.second & y.second,
        }
    }
}

impl Lanes<'_> {
    // Where a cell has its number in each row, if it is settled.
    fn spot(&self, cell: Cell) -> Option<Spot>
        ensures settled { MatchOption result (settled (on_of self.now.gaps.now.names.items (depth_of self.now.table)) (cell_of cell) ≡ false) (λ p. Inside (depth_of self.now.table) p × (settled (on_of self.now.gaps.now.names.items (depth_of self.now.table)) (cell_of cell) ≡ true)) }
        ensures number { IfSome result (λ p. (r : Row) → number_in r p ≡ fill_cell (filling_of self.now.gaps.now.names.items r) (cell_of cell)) }
    {
        match cell {
            Cell::Number(n) => Some(Spot::Number(n)),
            Cell::Gap(k) => {
                let place = self.gaps.place(k)?;
                (place < self.table.depth()).then_some(Spot::Place(place))
            }
        }
    }
}

// It holds in the lanes that say so, and fails in the others.
fn is_just(word: Word) -> Pair
    ensures { (l : ℕ) → l < 256 → (t : Bool) → lane l (half t result) ≡ tell t (lane l word) }
{
    Pair {
        first: word,
        second: !word,
    }
}

// It can hold and it can fail in every lane.
fn open() -> Pair
    ensures { (l : ℕ) → l < 256 → (t : Bool) → lane l (half t result) ≡ true }
{
    Pair {
        first: Word::same(true),
        second: Word::same(true),
    }
}
