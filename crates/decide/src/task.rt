// What is tried: the conditions, the gaps and the numbers.
ghost use Rattle.std.specs.Prelude.{ℕ, ◌+◌, ◌*◌, ◌≤◌, length};
ghost use Rattle.condition.specs.Store.{count};
ghost use Rattle.decide.specs.Goals.{SetUp};

use crate::columns::Table;
use crate::gaps::Gaps;
use crate::pool::pool;
use crate::rows::Row;
use crate::sides::Sides;
use arrayvec::ArrayVec;
use evaluate::{Sense, before, work_out};

// The places of two conditions in a store: what is known, and what a row is shown by.
#[derive(Clone, Copy)]
pub(crate) struct Goal {
    pub(crate) known: u64,
    pub(crate) shows: u64,
}

// Over a store the goal, the gaps that are tried, and the numbers: first those that are named, then a fresh one for each gap.
#[derive(Drop)]
pub(crate) struct Task<'a> {
    pub(crate) cone: &'a [u64],
    pub(crate) goal: Goal,
    pub(crate) gaps: Gaps,
    pub(crate) pool: ArrayVec<u64, 14>,
    pub(crate) named: usize,
    ghost stands: { 1 + 5 * count cone.now ≤ length cone.now },
    ghost set_up: { SetUp cone.now goal gaps.names.items pool.items named },
}

impl<'a> Task<'a> {
    ghost use Rattle.std.specs.Prelude.{◌≡◌, ◌<◌, Bool, true, AllPairs, take, slice_index};
    ghost use Rattle.decide.specs.Goals.{goal_of};
    ghost use Rattle.decide.specs.Sides.{side};
    ghost use Rattle.decide.specs.Lanes.{depth_of};
    ghost use Rattle.decide.specs.Search.{at_once};
    ghost use Rattle.decide.specs.Trying.{Names, LeastOther};

    // The gaps each once, and the numbers with as many fresh ones.
    pub(crate) fn of(cone: &'a [u64], goal: Goal, gaps: &[u64], numbers: &[u64]) -> Task<'a>
        requires store { 1 + 5 * count cone.now ≤ length cone.now }
        requires few { (length gaps.now ≤ 6) × (length numbers.now ≤ 8) }
        requires named { Names (goal_of cone.now goal true) gaps.now numbers.now }
        ensures cone { result.cone.now ≡ cone.now }
        ensures goal { result.goal ≡ goal }
        ensures gaps { AllPairs (λ j k. j < k) gaps.now → result.gaps.names.items ≡ gaps.now }
        ensures named { take result.named result.pool.items ≡ numbers.now }
        ensures fresh { (p : ℕ) → result.named ≤ p → p < length result.pool.items → LeastOther (take p result.pool.items) (slice_index result.pool.items p) }
    {
        let gaps = Gaps::listed(gaps);
        let pool = pool(numbers, gaps.names.len());
        Task {
            cone,
            goal,
            gaps,
            pool,
            named: numbers.len(),
        }
    }

    // The table of some rows with the gaps before `depth` settled.
    pub(crate) fn table<'r>(&'r self, rows: &'r [Row], depth: usize) -> Table<'r>
        requires narrow { length rows.now ≤ 256 }
        requires deep { depth ≤ 6 }
        ensures rows { result.rows.now ≡ rows.now }
        ensures depth { depth_of result ≡ depth }
    {
        Table::of(rows, depth, &self.pool[..self.named])
    }

    // How many rows of a depth are tried at once: their lanes are those of both words of a pair where all gaps are settled, and of one
    // where a condition might still hold and fail.
    pub(crate) fn at_once(&self, depth: usize) -> usize
        ensures { result ≡ at_once self.now depth }
    {
        if depth == self.gaps.names.len() {
            512
        } else {
            256
        }
    }

    // What each of both goals comes to.
    pub(crate) fn come_to<S: Sense>(&self, sense: &S, values: &mut [S::Value]) -> Sides<S::Value>
        requires room { count self.now.cone.now ≤ length values.old }
        ensures { (t : Bool) → S.means sense.now (side t result) (goal_of self.now.cone.now self.now.goal t) }
    {
        let count = self.cone[0];
        work_out(self.cone, count, sense, values);
        let known = before(sense, values, count as usize, self.goal.known);
        let shows = before(sense, values, count as usize, self.goal.shows);
        Sides {
            yes: sense.both(known, shows),
            no: sense.both(known, sense.not(shows)),
        }
    }
}
