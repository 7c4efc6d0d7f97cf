// The gaps that are tried, each with its place.
ghost use Rattle.std.specs.Prelude.{◌≡◌, ◌≢◌, ℕ, ◌<◌, ◌≤◌, All, AllPairs, length, slice_index};
ghost use Rattle.condition.specs.Shapes.{cell_of};
ghost use Rattle.evaluate.specs.Filling.{fill_cell};
ghost use Rattle.decide.specs.Rows.{place, filling_of, Inside, number_in};
ghost use Rattle.decide.specs.declared.rows.Row.{Row};

use crate::rows::Spot;
use arrayvec::ArrayVec;
use condition::Cell;

// Gaps in the order in which they are settled, each once.
#[derive(Drop)]
pub(crate) struct Gaps {
    pub(crate) names: ArrayVec<u64, 6>,
    ghost few: { length names.items ≤ 6 },
    ghost low: { All (λ k. k < 64) names.items },
    ghost distinct: { AllPairs (λ j k. j ≢ k) names.items },
}

impl Gaps {
    ghost use Rattle.condition.specs.Cond.{Within};

    // The gaps of a list, each once.
    pub(crate) fn listed(gaps: &[u64]) -> Gaps
        requires few { length gaps.now ≤ 6 }
        requires low { (i : ℕ) → i < length gaps.now → slice_index gaps.now i < 64 }
        ensures few { length result.names.items ≤ length gaps.now }
        ensures all { Within gaps.now result.names.items }
        ensures same { AllPairs (λ j k. j < k) gaps.now → result.names.items ≡ gaps.now }
    {
        let mut names = ArrayVec::new();
        for gap in gaps {
            if !names.contains(gap) {
                names.push(*gap);
            }
        }
        Gaps { names }
    }

    // The place of a gap, if it is tried.
    pub(crate) fn place(&self, gap: u64) -> Option<usize>
        ensures { result ≡ place self.now.names.items gap }
    {
        first_place(&self.names, gap)
    }

    // Where a cell has its number in a row with all gaps settled; a gap that is not tried has 0.
    pub(crate) fn spot(&self, cell: Cell) -> Spot
        ensures inside { Inside (length self.now.names.items) result }
        ensures number { (r : Row) → number_in r result ≡ fill_cell (filling_of self.now.names.items r) (cell_of cell) }
    {
        match cell {
            Cell::Number(n) => Spot::Number(n),
            Cell::Gap(k) => match self.place(k) {
                Some(p) => Spot::Place(p),
                None => Spot::Number(0),
            },
        }
    }
}

// The first place of a number in a list, if it stands there.
#[tactic(auto, unfolding(crate::specs::Rows::place))]
pub(crate) fn first_place(numbers: &[u64], number: u64) -> Option<usize>
    ensures { result ≡ place numbers.now number }
{
    numbers.iter().position(|n| *n == number)
}
