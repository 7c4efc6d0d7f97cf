// Fillings of the gaps, and conditions under them.
#![tactic(auto)]

ghost use Rattle.std.specs.Prelude.{◌≡◌, ℕ, ◌<◌, ◌≤◌, IfSome, MatchOption};
ghost use Rattle.condition.specs.Shapes.{cell_of};
ghost use Rattle.evaluate.specs.Filling.{fill_cell, put};
ghost use Rattle.evaluate.specs.Shapes.{numbers_of};
ghost use Rattle.evaluate.specs.Enough.{OwnGaps, FewNumbers, FewOver, FewDecide, FreshSmall, Within64Bits};

use condition::Cell;

mod sense;
mod values;

pub use sense::{Sense, before, work_out};
pub use values::{holds_at, worked_out};

// A number for each gap.
#[derive(Clone, Copy)]
pub struct Filling {
    numbers: [u64; 64],
}

impl Filling {
    // Every gap has 0.
    pub fn zeros() -> Filling
        ensures { (k : ℕ) → numbers_of result k ≡ 0 }
    {
        Filling { numbers: [0; 64] }
    }

    // The filling with another number for one gap; none for a gap past the 64.
    pub fn with(self, gap: u64, number: u64) -> Option<Filling>
        ensures gap { MatchOption result (64 ≤ gap) (λ _. gap < 64) }
        ensures numbers { IfSome result (λ f. (k : ℕ) → numbers_of f k ≡ put (numbers_of self) gap number k) }
    {
        if gap >= 64 {
            return None;
        }
        let mut numbers = self.numbers;
        numbers[gap as usize] = number;
        Some(Filling { numbers })
    }

    // The number of a gap; a gap past the 64 has 0.
    pub fn number(&self, gap: u64) -> u64
        ensures { result ≡ numbers_of self.now gap }
    {
        self.numbers.get(gap as usize).copied().unwrap_or(0)
    }

    // The number of a cell.
    pub fn of(&self, cell: Cell) -> u64
        ensures { result ≡ fill_cell (numbers_of self.now) (cell_of cell) }
    {
        match cell {
            Cell::Number(n) => n,
            Cell::Gap(k) => self.number(k),
        }
    }
}

// Theorems about fillings and conditions: see specs/Enough.antt.

pub fn own_gaps()
    ensures { OwnGaps }
{}

pub fn few_numbers()
    ensures { FewNumbers }
{}

pub fn few_over()
    ensures { FewOver }
{}

pub fn few_decide()
    ensures { FewDecide }
{}

pub fn fresh_small()
    ensures { FreshSmall }
{}

pub fn within_64_bits()
    ensures { Within64Bits }
{}
