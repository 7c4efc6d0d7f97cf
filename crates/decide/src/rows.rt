// Rows of numbers that are tried.
ghost use Rattle.std.specs.Prelude.{◌≡◌, ℕ, ◌<◌, ◌≤◌, [], length};
ghost use Rattle.evaluate.specs.Shapes.{numbers_of};
ghost use Rattle.decide.specs.Rows.{GoesOn, filling_of};

use crate::gaps::Gaps;
use arrayvec::ArrayVec;
use evaluate::Filling;

// Where a cell has its number in a row: it is one, or stands for the row's number at a place.
#[derive(Clone, Copy)]
pub(crate) enum Spot {
    Number(u64),
    Place(usize),
}

// Numbers for the gaps that are settled, and how many of the fresh numbers are in use.
#[derive(Clone, Copy, Default)]
pub(crate) struct Row {
    pub(crate) numbers: [u64; 6],
    pub(crate) used: usize,
}

impl Row {
    // The row with a number at a place.
    pub(crate) fn with(self, place: usize, number: u64, used: usize) -> Row
        requires { place < 6 }
        ensures { GoesOn self place number used result }
    {
        let mut numbers = self.numbers;
        numbers[place] = number;
        Row { numbers, used }
    }

    // The filling that a row stands for.
    pub(crate) fn filling(self, gaps: &Gaps) -> Filling
        ensures { (k : ℕ) → k < 64 → numbers_of result k ≡ filling_of gaps.now.names.items self k }
    {
        let mut filling = Filling::zeros();
        for (p, name) in gaps.names.iter().enumerate() {
            filling = filling.with(*name, self.numbers[p]).unwrap();
        }
        filling
    }
}

// Up to 512 rows.
#[derive(Drop)]
pub(crate) struct Rows {
    pub(crate) list: ArrayVec<Row, 512>,
    ghost few: { length list.items ≤ 512 },
}

impl Rows {
    // No rows.
    pub(crate) fn new() -> Rows
        ensures { result.list.items ≡ [] }
    {
        Rows {
            list: ArrayVec::new(),
        }
    }
}
