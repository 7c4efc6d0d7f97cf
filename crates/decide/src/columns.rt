// In which lanes the rows have equal numbers.
ghost use Rattle.std.specs.Prelude.{◌≡◌, ℕ, ◌<◌, ◌≤◌, length};
ghost use Rattle.decide.specs.Columns.{Having, Alike, Same, Earlier, Named, Filled};

use crate::rows::{Row, Spot};
use crate::words::Word;
use arrayvec::ArrayVec;

// The lanes in which the rows have at a place the number that they have at each earlier one, and those in which they have there each
// of the named numbers.
#[derive(Default, Drop)]
struct Column {
    earlier: ArrayVec<Word, 6>,
    named: ArrayVec<Word, 8>,
}

// Rows, one in each lane, all with the first places settled; and a column for each of these places.
#[derive(Drop)]
pub(crate) struct Table<'a> {
    rows: &'a [Row],
    named: &'a [u64],
    columns: ArrayVec<Column, 6>,
    ghost narrow: { length rows.now ≤ 256 },
    ghost few: { length columns.items ≤ 6 },
    ghost filled: { Filled rows.now named.now columns.items },
}

impl<'a> Table<'a> {
    ghost use Rattle.decide.specs.Lanes.{depth_of};
    ghost use Rattle.decide.specs.Rows.{Inside};

    // The table of some rows with the places before `depth` settled.
    pub(crate) fn of(rows: &'a [Row], depth: usize, named: &'a [u64]) -> Table<'a>
        requires narrow { length rows.now ≤ 256 }
        requires few { (depth ≤ 6) × (length named.now ≤ 8) }
        ensures rows { result.rows.now ≡ rows.now }
        ensures depth { depth_of result ≡ depth }
    {
        let mut columns = ArrayVec::new();
        for place in 0..depth {
            columns.push(Column {
                earlier: earlier(rows, place),
                named: with_named(rows, place, named),
            });
        }
        Table {
            rows,
            named,
            columns,
        }
    }

    // How many places are settled.
    pub(crate) fn depth(&self) -> usize
        ensures { result ≡ depth_of self.now }
    {
        self.columns.len()
    }

    // The lanes in which two cells have the same number.
    pub(crate) fn equal(&self, a: Spot, b: Spot) -> Word
        requires { Inside (depth_of self.now) a × Inside (depth_of self.now) b }
        ensures { Same self.now.rows.now a b result }
    {
        match (a, b) {
            (Spot::Number(m), Spot::Number(n)) => Word::same(m == n),
            (Spot::Place(p), Spot::Number(n)) | (Spot::Number(n), Spot::Place(p)) => {
                self.number(p, n)
            }
            (Spot::Place(p), Spot::Place(q)) => self.pair(p, q),
        }
    }

    // The lanes in which the rows have the same number at two places.
    fn pair(&self, p: usize, q: usize) -> Word
        requires { (p < depth_of self.now) × (q < depth_of self.now) }
        ensures { Alike self.now.rows.now p q result }
    {
        if q < p {
            self.columns[p].earlier[q]
        } else if p < q {
            self.columns[q].earlier[p]
        } else {
            Word::same(true)
        }
    }

    // The lanes in which the rows have a number at a place.
    fn number(&self, place: usize, number: u64) -> Word
        requires { place < depth_of self.now }
        ensures { Having self.now.rows.now place number result }
    {
        match self.named.iter().position(|n| *n == number) {
            Some(j) => self.columns[place].named[j],
            None => having(self.rows, place, number),
        }
    }
}

// The lanes in which the rows have at a place the number that they have at each earlier one.
fn earlier(rows: &[Row], place: usize) -> ArrayVec<Word, 6>
    requires narrow { length rows.now ≤ 256 }
    requires low { place < 6 }
    ensures { Earlier rows.now place result.items }
{
    let mut words = ArrayVec::new();
    for q in 0..place {
        words.push(Word::passing(rows, |row| row.numbers[place] == row.numbers[q]));
    }
    words
}

// The lanes in which the rows have each of the named numbers at a place.
fn with_named(rows: &[Row], place: usize, named: &[u64]) -> ArrayVec<Word, 8>
    requires narrow { length rows.now ≤ 256 }
    requires few { (place < 6) × (length named.now ≤ 8) }
    ensures { Named rows.now place named.now result.items }
{
    let mut words = ArrayVec::new();
    for number in named {
        words.push(having(rows, place, *number));
    }
    words
}

// The lanes in which the rows have a number at a place.
fn having(rows: &[Row], place: usize, number: u64) -> Word
    requires narrow { length rows.now ≤ 256 }
    requires low { place < 6 }
    ensures { Having rows.now place number result }
{
    Word::passing(rows, |row| row.numbers[place] == number)
}
