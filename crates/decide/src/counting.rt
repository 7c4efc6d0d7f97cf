// How many different numbers the marked nodes of a store and a row name.
ghost use Rattle.std.specs.Prelude.{◌≡◌, ℕ, ◌+◌, ◌^◌, ◌<◌, List, [], ◌∷◌, ◌++◌};
ghost use Rattle.condition.specs.Cond.{numbers_in, has};
ghost use Rattle.condition.specs.Shapes.{cell_of, Named};
ghost use Rattle.decide.specs.Reaching.{own_cells};
ghost use Rattle.decide.specs.Marked.{cells_marked};
ghost use Rattle.decide.specs.Counting.{counted, Least};

use crate::marked::Marked;
use condition::{Cell, Node};

// How many different numbers marked nodes and a row name. It looks through all of them again for each different number.
pub(crate) fn count_numbers(marked: &Marked, row: &[u64]) -> u64
    ensures count { result ≡ counted (2 ^ 64) (has (numbers_in (cells_marked marked.now) ++ row.now)) }
    ensures small { result + 64 < 2 ^ 64 }
{
    let mut many = 0;
    let mut low = 0;
    while let Some(number) = least_number(marked, row, low) {
        many += 1;
        if number == u64::MAX {
            return many;
        }
        low = number + 1;
    }
    many
}

// The least number, not below low, that marked nodes and a row name.
fn least_number(marked: &Marked, row: &[u64], low: u64) -> Option<u64>
    ensures { Least (numbers_in (cells_marked marked.now) ++ row.now) low result }
{
    let mut best = least_in_row(row, low);
    for i in marked.places() {
        best = lower_by_node(best, marked.node(i), low);
    }
    best
}

// The least number of a row that is not below low.
fn least_in_row(row: &[u64], low: u64) -> Option<u64>
    ensures { Least row.now low result }
{
    row.iter().copied().filter(|number| *number >= low).min()
}

// The least of best and of those numbers that a node compares and that are not below low.
fn lower_by_node(best: Option<u64>, node: Node, low: u64) -> Option<u64>
    requires named { Named node }
    ensures { (xs : List ℕ) → Least xs low best → Least (numbers_in (own_cells node) ++ xs) low result }
{
    match node {
        Node::Equal(a, b) => lower_by_cell(lower_by_cell(best, b, low), a, low),
        _ => best,
    }
}

// The lesser of best and a cell's number, if the cell has one that is not below low.
fn lower_by_cell(best: Option<u64>, cell: Cell, low: u64) -> Option<u64>
    ensures { (xs : List ℕ) → Least xs low best → Least (numbers_in (cell_of cell ∷ []) ++ xs) low result }
{
    match cell {
        Cell::Number(number) => lower(best, number, low),
        Cell::Gap(_) => best,
    }
}

// The lesser of best and a number, if that is not below low.
fn lower(best: Option<u64>, number: u64, low: u64) -> Option<u64>
    ensures { (xs : List ℕ) → Least xs low best → Least (number ∷ xs) low result }
{
    if number < low {
        return best;
    }
    Some(best.unwrap_or(number).min(number))
}
