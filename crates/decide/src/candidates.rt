// The rows that may be sure: those that an answer has under one filling, and that have no number that stands nowhere.
#![tactic(auto, unfolding(evaluate::specs::Filling::holds))]

ghost use Rattle.std.specs.Prelude.{◌≡◌, All, length, drop, IfSome, IfOk, IfErr, is_some};
ghost use Rattle.condition.specs.Shapes.{cell_of};
ghost use Rattle.condition.specs.Store.{count};
ghost use Rattle.condition.specs.declared.Refusal.TheVariants.{NoMemory};
ghost use Rattle.evaluate.specs.Filling.{fill_cell, holds};
ghost use Rattle.evaluate.specs.Values.{WorkedOut};
ghost use Rattle.list.specs.Layout.{cells_in};
ghost use Rattle.list.specs.Lists.{fill_cells, filled};
ghost use Rattle.list.specs.Shapes.{rows_of};
ghost use Rattle.decide.specs.Shapes.{value_of, chosen_of, out_of};
ghost use Rattle.decide.specs.SureRows.{Candidates};
ghost use Rattle.decide.specs.SureSteps.{is_named, named_rows};

use crate::answered::Answered;
use condition::{Cell, Refusal};
use evaluate::{Sense, work_out};
use list::Line;
use std::alloc::Global;

// A number below 2^64; or the one of a gap that stands nowhere.
#[derive(Clone, Copy, PartialEq, Eq)]
pub(crate) enum Choice {
    Number(u64),
    Nowhere(u64),
}

// A choice for each gap.
#[derive(Clone, Copy)]
pub(crate) struct Chosen {
    pub(crate) choices: [Choice; 64],
}

impl Chosen {
    // The choice for a cell.
    fn of(&self, cell: Cell) -> Choice
        ensures { value_of result ≡ fill_cell (chosen_of self.now) (cell_of cell) }
    {
        match cell {
            Cell::Number(n) => Choice::Number(n),
            Cell::Gap(k) => match self.choices.get(k as usize) {
                Some(choice) => *choice,
                None => Choice::Nowhere(k),
            },
        }
    }
}

// Under a choice for each gap a condition holds or not.
impl Sense for Chosen {
    type Value = bool;

    ghost means = { λ f x c. x ≡ holds (chosen_of f) c };

    fn constant(&self, holds: bool) -> bool {
        holds
    }

    fn equal(&self, a: Cell, b: Cell) -> bool {
        self.of(a) == self.of(b)
    }

    fn not(&self, x: bool) -> bool {
        !x
    }

    fn both(&self, x: bool, y: bool) -> bool {
        x && y
    }

    fn either(&self, x: bool, y: bool) -> bool {
        x || y
    }
}

// The rows of an answer under a choice for each gap, those without a number that stands nowhere, each once and in order; refused only
// for want of memory.
pub(crate) fn candidates(
    heap: Global,
    answered: &Answered,
    chosen: &Chosen,
) -> Result<Vec<Vec<u64>>, Refusal>
    ensures refused { IfErr result (λ e. e ≡ NoMemory) }
    ensures candidates { IfOk result (λ v. Candidates (out_of answered.now) (chosen_of chosen.now) (rows_of v)) }
    ensures wide { IfOk result (λ v. All (λ r. length r ≡ answered.now.width) (rows_of v)) }
{
    let count = answered.nodes[0];
    let mut values = vec![in heap; false; count as usize]?;
    work_out(answered.nodes, count, chosen, values.as_mut_slice());
    let mut rows = named_rows(heap, answered, values.as_slice(), chosen)?;
    rows.sort()?;
    rows.dedup();
    Ok(rows)
}

// The same in the order of the lines and as often, by the values of the nodes.
fn named_rows(
    heap: Global,
    answered: &Answered,
    values: &[bool],
    chosen: &Chosen,
) -> Result<Vec<Vec<u64>>, Refusal>
    requires all { length values.now ≡ count answered.now.nodes.now }
    requires values { WorkedOut (chosen_of chosen.now) answered.now.nodes.now (length values.now) values.now }
    ensures refused { IfErr result (λ e. e ≡ NoMemory) }
    ensures rows { IfOk result (λ v. rows_of v ≡ named_rows (filled (chosen_of chosen.now) (out_of answered.now))) }
{
    let mut rows = Vec::new(heap);
    for line in answered.answer_lines() {
        if values[line.node() as usize] {
            if let Some(row) = named_row(heap, &line, chosen)? {
                rows.push(row)?;
            }
        }
    }
    Ok(rows)
}

// The numbers of a line's cells, unless one of them stands nowhere.
fn named_row(heap: Global, line: &Line, chosen: &Chosen) -> Result<Option<Vec<u64>>, Refusal>
    ensures refused { IfErr result (λ e. e ≡ NoMemory) }
    ensures named { IfOk result (λ o. is_some o ≡ is_named (fill_cells (chosen_of chosen.now) (cells_in line.now.width (drop 1 line.now.numbers.now)))) }
    ensures row { IfOk result (λ o. IfSome o (λ v. v.items ≡ fill_cells (chosen_of chosen.now) (cells_in line.now.width (drop 1 line.now.numbers.now)))) }
{
    let mut row = Vec::new(heap);
    for a in 0..line.width {
        match chosen.of(line.cell(a)) {
            Choice::Number(number) => row.push(number)?,
            Choice::Nowhere(_) => return Ok(None),
        }
    }
    Ok(Some(row))
}
