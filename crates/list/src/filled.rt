// The rows of a list once its gaps are filled.
ghost use Rattle.std.specs.Prelude.{◌≡◌, ℕ, ◌+◌, ◌*◌, ◌≤◌, true, List, [], length, drop, IfOk, Some, None, vec_len, MatchResult, slice_index_or};
ghost use Rattle.condition.specs.Refusals.{told, first};
ghost use Rattle.condition.specs.Store.{count, store_told};
ghost use Rattle.condition.specs.declared.Refusal.TheVariants.{NoMemory};
ghost use Rattle.evaluate.specs.Shapes.{numbers_of};
ghost use Rattle.evaluate.specs.Values.{WorkedOut};
ghost use Rattle.list.specs.Lists.{fill_cells, filled};
ghost use Rattle.list.specs.Layout.{line_size, cells_in, lines_in, all_in, lines_named, check_told};
ghost use Rattle.list.specs.Shapes.{rows_of};

use crate::{Line, Lines, Shape, Shapes, check};
use condition::Refusal;
use evaluate::{Filling, worked_out};
use std::alloc::Global;

// The rows of list t under a filling; no rows for a t that is no list.
pub fn rows(
    heap: Global,
    lists: &[u64],
    nodes: &[u64],
    t: u64,
    filling: Filling,
) -> Result<Vec<Vec<u64>>, Refusal>
    ensures refusal { MatchResult result (λ _. check_told lists.now nodes.now ≡ None) (λ e. Some (told e) ≡ first (check_told lists.now nodes.now) (Some (told NoMemory))) }
    ensures rows { IfOk result (λ v. rows_of v ≡ filled (numbers_of filling) (slice_index_or (all_in nodes.now lists.now) t [])) }
{
    check(lists, nodes)?;
    let Some(shape) = Shapes::of(lists).get(t as usize) else {
        return Ok(Vec::new(heap));
    };
    let values = worked_out(heap, nodes, nodes[0], &filling)?;
    filled_lines(heap, lists, shape, values.as_slice(), &filling)
}

// The rows of those lines whose condition holds, by the values of the nodes.
fn filled_lines(
    heap: Global,
    lists: &[u64],
    shape: Shape,
    values: &[bool],
    filling: &Filling,
) -> Result<Vec<Vec<u64>>, Refusal>
    requires whole { shape.at + shape.lines * line_size shape.width ≤ length lists.now }
    requires named { lines_named (length values.now) shape.lines shape.width (drop shape.at lists.now) ≡ true }
    ensures { MatchResult result (λ v. (nodes : List ℕ) → WorkedOut (numbers_of filling.now) nodes (length values.now) values.now → rows_of v ≡ filled (numbers_of filling.now) (lines_in nodes shape.lines shape.width (drop shape.at lists.now))) (λ e. e ≡ NoMemory) }
{
    let mut rows = Vec::new(heap);
    for line in Lines::of(&lists[shape.at..], shape.lines, shape.width) {
        if values[line.node() as usize] {
            let row = filled_row(heap, line, filling)?;
            rows.push(row)?;
        }
    }
    Ok(rows)
}

// The numbers of a line's cells.
fn filled_row(heap: Global, line: Line, filling: &Filling) -> Result<Vec<u64>, Refusal>
    ensures { MatchResult result (λ v. v.items ≡ fill_cells (numbers_of filling.now) (cells_in line.entry.width (drop 1 line.entry.numbers.now))) (λ e. e ≡ NoMemory) }
{
    let row = (0..line.width)
        .map(|a| filling.of(line.cell(a)))
        .collect(heap)?;
    Ok(row)
}
