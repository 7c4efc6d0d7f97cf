// The list of sure rows.
ghost use Rattle.std.specs.Prelude.{◌≡◌, ℕ, ◌^◌, ◌<◌, All, List, map, length, IfOk, IfErr, vec_items, slice_index};
ghost use Rattle.list.specs.Layout.{lines_in, known_in};
ghost use Rattle.list.specs.Lists.{Row};
ghost use Rattle.decide.specs.Shapes.{what_of, out_of};
ghost use Rattle.decide.specs.SureRows.{InOrder, SureRows, SureRowsTold, Wrote};
ghost use Rattle.decide.specs.SureSteps.{ChooseTold, KeepTold, ListTold};

use crate::answered::Answered;
use crate::candidates::{Chosen, candidates};
use crate::checking::{check_answer, check_named_few};
use crate::choosing::choose;
use crate::marked::Marks;
use crate::rowwise::decide;
use condition::{MOST_NODES, Refusal};
use std::alloc::Global;

// Writes each sure row of an answer, one after the other and in order cell by cell, to the front of a slice, and tells how many they are.
// If no filling fits what is known, every row is sure, and the list is refused. Nothing is written where it is refused; want of memory
// is told only where no number applies that can be told without memory.
pub fn sure_rows(
    heap: Global,
    lists: &[u64],
    nodes: &[u64],
    answer: &[u64],
    lines: u64,
    width: u64,
    rows: &mut [u64],
) -> Result<u64, Refusal>
    ensures refusal { SureRowsTold lists.now nodes.now answer.now lines width (length rows.old) result }
    ensures kept { IfErr result (λ _. rows.new ≡ rows.old) }
    ensures listed { IfOk result (λ n. (rs : List Row) × SureRows (known_in nodes.now lists.now) (lines_in nodes.now lines width answer.now) rs × Wrote rs n rows.old rows.new) }
{
    check_answer(lists, nodes, answer, lines, width)?;
    let answered = Answered {
        nodes,
        known: lists[1],
        answer,
        lines: lines as usize,
        width: width as usize,
    };
    let sure = list_sure(heap, answered, &mut [false; MOST_NODES as usize])?;
    let size = sure.numbers.len();
    if size > rows.len() {
        return Err(Refusal::RowsFull(rows.len() as u64 / width));
    }
    rows[..size].copy_from_slice(sure.numbers.as_slice());
    Ok(sure.count)
}

// Rows one after the other, and how many they are.
#[derive(Drop)]
struct Joined {
    numbers: Vec<u64>,
    count: u64,
}

// The sure rows of an answer, in order.
fn list_sure(heap: Global, answered: Answered, marks: &mut Marks) -> Result<Joined, Refusal>
    requires nodes { (i : ℕ) → slice_index answered.nodes.now i < 2 ^ 64 }
    requires answer { (i : ℕ) → slice_index answered.answer.now i < 2 ^ 64 }
    ensures { ListTold (what_of answered.entry) (out_of answered.entry) answered.entry.width result }
{
    let chosen = choose_for(heap, answered, marks)?;
    let rows = candidates(heap, &answered, &chosen)?;
    keep_sure(heap, answered, rows.as_slice(), marks)
}

// The filling that decides which rows may be sure.
fn choose_for(heap: Global, answered: Answered, marks: &mut Marks) -> Result<Chosen, Refusal>
    ensures { ChooseTold (what_of answered.entry) result }
{
    let survey = answered.seek_nothing().survey(marks);
    let gaps = check_named_few(&survey)?;
    choose(heap, &survey, &gaps)?.ok_or(Refusal::NothingFits)
}

// Of rows in order those that are sure.
fn keep_sure(
    heap: Global,
    answered: Answered,
    rows: &[Vec<u64>],
    marks: &mut Marks,
) -> Result<Joined, Refusal>
    requires order { InOrder (map vec_items rows.now) }
    requires wide { All (λ r. length r ≡ answered.width) (map vec_items rows.now) }
    ensures { KeepTold (what_of answered.entry) (out_of answered.entry) (map vec_items rows.now) result }
{
    let mut sure = Joined {
        numbers: Vec::new(heap),
        count: 0,
    };
    for row in rows {
        let standing = decide(heap, answered.seek(row), marks)?;
        if standing.is_sure() {
            sure.numbers.extend_from_slice(row)?;
            sure.count += 1;
        }
    }
    Ok(sure)
}
