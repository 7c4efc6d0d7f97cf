// Tidying the conditions of an answer's lines.
ghost use Rattle.std.specs.Prelude.{◌≡◌, ℕ, ◌*◌, ◌<◌, ◌≤◌, true, length, slice_index, IfOk, OnErr, OnOk};
ghost use Rattle.condition.specs.Refusals.{outcome};
ghost use Rattle.list.specs.Layout.{line_size, lines_named};
ghost use Rattle.decide.specs.Reaching.{marked};
ghost use Rattle.learn.specs.Copying.{Renamed};
ghost use Rattle.learn.specs.Tidying.{MemoryTold, lines_name, lines_told, Lined, tidy_answer_told, TidiedAnswer};

use crate::dropping::drop_never;
use crate::tidying::{Marks, Moves, tidy_marked};
use condition::{MOST_NODES, Refusal, store_count};
use decide::whole_lines;
use list::{any_lines_named, line_size};
use std::alloc::Global;

// Puts tidy conditions in the place of those of an answer's lines, as many as are named and so many cells wide; leaves out the lines whose
// condition has become never, the others moving up in order, and tells how many are left. Nodes are only added behind those that stand. A
// refusal leaves both slices as they were; want of memory is told only where no other refusal applies.
pub fn tidy_answer(
    heap: Global,
    nodes: &mut [u64],
    answer: &mut [u64],
    lines: u64,
    width: u64,
) -> Result<u64, Refusal>
    ensures refusal { MemoryTold (tidy_answer_told nodes.old answer.old lines width) result }
    ensures kept { OnErr result ((nodes.new ≡ nodes.old) × (answer.new ≡ answer.old)) }
    ensures tidied { IfOk result (λ m. TidiedAnswer nodes.old answer.old lines width m nodes.new answer.new) }
{
    check_lines(nodes, answer, lines, width)?;
    let roots = mark_lines(answer, lines as usize, width as usize);
    let moves = tidy_marked(heap, nodes, &roots)?;
    write_places(answer, lines as usize, width as usize, &moves);
    let left = drop_never(nodes, answer, lines as usize, width as usize);
    Ok(left as u64)
}

// Whether an answer has n lines, w cells wide, over a store, or why not.
fn check_lines(nodes: &[u64], answer: &[u64], n: u64, w: u64) -> Result<(), Refusal>
    ensures refusal { outcome result ≡ lines_told nodes.now answer.now n w }
    ensures lined { OnOk result (Lined nodes.now answer.now n w) }
{
    let count = store_count(nodes)?;
    let whole = whole_lines(answer, n, w);
    if !any_lines_named(answer, whole, w as usize, count) {
        return Err(Refusal::NoSuchNode(9));
    }
    if whole as u64 != n {
        return Err(Refusal::AnswerTooShort(answer.len() as u64));
    }
    Ok(())
}

// A mark for each node that one of the n lines, w cells wide, names.
fn mark_lines(answer: &[u64], n: usize, w: usize) -> Marks
    requires whole { n * line_size w ≤ length answer.now }
    requires inside { (i : ℕ) → i < n → slice_index answer.now (i * line_size w) < 131072 }
    ensures { (j : ℕ) → marked result j ≡ lines_name n w answer.now j }
{
    let mut marks = [false; MOST_NODES as usize];
    for i in 0..n {
        marks[answer[i * line_size(w)] as usize] = true;
    }
    marks
}

// Writes for each of the n lines, w cells wide, the place where the condition of its node went.
fn write_places(answer: &mut [u64], n: usize, w: usize, moves: &Moves)
    requires whole { n * line_size w ≤ length answer.old }
    requires inside { (i : ℕ) → i < n → slice_index answer.old (i * line_size w) < length moves.now.places.items }
    requires moved { (i : ℕ) → i < n → slice_index moves.now.places.items (slice_index answer.old (i * line_size w)) < length moves.now.copies.items }
    ensures { Renamed (λ j. slice_index moves.now.copies.items (slice_index moves.now.places.items j)) n w answer.old answer.new }
{
    for i in 0..n {
        let at = i * line_size(w);
        answer[at] = moves.place(answer[at]);
    }
}
