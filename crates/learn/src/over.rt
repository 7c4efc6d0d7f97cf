// Writing over: it is learned that a gap is a number, and the number is written in the place of the gap.
ghost use Rattle.std.specs.Prelude.{◌≡◌, OnErr, OnOk};
ghost use Rattle.condition.specs.Refusals.{outcome};
ghost use Rattle.learn.specs.Over.{NumberTold, Numbered, Overwritten, AnswerOver};
ghost use Rattle.learn.specs.Tidying.{short_told};

use crate::places::{over_lines, over_lists, over_nodes};
use condition::{Cell, Node, Refusal, add, room};
use decide::{decide_row, whole_lines};
use list::{check, check_lists};
use std::alloc::Global;

// It is learned that a gap is a number, and the number is written over the gap in the lists and in all conditions that stood; what is
// known becomes both of what was known, so written, and that the gap is the number. A refusal leaves both slices as they were; want of
// memory is told only where no other refusal but 10 applies.
pub fn write_over(
    heap: Global,
    lists: &mut [u64],
    nodes: &mut [u64],
    gap: u64,
    number: u64,
) -> Result<(), Refusal>
    ensures refusal { NumberTold lists.old nodes.old gap number result }
    ensures kept { OnErr result ((lists.new ≡ lists.old) × (nodes.new ≡ nodes.old)) }
    ensures over { OnOk result (Overwritten lists.old nodes.old gap number lists.new nodes.new) }
{
    check_number(heap, lists, nodes, gap, number)?;
    over_lists(lists, gap, number);
    over_nodes(nodes, gap, number);
    let is = add(nodes, Node::Equal(Cell::Gap(gap), Cell::Number(number)));
    let known = add(nodes, Node::Both(lists[1], is));
    lists[1] = known;
    Ok(())
}

// Whether it can be learned that a gap is a number, or why not.
fn check_number(
    heap: Global,
    lists: &[u64],
    nodes: &[u64],
    gap: u64,
    number: u64,
) -> Result<(), Refusal>
    ensures refusal { NumberTold lists.now nodes.now gap number result }
    ensures numbered { OnOk result (Numbered lists.now nodes.now gap number) }
{
    check_lists(lists)?;
    if gap > 63 {
        return Err(Refusal::BadLists(9));
    }
    check(lists, nodes)?;
    let room = room(nodes)?;
    if room < 2 {
        return Err(Refusal::StoreFull(room));
    }
    // As the only line of an answer the gap gives one row for each of its numbers: possible exactly if some filling that fits gives it.
    let cell = <[u64; 2]>::from(Cell::Gap(gap));
    let line = [lists[1], cell[0], cell[1]];
    let standing = decide_row(heap, lists, nodes, &line, 1, 1, &[number])?;
    if !standing.is_possible() {
        return Err(Refusal::WouldNotFit(nodes[0]));
    }
    Ok(())
}

// Writes the number over the gap in the cells of an answer of so many lines, so many cells wide. The conditions of its lines are the
// store's, where `write_over` writes it. Nothing changes where the slice is too short.
pub fn write_over_answer(
    answer: &mut [u64],
    lines: u64,
    width: u64,
    gap: u64,
    number: u64,
) -> Result<(), Refusal>
    ensures refusal { outcome result ≡ short_told lines width answer.old }
    ensures kept { OnErr result (answer.new ≡ answer.old) }
    ensures over { OnOk result (AnswerOver gap number lines width answer.old answer.new) }
{
    let whole = whole_lines(answer, lines, width);
    if whole as u64 != lines {
        return Err(Refusal::AnswerTooShort(answer.len() as u64));
    }
    over_lines(answer, 0, whole, width as usize, gap, number);
    Ok(())
}
