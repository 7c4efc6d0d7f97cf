// Deciding how a row stands in an answer.
ghost use Rattle.std.specs.Prelude.{◌≡◌, Bool, is_some, IfOk, IfErr};
ghost use Rattle.condition.specs.declared.Refusal.TheVariants.{NoMemory};
ghost use Rattle.list.specs.Layout.{lines_in, known_in};
ghost use Rattle.decide.specs.Sought.{known_of, lines_of, deciding_of};
ghost use Rattle.decide.specs.Sides.{side};
ghost use Rattle.decide.specs.Standing.{standing, NineTold, DecideTold, TellsSure, TellsPossible, Decided, Found};
ghost use Rattle.decide.specs.Surveying.{FewNamed};

use crate::Standing;
use crate::checking::{check_answer, check_named_few};
use crate::coning::build_cone;
use crate::marked::Marks;
use crate::sides::Sides;
use crate::sought::Sought;
use crate::surveying::Survey;
use crate::task::Task;
use crate::trying::try_all;
use crate::words::Pair;
use condition::{MOST_NODES, Refusal};
use evaluate::Filling;
use std::alloc::Global;

// Fillings that fit what is known: one under which a row is in an answer of so many lines, so many cells wide, and one under which it is
// not, each unless there is none. All numbers may fill a gap. Nothing that is passed in changes; want of memory is told only where no other
// refusal applies.
pub fn row_fillings(
    heap: Global,
    lists: &[u64],
    nodes: &[u64],
    answer: &[u64],
    lines: u64,
    width: u64,
    row: &[u64],
) -> Result<Sides<Option<Filling>>, Refusal>
    ensures refusal { DecideTold lists.now nodes.now answer.now lines width row.now result }
    ensures decided { IfOk result (λ f. Decided (known_in nodes.now lists.now) (lines_in nodes.now lines width answer.now) row.now (standing (is_some f.yes) (is_some f.no))) }
    ensures found { IfOk result (λ f. (t : Bool) → Found (known_in nodes.now lists.now) (lines_in nodes.now lines width answer.now) row.now t (side t f)) }
{
    // Made first: behind a refusal it would be cleared twice.
    let mut marks = [false; MOST_NODES as usize];
    check_answer(lists, nodes, answer, lines, width)?;
    if row.len() as u64 != width {
        return Err(Refusal::WrongWidth(row.len() as u64));
    }
    let sought = Sought {
        nodes,
        known: lists[1],
        answer,
        lines: lines as usize,
        row,
    };
    find(heap, sought, &mut marks)
}

// How a row stands, over all fillings of all numbers that fit what is known.
pub fn decide_row(
    heap: Global,
    lists: &[u64],
    nodes: &[u64],
    answer: &[u64],
    lines: u64,
    width: u64,
    row: &[u64],
) -> Result<Standing, Refusal>
    ensures refusal { DecideTold lists.now nodes.now answer.now lines width row.now result }
    ensures decided { IfOk result (Decided (known_in nodes.now lists.now) (lines_in nodes.now lines width answer.now) row.now) }
{
    let found = row_fillings(heap, lists, nodes, answer, lines, width, row)?;
    Ok(Standing::of(found.yes.is_some(), found.no.is_some()))
}

// How a row stands that is looked for in an answer.
pub(crate) fn decide(heap: Global, sought: Sought, marks: &mut Marks) -> Result<Standing, Refusal>
    ensures refusal { NineTold (known_of sought.entry) (deciding_of sought.entry) sought.entry.row.now result }
    ensures decided { IfOk result (Decided (known_of sought.entry) (lines_of sought.entry) sought.entry.row.now) }
{
    let found = find(heap, sought, marks)?;
    Ok(Standing::of(found.yes.is_some(), found.no.is_some()))
}

// Whether a row is sure: in the answer under every filling that fits what is known.
pub fn sure(
    heap: Global,
    lists: &[u64],
    nodes: &[u64],
    answer: &[u64],
    lines: u64,
    width: u64,
    row: &[u64],
) -> Result<bool, Refusal>
    ensures refusal { DecideTold lists.now nodes.now answer.now lines width row.now result }
    ensures sure { IfOk result (TellsSure (known_in nodes.now lists.now) (lines_in nodes.now lines width answer.now) row.now) }
{
    let standing = decide_row(heap, lists, nodes, answer, lines, width, row)?;
    Ok(standing.is_sure())
}

// Whether a row is possible: in the answer under some filling that fits what is known.
pub fn possible(
    heap: Global,
    lists: &[u64],
    nodes: &[u64],
    answer: &[u64],
    lines: u64,
    width: u64,
    row: &[u64],
) -> Result<bool, Refusal>
    ensures refusal { DecideTold lists.now nodes.now answer.now lines width row.now result }
    ensures possible { IfOk result (TellsPossible (known_in nodes.now lists.now) (lines_in nodes.now lines width answer.now) row.now) }
{
    let standing = decide_row(heap, lists, nodes, answer, lines, width, row)?;
    Ok(standing.is_possible())
}

// Fillings that show a row that is looked for, and that lack it.
fn find(heap: Global, sought: Sought, marks: &mut Marks) -> Result<Sides<Option<Filling>>, Refusal>
    ensures refusal { NineTold (known_of sought.entry) (deciding_of sought.entry) sought.entry.row.now result }
    ensures decided { IfOk result (λ f. Decided (known_of sought.entry) (lines_of sought.entry) sought.entry.row.now (standing (is_some f.yes) (is_some f.no))) }
    ensures found { IfOk result (λ f. (t : Bool) → Found (known_of sought.entry) (lines_of sought.entry) sought.entry.row.now t (side t f)) }
{
    let survey = sought.survey(marks);
    let gaps = check_named_few(&survey)?;
    find_surveyed(heap, &survey, &gaps)
}

// The same, once what decides the row is surveyed; refused only for want of memory.
fn find_surveyed(
    heap: Global,
    survey: &Survey,
    gaps: &[u64],
) -> Result<Sides<Option<Filling>>, Refusal>
    requires { FewNamed survey.now.notes gaps.now }
    ensures refused { IfErr result (λ e. e ≡ NoMemory) }
    ensures decided { IfOk result (λ f. Decided (known_of survey.now.sought) (lines_of survey.now.sought) survey.now.sought.row.now (standing (is_some f.yes) (is_some f.no))) }
    ensures found { IfOk result (λ f. (t : Bool) → Found (known_of survey.now.sought) (lines_of survey.now.sought) survey.now.sought.row.now t (side t f)) }
{
    let cone = build_cone(heap, survey)?;
    let task = Task::of(
        cone.nodes.as_slice(),
        cone.goal,
        gaps,
        survey.notes.numbers(),
    );
    let mut values = vec![in heap; Pair::default(); task.cone[0] as usize]?;
    Ok(try_all(&task, values.as_mut_slice()))
}
