// The filling that decides which rows may be sure.
ghost use Rattle.std.specs.Prelude.{◌≡◌, ℕ, ◌<◌, ◌≤◌, true, AllPairs, length, take, drop, reverse, IfOk, IfErr, ◌++◌, slice_index};
ghost use Rattle.std.specs.List.Sorted.{IsNonDecreasing, IsPermutation};
ghost use Rattle.condition.specs.Cond.{has};
ghost use Rattle.condition.specs.declared.Refusal.TheVariants.{NoMemory};
ghost use Rattle.decide.specs.Choice.{owner, stand_in, number_of};
ghost use Rattle.decide.specs.Picking.{OthersFirst};
ghost use Rattle.decide.specs.Search.{tried};
ghost use Rattle.decide.specs.Shapes.{value_of, chosen_of};
ghost use Rattle.decide.specs.SureSteps.{ChosenFor};
ghost use Rattle.decide.specs.Sought.{known_of};
ghost use Rattle.decide.specs.Surveying.{FewNamed};

use crate::candidates::{Choice, Chosen};
use crate::coning::build_cone;
use crate::gaps::first_place;
use crate::picking::pick_first;
use crate::rows::Row;
use crate::simplifying::ALWAYS;
use crate::surveying::Survey;
use crate::task::{Goal, Task};
use crate::words::Pair;
use arrayvec::ArrayVec;
use condition::Refusal;
use std::alloc::Global;

// The filling that fits what is known and gives a gap a number that stands nowhere wherever it can, if any filling fits; refused only
// for want of memory.
pub(crate) fn choose(heap: Global, survey: &Survey, gaps: &[u64]) -> Result<Option<Chosen>, Refusal>
    requires { FewNamed survey.now.notes gaps.now }
    ensures refused { IfErr result (λ e. e ≡ NoMemory) }
    ensures chosen { IfOk result (ChosenFor (known_of survey.now.sought)) }
{
    let cone = build_cone(heap, survey)?;
    let goal = Goal {
        known: cone.goal.known,
        shows: ALWAYS,
    };
    let task = Task::of(cone.nodes.as_slice(), goal, gaps, survey.notes.numbers());
    let mut values = vec![in heap; Pair::default(); task.cone[0] as usize]?;
    let order = others_first(&task);
    let Some(row) = pick_first(&task, &order, values.as_mut_slice()) else {
        return Ok(None);
    };
    Ok(Some(chosen(&task, &row)))
}

// The numbers to try, those that stand nowhere first: the fresh ones, the last of them first, and then the named ones as they rise.
fn others_first(task: &Task) -> ArrayVec<u64, 14>
    ensures order { OthersFirst task.now result.items }
    ensures all { (k : ℕ) → k < length task.now.pool.items → has result.items (slice_index task.now.pool.items k) ≡ true }
{
    let (named, fresh) = task.pool.split_at(task.named);
    let mut order = ArrayVec::new();
    for number in fresh.iter().rev() {
        order.push(*number);
    }
    order.try_extend_from_slice(&risen(named)).unwrap();
    order
}

// Numbers as they rise.
fn risen(numbers: &[u64]) -> ArrayVec<u64, 14>
    requires { length numbers.now ≤ 14 }
    ensures rising { IsNonDecreasing result.items }
    ensures same { IsPermutation numbers.now result.items }
{
    let mut risen = ArrayVec::new();
    risen.try_extend_from_slice(numbers).unwrap();
    risen.sort_unstable();
    risen
}

// What a row gives each gap, where its fresh numbers stand nowhere.
fn chosen(task: &Task, row: &Row) -> Chosen
    ensures six { length row.now.numbers ≡ 6 }
    ensures each { (k : ℕ) → chosen_of result k ≡ number_of (tried task.now) (take task.now.named task.now.pool.items) row.now.numbers k }
{
    let mut choices = [Choice::Nowhere(0); 64];
    for gap in 0..64 {
        choices[gap] = choice(task, row, gap as u64);
    }
    Chosen { choices }
}

// What it gives one gap.
fn choice(task: &Task, row: &Row, gap: u64) -> Choice
    ensures { value_of result ≡ number_of (tried task.now) (take task.now.named task.now.pool.items) row.now.numbers gap }
{
    match task.gaps.place(gap) {
        Some(place) => settled_choice(task, row, place),
        None => Choice::Nowhere(gap),
    }
}

// What it gives the gap at a place: a named number as it is, and for any other that of the first gap that has it.
fn settled_choice(task: &Task, row: &Row, place: usize) -> Choice
    requires { place < length (tried task.now) }
    ensures { value_of result ≡ stand_in (tried task.now) (take task.now.named task.now.pool.items) row.now.numbers place }
{
    let number = row.numbers[place];
    if task.pool[..task.named].contains(&number) {
        Choice::Number(number)
    } else {
        Choice::Nowhere(task.gaps.names[owner(row, place)])
    }
}

// The first place that has the number at a place.
#[tactic(auto, unfolding(crate::specs::Rows::place))]
fn owner(row: &Row, place: usize) -> usize
    requires { place < length row.now.numbers }
    ensures is { result ≡ owner row.now.numbers place }
    ensures low { result ≤ place }
{
    first_place(&row.numbers, row.numbers[place]).unwrap_or(place)
}
