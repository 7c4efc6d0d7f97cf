// What decides a row, copied into a cone.
ghost use Rattle.std.specs.Prelude.{◌≡◌, ℕ, ◌+◌, ◌*◌, ◌<◌, ◌≤◌, length, IfSome, IfOk, IfErr};
ghost use Rattle.condition.specs.Store.{count};
ghost use Rattle.condition.specs.declared.Refusal.TheVariants.{NoMemory};
ghost use Rattle.decide.specs.Cones.{Coned};
ghost use Rattle.decide.specs.Counting.{counted};
ghost use Rattle.decide.specs.Reaching.{marked};
ghost use Rattle.decide.specs.Showing.{nodes_for};
ghost use Rattle.decide.specs.Sought.{known_of, deciding_of};

use crate::building::{Cone, begin};
use crate::surveying::Survey;
use crate::task::Goal;
use condition::Refusal;
use std::alloc::Global;

// A store with what decides a row, and the places of what is known and of the row's condition.
#[derive(Drop)]
pub(crate) struct RowCone {
    pub(crate) nodes: Vec<u64>,
    pub(crate) goal: Goal,
}

// Copies what is known and what decides a row into a cone of its own; refused only for want of memory.
pub(crate) fn build_cone(heap: Global, survey: &Survey) -> Result<RowCone, Refusal>
    ensures refused { IfErr result (λ e. e ≡ NoMemory) }
    ensures coned { IfOk result (λ c. Coned (known_of survey.now.sought) (deciding_of survey.now.sought) survey.now.sought.row.now c.nodes.items c.goal) }
{
    let sought = &survey.sought;
    let marks = survey.marks;
    let count = sought.count();
    let marked = count_marks(marks, count);
    let size = cone_size(marked, sought.count_lines(), sought.row.len()).ok_or(Refusal::NoMemory)?;
    let mut cone = vec![in heap; 0u64; size]?;
    let mut places = vec![in heap; 0u64; count]?;
    let mut index = vec![in heap; 0u64; size / 2 + 1]?;
    let goal = fill_cone(
        survey,
        places.as_mut_slice(),
        cone.as_mut_slice(),
        index.as_mut_slice(),
    );
    Ok(RowCone { nodes: cone, goal })
}

// How many numbers a cone takes for so many nodes and, for each of so many lines, two nodes a cell and two more.
fn cone_size(marked: usize, lines: usize, w: usize) -> Option<usize>
    ensures { IfSome result (λ s. s ≡ 1 + 5 * (2 + marked + lines * (2 * w + 2))) }
{
    let each = w.checked_mul(2)?.checked_add(2)?;
    let nodes = lines
        .checked_mul(each)?
        .checked_add(marked)?
        .checked_add(2)?;
    nodes.checked_mul(5)?.checked_add(1)
}

// Copies what is known and what decides a row into a cone, and gives the places of the two conditions.
fn fill_cone(survey: &Survey, places: &mut [u64], cone: &mut [u64], index: &mut [u64]) -> Goal
    requires room { 1 + 5 * (2 + counted (count survey.now.sought.nodes.now) (marked survey.now.marks.now) + nodes_for (length survey.now.sought.row.now) (deciding_of survey.now.sought)) ≤ length cone.old }
    requires scratch { (count survey.now.sought.nodes.now ≤ length places.old) × (0 < length index.old) }
    ensures { Coned (known_of survey.now.sought) (deciding_of survey.now.sought) survey.now.sought.row.now cone.new result }
{
    let sought = &survey.sought;
    let marks = survey.marks;
    begin(cone);
    let mut cone = Cone { nodes: cone, index };
    cone.fold(sought.nodes, sought.nodes[0], marks, places);
    let shows = cone.show_row(sought, places);
    Goal {
        known: places[sought.known as usize],
        shows,
    }
}

// How many of the first n marks are set.
pub fn count_marks(marks: &[bool], n: usize) -> usize
    requires { n ≤ length marks.now }
    ensures { result ≡ counted n (marked marks.now) }
{
    marks[..n].iter().filter(|set| **set).count()
}
