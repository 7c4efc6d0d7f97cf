// A question that was read, over the lists that it is asked of.
ghost use Rattle.std.specs.Prelude.{◌+◌, ◌≤◌};
ghost use Rattle.answer.specs.Plan.{size};
ghost use Rattle.answer.specs.Planned.{plan_of, Sound};
ghost use Rattle.answer.specs.Once.{Sound-prop};

use list::Shapes;
use query::Part;

// The lists that a question is asked of, their shapes, and how many nodes stood before; there stands the node that says always.
#[derive(Clone, Copy)]
pub(crate) struct Asked<'a> {
    pub(crate) lists: &'a [u64],
    pub(crate) shapes: &'a Shapes,
    pub(crate) first: u64,
}

// A question at the front of the parts that are left, read at most `left` parts deep, whose nodes begin at base.
#[derive(Clone, Copy)]
pub(crate) struct Side<'a> {
    pub(crate) asked: Asked<'a>,
    pub(crate) parts: &'a [Part],
    pub(crate) left: u64,
    pub(crate) base: u64,
    // The parts say what the numbers of its plan are, and the plan fits the lists.
    pub(crate) ghost sound: { Sound left asked.shapes.now parts.now asked.lists.now asked.first } by { Sound-prop left asked.shapes.now parts.now asked.lists.now asked.first },
    // Its nodes end at a place that is far from the greatest number.
    pub(crate) ghost low: { base + size (plan_of left asked.shapes.now parts.now) ≤ 1000000 },
}
