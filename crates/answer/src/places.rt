// Where the nodes of an answer's lines stand, and which cells its lines have: both are computed, so that no inner answer is kept.
ghost use Rattle.std.specs.Prelude.{◌≡◌, ◌+◌, ◌-◌, ◌*◌, ◌<◌, ◌≤◌};
ghost use Rattle.condition.specs.Shapes.{cell_of};
ghost use Rattle.answer.specs.Plan.{many, wide, size};
ghost use Rattle.answer.specs.Sides.{plan, node, cells};
ghost use Rattle.answer.specs.Laid.{last_of};

use crate::side::Side;
use crate::split::Split;
use condition::Cell;

impl Side<'_> {
    // The node of line i.
    pub(crate) fn place(&self, i: u64) -> u64
        requires { i < many (plan self.now) }
        ensures { result ≡ node self.now i }
    {
        match self.split() {
            Split::Rows(shape) => shape.line(self.asked.lists, i as usize).node(),
            Split::Keep(..) => self.last(i, 3),
            Split::Columns(_, p) => p.place(i),
            Split::Join(..) => self.last(i, 1),
            Split::Union(p, q) => {
                let lines = p.lines();
                if i < lines {
                    p.place(i)
                } else {
                    q.place(i - lines)
                }
            }
            Split::Without(p, q) => {
                let others = q.lines();
                if others == 0 {
                    p.place(i)
                } else {
                    self.last(i, others * (2 * p.width() as u64 + 3))
                }
            }
        }
    }

    // The last node of line i, where the question's nodes end with s for each line.
    fn last(&self, i: u64, s: u64) -> u64
        requires line { i < many (plan self.now) }
        requires some { 1 ≤ s }
        requires room { many (plan self.now) * s ≤ size (plan self.now) }
        ensures { result ≡ last_of (self.now.base + size (plan self.now) - many (plan self.now) * s) s i }
    {
        self.end() - self.lines() * s + i * s + s - 1
    }

    // The cell in column a of line i.
    pub(crate) fn cell(&self, i: u64, a: usize) -> Cell
        requires line { i < many (plan self.now) }
        requires column { a < wide (plan self.now) }
        ensures { cell_of result ≡ cells self.now i a }
    {
        match self.split() {
            Split::Rows(shape) => shape.line(self.asked.lists, i as usize).cell(a),
            Split::Keep(_, p) => p.cell(i, a),
            Split::Columns(columns, p) => p.cell(i, columns[a]),
            Split::Join(p, q) => {
                let width = p.width();
                let lines = q.lines();
                if a < width {
                    p.cell(i / lines, a)
                } else {
                    q.cell(i % lines, a - width)
                }
            }
            Split::Union(p, q) => {
                let lines = p.lines();
                if i < lines {
                    p.cell(i, a)
                } else {
                    q.cell(i - lines, a)
                }
            }
            Split::Without(p, _) => p.cell(i, a),
        }
    }
}
