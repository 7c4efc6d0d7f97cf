// The nodes of a question's lines less those of another.
ghost use Rattle.std.specs.Prelude.{◌≡◌, ◌<◌};
ghost use Rattle.answer.specs.Plan.{many, wide};
ghost use Rattle.answer.specs.Sides.{plan};

use crate::side::Side;
use condition::{Node, add};

// Two questions, as wide as one another: the lines of the first, less those of the second, which has some.
#[derive(Clone, Copy)]
pub(crate) struct Less<'a> {
    pub(crate) p: Side<'a>,
    pub(crate) q: Side<'a>,
    pub(crate) ghost even: { wide (plan p) ≡ wide (plan q) },
    pub(crate) ghost some: { 0 < many (plan q) },
}

impl Less<'_> {
    ghost use Rattle.std.specs.Prelude.{◌≡◌, ◌+◌, ◌*◌, ◌<◌};
    ghost use Rattle.condition.specs.Store.{count};
    ghost use Rattle.answer.specs.Plan.{many, wide};
    ghost use Rattle.answer.specs.Sides.{plan};
    ghost use Rattle.answer.specs.Laid.{Room, Based, New, Last, Added, Ready, each, equal_lines, less_one, less};

    // Lays the nodes of all lines.
    pub(crate) fn lay_lines(&self, nodes: &mut [u64])
        requires ready { Ready self.now nodes.old }
        requires room { Room (many (plan self.now.p) * each self.now) nodes.old }
        ensures { Added (less nodes.old self.now (many (plan self.now.q))) (each self.now) (many (plan self.now.p)) nodes.old nodes.new }
    {
        for i in 0..self.p.lines() {
            self.lay_line(i, nodes);
        }
    }

    // Lays the nodes of line i.
    fn lay_line(&self, i: u64, nodes: &mut [u64])
        requires ready { Ready self.now nodes.old }
        requires line { i < many (plan self.now.p) }
        requires room { Room (each self.now) nodes.old }
        ensures { Last (each self.now) (less nodes.old self.now (many (plan self.now.q)) i) nodes.old nodes.new }
    {
        let mut c = self.p.place(i);
        for j in 0..self.q.lines() {
            c = self.spare(i, j, c, nodes);
        }
    }

    // The condition c, and that line j of the second question is not there with the cells of line i of the first.
    fn spare(&self, i: u64, j: u64, c: u64, nodes: &mut [u64]) -> u64
        requires ready { Ready self.now nodes.old }
        requires lines { (i < many (plan self.now.p)) × (j < many (plan self.now.q)) }
        requires stands { c < count nodes.old }
        requires room { Room (2 * wide (plan self.now.p) + 3) nodes.old }
        ensures new { New (2 * wide (plan self.now.p) + 3) result (less_one nodes.old self.now i j c) nodes.old nodes.new }
        ensures last { result + 1 ≡ count nodes.new }
    {
        let e = self.equal_cells(i, j, nodes);
        let d = self.q.place(j);
        let f = add(nodes, Node::Both(d, e));
        let g = add(nodes, Node::Not(f));
        add(nodes, Node::Both(c, g))
    }

    // That the cells of line i of the first question and of line j of the second are equal one by one.
    fn equal_cells(&self, i: u64, j: u64, nodes: &mut [u64]) -> u64
        requires based { Based self.now.p.asked.first nodes.old }
        requires lines { (i < many (plan self.now.p)) × (j < many (plan self.now.q)) }
        requires room { Room (2 * wide (plan self.now.p)) nodes.old }
        ensures { New (2 * wide (plan self.now.p)) result (equal_lines self.now i j) nodes.old nodes.new }
    {
        let mut e = self.p.asked.first;
        for a in (0..self.p.width()).rev() {
            let s = add(nodes, Node::Equal(self.p.cell(i, a), self.q.cell(j, a)));
            e = add(nodes, Node::Both(s, e));
        }
        e
    }
}
