// The nodes of an answer's lines, laid behind those that stand: first those of a question's first subquestion, then those of its
// second, then its own, line by line.
ghost use Rattle.std.specs.Prelude.{◌≡◌, ◌*◌, ◌<◌, true, cond as if};
ghost use Rattle.condition.specs.Store.{count, has_name};
ghost use Rattle.condition.specs.Shapes.{cell_of};
ghost use Rattle.query.specs.Shapes.{test_of};
ghost use Rattle.answer.specs.Plan.{many, wide, size, compared, alike, Inside};
ghost use Rattle.answer.specs.Sides.{plan, node, cells};
ghost use Rattle.answer.specs.Laid.{Room, Based, Stand, Last, Added, Laid, kept, joined};

use crate::less::Less;
use crate::side::Side;
use crate::split::Split;
use condition::{Cell, Node, add};
use query::Test;

impl Side<'_> {
    // Lays the question's nodes behind those that stand.
    pub(crate) fn lay(&self, nodes: &mut [u64])
        requires based { Based self.now.asked.first nodes.old }
        requires base { self.now.base ≡ count nodes.old }
        requires room { Room (size (plan self.now)) nodes.old }
        ensures { Laid self.now nodes.old nodes.new }
    {
        match self.split() {
            Split::Rows(_) => {}
            Split::Keep(test, p) => {
                p.lay(nodes);
                p.keep_lines(test, nodes);
            }
            Split::Columns(_, p) => p.lay(nodes),
            Split::Join(p, q) => {
                p.lay(nodes);
                q.lay(nodes);
                join_lines(&p, &q, nodes);
            }
            Split::Union(p, q) => {
                p.lay(nodes);
                q.lay(nodes);
            }
            Split::Without(p, q) => {
                p.lay(nodes);
                q.lay(nodes);
                if q.lines() > 0 {
                    Less { p, q }.lay_lines(nodes);
                }
            }
        }
    }

    // Adds a test to the condition of each line.
    fn keep_lines(&self, test: Test, nodes: &mut [u64])
        requires stand { Stand self.now (count nodes.old) }
        requires inside { Inside (test_of test) (wide (plan self.now)) }
        requires room { Room (many (plan self.now) * 3) nodes.old }
        ensures { Added (kept nodes.old self.now (test_of test)) 3 (many (plan self.now)) nodes.old nodes.new }
    {
        for i in 0..self.lines() {
            self.keep_line(test, i, nodes);
        }
    }

    // Adds a test to the condition of line i: that the cells are equal, that they are not, and the condition with one of the two.
    fn keep_line(&self, test: Test, i: u64, nodes: &mut [u64])
        requires line { i < many (plan self.now) }
        requires stands { node self.now i < count nodes.old }
        requires inside { Inside (test_of test) (wide (plan self.now)) }
        requires room { Room 3 nodes.old }
        ensures { Last 3 (kept nodes.old self.now (test_of test) i) nodes.old nodes.new }
    {
        let c = self.place(i);
        let (x, y) = self.compared(test, i);
        let equal = add(nodes, Node::Equal(x, y));
        let differ = add(nodes, Node::Not(equal));
        add(nodes, Node::Both(c, passed(test, equal, differ)));
    }

    // The two cells of line i that a test compares.
    fn compared(&self, test: Test, i: u64) -> (Cell, Cell)
        requires line { i < many (plan self.now) }
        requires inside { Inside (test_of test) (wide (plan self.now)) }
        ensures is { (cell_of result.0, cell_of result.1) ≡ compared (test_of test) (cells self.now i) }
        ensures named { (has_name (cell_of result.0) ≡ true) × (has_name (cell_of result.1) ≡ true) }
    {
        match test {
            Test::Same(a, b) | Test::Differ(a, b) => (self.cell(i, a), self.cell(i, b)),
            Test::Is(a, n) | Test::IsNot(a, n) => (self.cell(i, a), Cell::Number(n)),
        }
    }
}

// The node of the two that says that a line passes a test.
fn passed(test: Test, equal: u64, differ: u64) -> u64
    ensures { result ≡ if (alike (test_of test)) equal differ }
{
    match test {
        Test::Same(..) | Test::Is(..) => equal,
        Test::Differ(..) | Test::IsNot(..) => differ,
    }
}

// Each line of the first question with each of the second.
fn join_lines(p: &Side, q: &Side, nodes: &mut [u64])
    requires first { Stand p.now (count nodes.old) }
    requires second { Stand q.now (count nodes.old) }
    requires room { Room (many (plan p.now) * many (plan q.now)) nodes.old }
    ensures { Added (joined nodes.old p.now q.now) 1 (many (plan p.now) * many (plan q.now)) nodes.old nodes.new }
{
    let lines = q.lines();
    for i in 0..p.lines() * lines {
        let c = p.place(i / lines);
        let d = q.place(i % lines);
        add(nodes, Node::Both(c, d));
    }
}
