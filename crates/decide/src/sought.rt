// A row looked for in an answer over a store.
ghost use Rattle.std.specs.Prelude.{◌≡◌, ◌+◌, ◌*◌, ◌<◌, ◌≤◌, true, length};
ghost use Rattle.condition.specs.Store.{count};
ghost use Rattle.list.specs.Layout.{line_size, lines_fit, lines_named};

use crate::marked::{Marked, Marks};
use list::Lines;

// A store, the place of what is known in it, an answer of so many lines, and a row that is as wide.
#[derive(Clone, Copy)]
pub(crate) struct Sought<'a> {
    pub(crate) nodes: &'a [u64],
    pub(crate) known: u64,
    pub(crate) answer: &'a [u64],
    pub(crate) lines: usize,
    pub(crate) row: &'a [u64],
    ghost store: { 1 + 5 * count nodes.now ≤ length nodes.now },
    ghost small: { count nodes.now ≤ 131072 },
    ghost stands: { known < count nodes.now },
    ghost whole: { lines * line_size (length row.now) ≤ length answer.now },
    ghost cells: { lines_fit lines (length row.now) answer.now ≡ true },
    ghost named: { lines_named (count nodes.now) lines (length row.now) answer.now ≡ true },
}

impl<'a> Sought<'a> {
    ghost use Rattle.list.specs.Lines.{starts, lines_left};

    // How many nodes the store has.
    pub(crate) fn count(&self) -> usize
        ensures { result ≡ count self.now.nodes.now }
    {
        self.nodes[0] as usize
    }

    // The lines of the answer.
    pub(crate) fn answer_lines(&self) -> Lines<'a>
        ensures { lines_left result ≡ starts self.now.lines (length self.now.row.now) self.now.answer.now }
    {
        Lines::of(self.answer, self.lines, self.row.len())
    }

    // The nodes of the store, with these marks.
    pub(crate) fn marked<'m>(&self, marks: &'m Marks) -> Marked<'a, 'm>
        ensures nodes { result.nodes.now ≡ self.now.nodes.now }
        ensures all { result.n ≡ count self.now.nodes.now }
        ensures marks { result.marks.now ≡ marks.now }
    {
        Marked {
            nodes: self.nodes,
            n: self.count(),
            marks,
        }
    }
}
