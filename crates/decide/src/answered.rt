// An answer over a store, checked.
ghost use Rattle.std.specs.Prelude.{◌≡◌, ◌+◌, ◌*◌, ◌<◌, ◌≤◌, true, [], length};
ghost use Rattle.condition.specs.Store.{count};
ghost use Rattle.list.specs.Layout.{line_size, lines_fit, lines_named};

use crate::sought::Sought;
use list::Lines;

// A store, the place of what is known in it, and an answer of so many lines, so many cells wide.
#[derive(Clone, Copy)]
pub(crate) struct Answered<'a> {
    pub(crate) nodes: &'a [u64],
    pub(crate) known: u64,
    pub(crate) answer: &'a [u64],
    pub(crate) lines: usize,
    pub(crate) width: usize,
    ghost store: { 1 + 5 * count nodes.now ≤ length nodes.now },
    ghost small: { count nodes.now ≤ 131072 },
    ghost stands: { known < count nodes.now },
    ghost whole: { lines * line_size width ≤ length answer.now },
    ghost cells: { lines_fit lines width answer.now ≡ true },
    ghost named: { lines_named (count nodes.now) lines width answer.now ≡ true },
}

impl<'a> Answered<'a> {
    ghost use Rattle.list.specs.Lines.{starts, lines_left};

    // Its lines.
    pub(crate) fn answer_lines(&self) -> Lines<'a>
        ensures { lines_left result ≡ starts self.now.lines self.now.width self.now.answer.now }
    {
        Lines::of(self.answer, self.lines, self.width)
    }

    // A row looked for in it.
    pub(crate) fn seek(self, row: &'a [u64]) -> Sought<'a>
        requires { length row.now ≡ self.width }
        ensures nodes { (result.nodes.now ≡ self.entry.nodes.now) × (result.known ≡ self.entry.known) }
        ensures answer { (result.answer.now ≡ self.entry.answer.now) × (result.lines ≡ self.entry.lines) }
        ensures row { result.row.now ≡ row.now }
    {
        Sought {
            nodes: self.nodes,
            known: self.known,
            answer: self.answer,
            lines: self.lines,
            row,
        }
    }

    // No line and no row: what is known alone.
    pub(crate) fn seek_nothing(self) -> Sought<'a>
        ensures nodes { (result.nodes.now ≡ self.entry.nodes.now) × (result.known ≡ self.entry.known) }
        ensures answer { result.lines ≡ 0 }
        ensures row { result.row.now ≡ [] }
    {
        Sought {
            nodes: self.nodes,
            known: self.known,
            answer: self.answer,
            lines: 0,
            row: &[],
        }
    }
}
