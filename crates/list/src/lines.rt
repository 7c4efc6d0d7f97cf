// Lines one after the other: each is the part of a slice that starts with the node of its condition, and its cells follow.
ghost use Rattle.std.specs.Prelude.{◌≡◌, ◌+◌, ◌*◌, ◌^◌, ◌<◌, ◌≤◌, length, drop};
ghost use Rattle.list.specs.Layout.{line_size};

use crate::Shape;
use condition::{Cell, cell_at};

// How many numbers a line takes that is w cells wide.
pub fn line_size(w: usize) -> usize
    requires { line_size w < 2 ^ 64 }
    ensures { result ≡ line_size w }
{
    1 + 2 * w
}

// A line of so many cells, and what stands behind it.
#[derive(Clone, Copy)]
pub struct Line<'a> {
    pub numbers: &'a [u64],
    pub width: usize,
    pub ghost long: { line_size width ≤ length numbers.now },
}

impl<'a> Line<'a> {
    ghost use Rattle.std.specs.Prelude.{slice_index};
    ghost use Rattle.condition.specs.Store.{cell_in};
    ghost use Rattle.condition.specs.Shapes.{cell_of};

    // The node of its condition.
    pub fn node(&self) -> u64
        ensures { result ≡ slice_index self.now.numbers.now 0 }
    {
        self.numbers[0]
    }

    // Its cell in column a.
    pub fn cell(&self, a: usize) -> Cell
        requires { a < self.now.width }
        ensures { cell_of result ≡ cell_in (slice_index self.now.numbers.now (1 + 2 * a)) (slice_index self.now.numbers.now (2 + 2 * a)) }
    {
        cell_at(self.numbers, 1 + 2 * a)
    }

    // The numbers of its cells, and what stands behind them.
    pub(crate) fn cells(&self) -> &'a [u64]
        ensures { result.now ≡ drop 1 self.now.numbers.now }
    {
        &self.numbers[1..]
    }
}

impl Shape {
    // Line i of the list of this shape.
    pub fn line<'a>(self, lists: &'a [u64], i: usize) -> Line<'a>
        requires inside { i < self.lines }
        requires whole { self.at + self.lines * line_size self.width ≤ length lists.now }
        ensures is { result.numbers.now ≡ drop (self.at + i * line_size self.width) lists.now }
        ensures width { result.width ≡ self.width }
    {
        Line {
            numbers: &lists[self.at + i * line_size(self.width)..],
            width: self.width,
        }
    }
}

// Lines that stand one after the other, as many as are left.
#[derive(Drop)]
pub struct Lines<'a> {
    rest: &'a [u64],
    count: usize,
    width: usize,
    ghost whole: { count * line_size width ≤ length rest.now },
}

impl<'a> Lines<'a> {
    ghost use Rattle.list.specs.Lines.{starts, lines_left};

    // The n lines at the front of a slice, w cells wide.
    pub fn of(xs: &'a [u64], n: usize, w: usize) -> Lines<'a>
        requires { n * line_size w ≤ length xs.now }
        ensures { lines_left result ≡ starts n w xs.now }
    {
        Lines {
            rest: xs,
            count: n,
            width: w,
        }
    }
}

impl<'a> Iterator for Lines<'a> {
    ghost use Rattle.std.specs.Iterator.{YieldsFirstBy, item_count};
    ghost use Rattle.list.specs.Lines.{shown, lines_left};

    type Item = Line<'a>;

    ghost next_gives = { YieldsFirstBy shown lines_left };

    ghost remaining = { item_count lines_left };

    fn next(&mut self) -> Option<Line<'a>> {
        let count = self.count.checked_sub(1)?;
        let line = Line {
            numbers: self.rest,
            width: self.width,
        };
        *self = Lines {
            rest: &self.rest[line_size(self.width)..],
            count,
            width: self.width,
        };
        Some(line)
    }
}

impl DoubleEndedIterator for Lines<'_> {
    ghost use Rattle.std.specs.Iterator.{YieldsLastBy};
    ghost use Rattle.list.specs.Lines.{shown, lines_left};

    ghost next_back_gives = { YieldsLastBy shown lines_left };

    fn next_back(&mut self) -> Option<Self::Item> {
        let last = self.count.checked_sub(1)?;
        self.count = last;
        Some(Line {
            numbers: &self.rest[last * line_size(self.width)..],
            width: self.width,
        })
    }
}
