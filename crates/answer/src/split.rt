// A question by its sign and the questions below it.
ghost use Rattle.std.specs.Prelude.{◌≡◌, ◌+◌, ◌≤◌};
ghost use Rattle.answer.specs.Plan.{many, wide, size};
ghost use Rattle.answer.specs.Sides.{plan, below, Begins, Under, Splits};

use crate::side::Side;
use list::Shape;
use query::{Sign, Test};

// A sign, with the questions that it needs.
#[derive(Clone, Copy)]
pub(crate) enum Split<'a> {
    Rows(Shape),
    Keep(Test, Side<'a>),
    Columns(&'a [usize], Side<'a>),
    Join(Side<'a>, Side<'a>),
    Union(Side<'a>, Side<'a>),
    Without(Side<'a>, Side<'a>),
}

impl<'a> Side<'a> {
    // Its sign, with the questions below it. Inlined, so that only what is looked at is made: asking takes half the time or less.
    #[inline(always)]
    pub(crate) fn split(&self) -> Split<'a>
        ensures { Splits self.now result }
    {
        match &self.parts[0].sign {
            Sign::Rows(t) => Split::Rows(self.asked.shapes.get(*t).unwrap()),
            Sign::Keep(test) => Split::Keep(*test, self.below(1, self.base)),
            Sign::Columns(columns) => {
                Split::Columns(columns.as_slice(), self.below(1, self.base))
            }
            Sign::Join(second) => {
                let p = self.below(1, self.base);
                Split::Join(p, self.below(*second, p.end()))
            }
            Sign::Union(second) => {
                let p = self.below(1, self.base);
                Split::Union(p, self.below(*second, p.end()))
            }
            Sign::Without(second) => {
                let p = self.below(1, self.base);
                Split::Without(p, self.below(*second, p.end()))
            }
        }
    }

    // The question that begins k parts further on, with its nodes from base on.
    fn below(&self, k: usize, base: u64) -> Side<'a>
        requires { Begins self.now k base }
        ensures is { plan result ≡ below self.now k }
        ensures under { Under self.now result base }
    {
        Side {
            asked: self.asked,
            parts: &self.parts[k..],
            left: self.left - 1,
            base,
        }
    }

    // How many lines its answer has.
    pub(crate) fn lines(&self) -> u64
        ensures { result ≡ many (plan self.now) }
    {
        self.parts[0].lines
    }

    // How many columns.
    pub(crate) fn width(&self) -> usize
        ensures is { result ≡ wide (plan self.now) }
        ensures narrow { result ≤ 8 }
    {
        self.parts[0].width
    }

    // Where its nodes end.
    pub(crate) fn end(&self) -> u64
        ensures { result ≡ self.now.base + size (plan self.now) }
    {
        self.base + self.parts[0].cost
    }
}
