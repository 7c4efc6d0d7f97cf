// Questions, read from their signs.
ghost use Rattle.std.specs.Prelude.{◌+◌, ◌^◌, ◌<◌, ◌≤◌, length, IfSome};

use crate::reading::{Input, List};
use crate::rows::Row;
use crate::telling::Refusal;
use std::alloc::Global;

const MOST_SIGNS: u8 = 16;

const MOST_WIDTH: u64 = 8;

const MOST_LINES: u64 = 4096;

const MOST_COST: u64 = 65536;

// The most that this program and ask_file take on.
const OWN_COST: u64 = 512;

// A test of a row, by columns and a number.
#[derive(Clone, Copy)]
pub enum Test {
    Same(u64, u64),
    Differ(u64, u64),
    Is(u64, u64),
    IsNot(u64, u64),
}

// How two answers are put together.
#[derive(Clone, Copy)]
pub enum Pairing {
    Join,
    Union,
    Without,
}

// The rows of a list, or what is made of the answers to the questions inside.
#[derive(Drop)]
pub enum Question {
    Rows(u64),
    Keep(Test, Box<Question>),
    Columns(Vec<u64>, Box<Question>),
    Pair(Pairing, Box<Question>, Box<Question>),
}

// How large the answer to a question is.
#[derive(Clone, Copy)]
pub struct Size {
    pub lines: u64,
    pub width: u64,
    pub cost: u64,
}

// What stands first of a question, which the questions that it needs follow.
#[derive(Clone, Copy)]
enum Sign {
    Rows(u64),
    Keep(Test),
    // How many columns, and which.
    Columns(u64, [u64; 4]),
    Pair(Pairing),
}

// The signs that are left to read, and how many were read. One that is of no kind is nothing.
#[derive(Drop)]
struct Signs<'a> {
    heap: Global,
    lists: &'a [List],
    place: u64,
    rest: &'a [Option<Sign>],
    ghost counted: { place + length rest.now < 2 ^ 64 },
}

// A question that was read, and how large its answer is.
#[derive(Drop)]
struct Part {
    question: Question,
    size: Size,
}

// A question of a file, and the rows asked about.
#[derive(Drop)]
pub struct Asked {
    pub question: Question,
    pub size: Size,
    // The numbers that stand in its signs.
    pub numbers: Vec<u64>,
    pub rows: Vec<Row>,
}

impl Test {
    // Whether its columns stand in a row so wide.
    fn fits(self, width: u64) -> bool {
        match self {
            Test::Same(a, b) | Test::Differ(a, b) => a < width && b < width,
            Test::Is(a, _) | Test::IsNot(a, _) => a < width,
        }
    }
}

impl Size {
    // Of the rows of a list.
    fn of(list: &List) -> Size {
        Size {
            lines: list.lines.len() as u64,
            width: list.columns,
            cost: 0,
        }
    }

    // Of the rows that pass a test; nothing where it does not fit them.
    fn kept(self, test: Test) -> Option<Size> {
        let own = self.lines.saturating_mul(3);
        test.fits(self.width).then_some(Size {
            cost: self.cost.saturating_add(own),
            ..self
        })
    }

    // Of these columns; nothing where there are none, or one that does not stand.
    fn cut(self, columns: &[u64]) -> Option<Size> {
        let fits = !columns.is_empty() && columns.iter().all(|a| *a < self.width);
        fits.then_some(Size {
            width: columns.len() as u64,
            ..self
        })
    }

    // Of two answers put together; nothing where their widths don't suit.
    fn paired(self, pairing: Pairing, other: Size) -> Option<Size> {
        let pairs = self.lines.saturating_mul(other.lines);
        let cost = self.cost.saturating_add(other.cost);
        match pairing {
            Pairing::Join => {
                let width = self.width.saturating_add(other.width);
                (width <= MOST_WIDTH).then_some(Size {
                    lines: pairs,
                    width,
                    cost: cost.saturating_add(pairs),
                })
            }
            Pairing::Union => (self.width == other.width).then_some(Size {
                lines: self.lines.saturating_add(other.lines),
                width: self.width,
                cost,
            }),
            Pairing::Without => {
                let own = pairs.saturating_mul(self.width.saturating_mul(2).saturating_add(3));
                (self.width == other.width).then_some(Size {
                    cost: cost.saturating_add(own),
                    ..self
                })
            }
        }
    }

    // That a question is not too large.
    pub fn check(&self) -> Result<(), Refusal> {
        below(MOST_LINES + 1, self.lines)?;
        below(MOST_COST + 1, self.cost)?;
        below(OWN_COST + 1, self.cost)
    }
}

// That a size is below the first one that is too large.
fn below(first: u64, size: u64) -> Result<(), Refusal> {
    if size < first {
        Ok(())
    } else {
        Err(Refusal::TooLarge(first))
    }
}

impl Sign {
    // The sign of these six numbers, if it is of any kind.
    fn of([kind, a, b, c, d, e]: [u64; 6]) -> Option<Sign> {
        Some(match kind {
            0 => Sign::Rows(a),
            1 => Sign::Keep(Test::Same(a, b)),
            2 => Sign::Keep(Test::Differ(a, b)),
            3 => Sign::Keep(Test::Is(a, b)),
            4 => Sign::Keep(Test::IsNot(a, b)),
            5 => Sign::Columns(a, [b, c, d, e]),
            6 => Sign::Pair(Pairing::Join),
            7 => Sign::Pair(Pairing::Union),
            8 => Sign::Pair(Pairing::Without),
            _ => return None,
        })
    }

    // The number that it compares with.
    fn number(self) -> Option<u64> {
        match self {
            Sign::Keep(Test::Is(_, n) | Test::IsNot(_, n)) => Some(n),
            _ => None,
        }
    }
}

impl Signs<'_> {
    fn next(&mut self) -> Option<Sign>
        ensures at_most { length self.new.rest.now ≤ length self.old.rest.now }
        ensures one_less { IfSome result (λ _. length self.new.rest.now < length self.old.rest.now) }
    {
        let sign = self.rest.split_off_first()?;
        self.place += 1;
        *sign
    }

    // The question that begins at the next sign; or the sign that can't be read.
    fn question(&mut self) -> Result<Part, Refusal>
        ensures { length self.new.rest.now ≤ length self.old.rest.now }
    {
        let heap = self.heap;
        let bad = Refusal::BadSign(self.place);
        let (question, size) = match self.next().ok_or(bad)? {
            Sign::Rows(t) => {
                let list = self.lists.get(t as usize).ok_or(bad)?;
                (Question::Rows(t), Size::of(list))
            }
            Sign::Keep(test) => {
                let Part { question, size } = self.question()?;
                let size = size.kept(test).ok_or(bad)?;
                (Question::Keep(test, Box::new(heap, question)?), size)
            }
            Sign::Columns(count, columns) => {
                let Part { question, size } = self.question()?;
                let columns = columns.get(..count as usize).ok_or(bad)?;
                let size = size.cut(columns).ok_or(bad)?;
                let columns = Vec::from_slice(heap, columns)?;
                (Question::Columns(columns, Box::new(heap, question)?), size)
            }
            Sign::Pair(pairing) => {
                let first = self.question()?;
                let second = self.question()?;
                let size = first.size.paired(pairing, second.size).ok_or(bad)?;
                let first = Box::new(heap, first.question)?;
                let second = Box::new(heap, second.question)?;
                (Question::Pair(pairing, first, second), size)
            }
        };
        Ok(Part { question, size })
    }
}

impl Asked {
    // A question of so many signs and its rows; or the sign that can't be read, or the row that is cut short.
    pub fn read(
        heap: Global,
        input: &mut Input,
        count: u8,
        lists: &[List],
    ) -> Result<Asked, Refusal> {
        // Those that are there, sixteen at most.
        let signs: Vec<Option<Sign>> = (0..count.min(MOST_SIGNS))
            .map_while(|_| input.numbers().map(Sign::of))
            .collect(heap)?;
        let mut rest = Signs {
            heap,
            lists,
            place: 0,
            rest: &signs,
        };
        let Part { question, size } = rest.question()?;
        if rest.place != u64::from(count) {
            return Err(Refusal::BadSign(rest.place));
        }
        let numbers = signs
            .iter()
            .filter_map(|sign| sign.and_then(Sign::number))
            .collect(heap)?;
        let rows = (0..input.byte().unwrap_or(0))
            .map(|_| read_row(heap, input, size.width))
            .try_collect(heap)?;
        Ok(Asked {
            question,
            size,
            numbers,
            rows,
        })
    }
}

fn read_row(heap: Global, input: &mut Input, width: u64) -> Result<Row, Refusal> {
    (0..width)
        .map(|i| input.number().ok_or(Refusal::CutRow(i)))
        .try_collect(heap)
}
