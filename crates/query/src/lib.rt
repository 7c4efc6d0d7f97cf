// Questions: signs in a slice of numbers, and what they ask of filled lists.
#![tactic(auto)]

ghost use Rattle.query.specs.Reading.{FewLines};

mod asking;
mod columns;
mod question;
mod reading;

pub use asking::stands;
pub use columns::Columns;
pub use question::Question;

// What a row may be tested for.
#[derive(Clone, Copy)]
pub enum Test {
    // Two columns are equal; are not.
    Same(usize, usize),
    Differ(usize, usize),
    // A column is a number; is not.
    Is(usize, u64),
    IsNot(usize, u64),
}

// A sign of a question that was read. The question that it needs first begins at the next part; a second one begins as many
// parts further on as the sign says.
#[derive(Clone, Copy)]
pub enum Sign {
    // The rows of a list.
    Rows(usize),
    Keep(Test),
    Columns(Columns),
    Join(usize),
    Union(usize),
    Without(usize),
}

// A sign, with the lines, the width and the cost of the question that it begins.
#[derive(Clone, Copy)]
pub struct Part {
    pub sign: Sign,
    pub lines: u64,
    pub width: usize,
    pub cost: u64,
}

// A question's lines and cost fit 64 bits by far: see specs/Reading.antt.
pub fn few_lines()
    ensures { FewLines }
{}
