// The answer to a question of a file.
use crate::gaps::named_gaps;
use crate::reading::{Asked, Book};
use answer::{ask, with_room};
use condition::Refusal;
use decide::{Sides, Standing, decide_row, row_fillings, sure_rows};
use evaluate::Filling;
use learn::tidy_answer;
use list::line_size;
use std::alloc::Global;

// What 4,096 lines of eight cells take, as lines and as rows: no answer is larger.
const MOST_NUMBERS: u64 = 69632;

const MOST_ROW_NUMBERS: u64 = 32768;

// So many lines, so many cells wide, with the lists that they answer for and the store that they stand on.
#[derive(Drop)]
pub struct Answer<'a> {
    lists: &'a [u64],
    pub nodes: Vec<u64>,
    pub numbers: Vec<u64>,
    lines: u64,
    pub width: usize,
    // Which gaps the file names.
    pub gaps: [bool; 64],
}

// Lines with tidy conditions, without those under never, and the store that the conditions stand in.
#[derive(Drop)]
pub struct Lines {
    pub nodes: Vec<u64>,
    pub numbers: Vec<u64>,
}

impl<'a> Answer<'a> {
    pub fn of(heap: Global, book: &'a Book, asked: &Asked) -> Result<Answer<'a>, Refusal> {
        let question = &asked.question;
        let width = question.width();
        let mut nodes = with_room(heap, &book.nodes, question.cost())?;
        let size = question
            .lines()
            .saturating_mul(line_size(width.min(8)) as u64)
            .min(MOST_NUMBERS);
        let mut numbers = vec![in heap; 0u64; size as usize]?;
        let lines = ask(&book.lists, &asked.signs, &mut nodes, &mut numbers)?;
        Ok(Answer {
            lists: &book.lists,
            nodes,
            numbers,
            lines,
            width,
            gaps: named_gaps(&book.lists, &book.nodes),
        })
    }

    // Its lines, tidied; no more nodes are added than stand.
    pub fn tidied(&self, heap: Global) -> Result<Lines, Refusal> {
        let count = self.nodes.first().copied().unwrap_or(0);
        let mut nodes = with_room(heap, &self.nodes, count)?;
        let mut numbers = self.numbers.clone()?;
        let width = self.width as u64;
        let left = tidy_answer(heap, &mut nodes, &mut numbers, self.lines, width)?;
        let size = self.width.saturating_mul(2).saturating_add(1);
        numbers.truncate(size.saturating_mul(left as usize));
        Ok(Lines { nodes, numbers })
    }

    // Its sure rows in order, one after the other.
    pub fn sure_rows(&self, heap: Global) -> Result<Vec<u64>, Refusal> {
        let width = self.width as u64;
        let size = self.lines.saturating_mul(width).min(MOST_ROW_NUMBERS);
        let mut rows = vec![in heap; 0u64; size as usize]?;
        let count = sure_rows(
            heap,
            self.lists,
            &self.nodes,
            &self.numbers,
            self.lines,
            width,
            &mut rows,
        )?;
        rows.truncate(count.saturating_mul(width) as usize);
        Ok(rows)
    }

    // How a row stands in it.
    pub fn decide_row(&self, heap: Global, row: &[u64]) -> Result<Standing, Refusal> {
        decide_row(
            heap,
            self.lists,
            &self.nodes,
            &self.numbers,
            self.lines,
            self.width as u64,
            row,
        )
    }

    // A filling that fits with which a row is there, and one with which it is not.
    pub fn row_fillings(
        &self,
        heap: Global,
        row: &[u64],
    ) -> Result<Sides<Option<Filling>>, Refusal> {
        row_fillings(
            heap,
            self.lists,
            &self.nodes,
            &self.numbers,
            self.lines,
            self.width as u64,
            row,
        )
    }
}
