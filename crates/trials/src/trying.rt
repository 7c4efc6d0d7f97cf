// An answer, and what trying all fillings shows of it.

use crate::names::{Names, Tried};
use crate::plain::{Numbers, holds, number};
use decide::Standing;
use std::alloc::{AllocError, Global};

// Where numbers begin that no case names; and where others of these do.
const OTHERS: u64 = 1000;

const MORE_OTHERS: u64 = 2000;

// A line, under the condition of a node.
#[derive(Drop)]
pub struct Line {
    pub node: u64,
    pub cells: Vec<[u64; 2]>,
}

// What is known, the nodes, and the lines of an answer, all of one width.
#[derive(Drop)]
pub struct Answer {
    pub heap: Global,
    pub known: u64,
    pub nodes: Vec<[u64; 5]>,
    pub width: usize,
    pub lines: Vec<Line>,
}

// Whether a filling that fits shows a row, and whether one lacks it.
#[derive(Clone, Copy, Default)]
pub struct Seen {
    pub shows: bool,
    pub lacks: bool,
}

impl Seen {
    // One more filling that fits, which shows the row or lacks it.
    pub fn see(&mut self, shows: bool) {
        self.shows |= shows;
        self.lacks |= !shows;
    }

    pub fn standing(self) -> Standing {
        if self.shows && self.lacks {
            Standing::Possible
        } else if self.shows {
            Standing::Sure
        } else if self.lacks {
            Standing::Impossible
        } else {
            Standing::NothingFits
        }
    }
}

impl Line {
    // Its row under a filling.
    fn row(&self, heap: Global, numbers: &Numbers) -> Result<Vec<u64>, AllocError> {
        let mut row = Vec::new(heap);
        for cell in &self.cells {
            row.push(number(*cell, numbers).unwrap_or(0))?;
        }
        Ok(row)
    }

    // Whether its row under a filling is this one.
    fn comes_to(&self, row: &[u64], numbers: &Numbers) -> bool {
        self.cells.len() == row.len()
            && self
                .cells
                .iter()
                .zip(row)
                .all(|(cell, n)| number(*cell, numbers) == Some(*n))
    }

    // Whether its known cells agree with a row.
    fn agrees(&self, row: &[u64]) -> bool {
        self.cells.len() == row.len()
            && self
                .cells
                .iter()
                .zip(row)
                .all(|(cell, n)| cell[0] != 0 || cell[1] == *n)
    }
}

impl Answer {
    // One list without lines.
    pub fn lists(&self) -> [u64; 4] {
        [1, self.known, 0, 1]
    }

    pub fn store(&self) -> Result<Vec<u64>, AllocError> {
        let mut store = vec![in self.heap; self.nodes.len() as u64]?;
        for node in &self.nodes {
            store.extend_from_slice(node)?;
        }
        Ok(store)
    }

    // Its lines one after the other, each its node and its cells.
    pub fn numbers(&self) -> Result<Vec<u64>, AllocError> {
        let mut numbers = Vec::new(self.heap);
        for line in &self.lines {
            numbers.push(line.node)?;
            push_cells(&mut numbers, &line.cells)?;
        }
        Ok(numbers)
    }

    // What all nodes and all lines name.
    pub fn names(&self) -> Result<Names, AllocError> {
        let mut names = Names::none(self.heap);
        names.add_nodes(&self.nodes)?;
        for line in &self.lines {
            names.add_cells(&line.cells)?;
        }
        Ok(names)
    }

    // The place that is told with number 9 of a row, if what decides it names too much.
    pub fn nine(&self, row: &[u64]) -> Result<Option<u64>, AllocError> {
        let mut names = Names::none(self.heap);
        names.add_reached(&self.nodes, self.known)?;
        names.add_row(row)?;
        for line in self.lines.iter().filter(|line| line.agrees(row)) {
            names.add_reached(&self.nodes, line.node)?;
            names.add_cells(&line.cells)?;
        }
        Ok(names.nine())
    }

    // The same of what is known alone.
    pub fn nine_of_known(&self) -> Result<Option<u64>, AllocError> {
        let mut names = Names::none(self.heap);
        names.add_reached(&self.nodes, self.known)?;
        Ok(names.nine())
    }

    // The same of the first of some rows for which it is told.
    pub fn first_nine(&self, rows: &[Vec<u64>]) -> Result<Option<u64>, AllocError> {
        for row in rows {
            if let Some(place) = self.nine(row)? {
                return Ok(Some(place));
            }
        }
        Ok(None)
    }

    // How a row stands, by all fillings.
    pub fn standing(&self, row: &[u64]) -> Result<Standing, AllocError> {
        let mut names = self.names()?;
        names.add_row(row)?;
        let tried = names.tried(OTHERS)?;
        let mut numbers = [0; 64];
        let mut seen = Seen::default();
        for f in 0..tried.count() {
            tried.fill(f, &mut numbers);
            if self.fits(&numbers) {
                seen.see(self.shows(row, &numbers));
            }
        }
        Ok(seen.standing())
    }

    // The rows that are there under all fillings that fit, in order; none where nothing fits. All fillings are tried with some numbers
    // that stand nowhere and again with others, so that no such number stays.
    pub fn sure_rows(&self) -> Result<Option<Vec<Vec<u64>>>, AllocError> {
        let names = self.names()?;
        let mut rows = None;
        self.keep_rows(&names.tried(OTHERS)?, &mut rows)?;
        self.keep_rows(&names.tried(MORE_OTHERS)?, &mut rows)?;
        if let Some(rows) = &mut rows {
            rows.sort()?;
            rows.dedup();
        }
        Ok(rows)
    }

    // Of rows those that are there under more fillings; all that are there under the first one that fits.
    fn keep_rows(&self, tried: &Tried, kept: &mut Option<Vec<Vec<u64>>>) -> Result<(), AllocError> {
        let mut numbers = [0; 64];
        for f in 0..tried.count() {
            tried.fill(f, &mut numbers);
            if self.fits(&numbers) {
                match kept {
                    Some(rows) => rows.retain(|row| self.shows(row, &numbers)),
                    None => *kept = Some(self.rows(&numbers)?),
                }
            }
        }
        Ok(())
    }

    // Whether a filling fits what is known.
    fn fits(&self, numbers: &Numbers) -> bool {
        holds(&self.nodes, self.known, numbers)
    }

    // Whether a row is there under a filling.
    fn shows(&self, row: &[u64], numbers: &Numbers) -> bool {
        self.lines.iter().any(|line| {
            line.comes_to(row, numbers) && holds(&self.nodes, line.node, numbers)
        })
    }

    // The rows under a filling, line by line.
    fn rows(&self, numbers: &Numbers) -> Result<Vec<Vec<u64>>, AllocError> {
        let mut rows = Vec::new(self.heap);
        for line in &self.lines {
            if holds(&self.nodes, line.node, numbers) {
                rows.push(line.row(self.heap, numbers)?)?;
            }
        }
        Ok(rows)
    }
}

// Cells behind other numbers.
fn push_cells(numbers: &mut Vec<u64>, cells: &[[u64; 2]]) -> Result<(), AllocError> {
    for cell in cells {
        numbers.extend_from_slice(cell)?;
    }
    Ok(())
}
