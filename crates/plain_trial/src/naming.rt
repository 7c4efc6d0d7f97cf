// Which gaps and numbers the lines of an answer name: where there are too many, a row is not decided.
use crate::questions::Test;
use crate::reading::{Book, Cell, Gap, Line, List, Node};
use crate::rows::Entry;
use crate::sets::Set;
use crate::telling::Refusal;
use std::alloc::{AllocError, Global};

// The most gaps of a file, and those that the lines of an answer may name.
pub const MOST_GAPS: usize = 6;

const MOST_NUMBERS: usize = 8;

// Gaps and numbers.
#[derive(Clone, Drop)]
pub struct Names {
    pub gaps: Set<Gap>,
    pub numbers: Set<u64>,
}

// The cells of a line, and what its condition names.
#[derive(Clone, Drop)]
pub struct NamedLine {
    pub cells: Vec<Cell>,
    pub names: Names,
}

impl Names {
    pub fn none(heap: Global) -> Names {
        Names {
            gaps: Set::new(heap),
            numbers: Set::new(heap),
        }
    }

    // Everything that stands in the lists and in comparisons.
    pub fn of_book(heap: Global, book: &Book) -> Result<Names, AllocError> {
        let mut names = Names::none(heap);
        names.add_lists(&book.lists)?;
        names.add_comparisons(&book.nodes)?;
        Ok(names)
    }

    fn add_lists(&mut self, lists: &[List]) -> Result<(), AllocError> {
        for line in lists.iter().flat_map(|list| &list.lines) {
            self.add_cells(&line.cells)?;
        }
        Ok(())
    }

    fn add_comparisons(&mut self, nodes: &[Node]) -> Result<(), AllocError> {
        for node in nodes {
            if let Node::Equal(a, b) = *node {
                self.add_cells(&[a, b])?;
            }
        }
        Ok(())
    }

    // What a node names, by what the nodes before it name. A node may name only earlier ones.
    pub fn of_node(heap: Global, node: Node, earlier: &[Names]) -> Result<Names, AllocError> {
        let mut names = Names::none(heap);
        match node {
            Node::Always | Node::Never => {}
            Node::Equal(a, b) => names.add_cells(&[a, b])?,
            Node::Not(i) => names.add_one_of(earlier, i)?,
            Node::Both(i, j) | Node::Either(i, j) => {
                names.add_one_of(earlier, i)?;
                names.add_one_of(earlier, j)?;
            }
        }
        Ok(names)
    }

    pub fn add_cells(&mut self, cells: &[Cell]) -> Result<(), AllocError> {
        for cell in cells {
            self.add_cell(*cell)?;
        }
        Ok(())
    }

    fn add_cell(&mut self, cell: Cell) -> Result<(), AllocError> {
        match cell {
            Cell::Number(number) => self.numbers.insert(number)?,
            Cell::Gap(gap) => self.gaps.insert(gap)?,
        };
        Ok(())
    }

    pub fn add_names(&mut self, other: &Names) -> Result<(), AllocError> {
        self.gaps.extend(other.gaps.iter())?;
        self.numbers.extend(other.numbers.iter())
    }

    // What one of some conditions names, if there is such a one.
    pub fn add_one_of(&mut self, conditions: &[Names], i: u64) -> Result<(), AllocError> {
        match conditions.get(i as usize) {
            Some(names) => self.add_names(names),
            None => Ok(()),
        }
    }

    // That there are few enough of both.
    pub fn check(&self) -> Result<(), Refusal> {
        if self.gaps.len() > MOST_GAPS {
            return Err(Refusal::TooManyGaps(self.gaps.len() as u64));
        }
        if self.numbers.len() > MOST_NUMBERS {
            return Err(Refusal::TooManyNumbers(self.numbers.len() as u64));
        }
        Ok(())
    }
}

impl NamedLine {
    // A line of a list, by what each condition names.
    pub fn of(heap: Global, line: &Line, conditions: &[Names]) -> Result<NamedLine, AllocError> {
        let mut names = Names::none(heap);
        names.add_one_of(conditions, line.node)?;
        let cells = line.cells.clone()?;
        Ok(NamedLine { cells, names })
    }

    // The cell in a column, the number 0 where there is no such column.
    fn at(&self, a: u64) -> Cell {
        self.cells
            .get(a as usize)
            .copied()
            .unwrap_or(Cell::Number(0))
    }

    // Whether its known cells agree with a row.
    pub fn agrees(&self, row: &[u64]) -> bool {
        self.cells.iter().zip(row).all(|(cell, n)| match *cell {
            Cell::Number(number) => number == *n,
            Cell::Gap(_) => true,
        })
    }
}

impl Entry for NamedLine {
    // Its condition names what is compared too.
    fn tested(mut self, test: Test) -> Result<Option<NamedLine>, AllocError> {
        let compared = match test {
            Test::Same(a, b) | Test::Differ(a, b) => [self.at(a), self.at(b)],
            Test::Is(a, number) | Test::IsNot(a, number) => [self.at(a), Cell::Number(number)],
        };
        self.names.add_cells(&compared)?;
        Ok(Some(self))
    }

    fn cut(self, heap: Global, columns: &[u64]) -> Result<NamedLine, AllocError> {
        let cells = columns.iter().map(|a| self.at(*a)).collect(heap)?;
        let names = self.names;
        Ok(NamedLine { cells, names })
    }

    fn beside(&self, other: &NamedLine) -> Result<NamedLine, AllocError> {
        let mut line = self.clone()?;
        line.cells.extend_from_slice(&other.cells)?;
        line.names.add_names(&other.names)?;
        Ok(line)
    }

    // Its condition has, for each of the others, that one's condition and all cells of both.
    fn without(mut self, others: &[NamedLine]) -> Result<Option<NamedLine>, AllocError> {
        for other in others {
            self.names.add_cells(&self.cells)?;
            self.names.add_cells(&other.cells)?;
            self.names.add_names(&other.names)?;
        }
        Ok(Some(self))
    }
}
