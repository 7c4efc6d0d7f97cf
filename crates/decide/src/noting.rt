// The gaps and the numbers that cells name.
ghost use Rattle.std.specs.Prelude.{◌≡◌, ◌≤◌, true, [], ◌∷◌, map, length, drop};
ghost use Rattle.condition.specs.Cond.{known};
ghost use Rattle.condition.specs.Store.{has_name};
ghost use Rattle.condition.specs.Shapes.{cell_of, Named};
ghost use Rattle.list.specs.Layout.{cells_in, cells_fit};
ghost use Rattle.decide.specs.Reaching.{own_cells};
ghost use Rattle.decide.specs.Marked.{cells_marked};
ghost use Rattle.decide.specs.Noting.{gaps_noted, numbers_noted, Noted, NotesMore};

use crate::marked::Marked;
use arrayvec::ArrayVec;
use condition::{Cell, Node};
use list::Line;

// All gaps that were noted, and of the numbers the first nine, each once.
#[derive(Drop)]
pub(crate) struct Notes {
    gaps: [bool; 64],
    numbers: ArrayVec<u64, 9>,
}

impl Notes {
    // Nothing noted yet.
    pub(crate) fn new() -> Notes
        ensures { Noted [] result }
    {
        Notes {
            gaps: [false; 64],
            numbers: ArrayVec::new(),
        }
    }

    // Notes one more cell.
    fn note(&mut self, cell: Cell)
        requires { has_name (cell_of cell) ≡ true }
        ensures { NotesMore (cell_of cell ∷ []) self.old self.new }
    {
        match cell {
            Cell::Gap(gap) => self.gaps[gap as usize] = true,
            Cell::Number(number) => {
                if !self.numbers.is_full() && !self.numbers.contains(&number) {
                    self.numbers.push(number);
                }
            }
        }
    }

    // Notes the numbers of a row.
    pub(crate) fn note_row(&mut self, row: &[u64])
        ensures { NotesMore (map known row.now) self.old self.new }
    {
        for number in row.iter().rev() {
            self.note(Cell::Number(*number));
        }
    }

    // Notes the cells of a line.
    pub(crate) fn note_line(&mut self, line: &Line)
        requires { cells_fit line.now.width (drop 1 line.now.numbers.now) ≡ true }
        ensures { NotesMore (cells_in line.now.width (drop 1 line.now.numbers.now)) self.old self.new }
    {
        for a in (0..line.width).rev() {
            self.note(line.cell(a));
        }
    }

    // Notes the cells that marked nodes compare.
    pub(crate) fn note_marked(&mut self, marked: &Marked)
        ensures { NotesMore (cells_marked marked.now) self.old self.new }
    {
        for i in marked.places() {
            self.note_node(marked.node(i));
        }
    }

    // Notes the cells that a node compares.
    fn note_node(&mut self, node: Node)
        requires { Named node }
        ensures { NotesMore (own_cells node) self.old self.new }
    {
        if let Node::Equal(a, b) = node {
            self.note(b);
            self.note(a);
        }
    }

    // How many gaps were noted.
    pub(crate) fn count_gaps(&self) -> u32
        ensures { result ≡ length (gaps_noted self.now) }
    {
        self.gaps.iter().filter(|noted| **noted).count() as u32
    }

    // The gaps that were noted, of which there are at most six.
    pub(crate) fn gap_names(&self) -> ArrayVec<u64, 6>
        requires { length (gaps_noted self.now) ≤ 6 }
        ensures { result.items ≡ gaps_noted self.now }
    {
        let mut names = ArrayVec::new();
        for (gap, noted) in self.gaps.iter().enumerate() {
            if *noted {
                names.push(gap as u64);
            }
        }
        names
    }

    // The numbers that were noted.
    pub(crate) fn numbers(&self) -> &[u64]
        ensures { result.now ≡ numbers_noted self.now }
    {
        &self.numbers
    }
}
