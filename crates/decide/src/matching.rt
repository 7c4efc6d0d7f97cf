// The lines of an answer that decide a row.
ghost use Rattle.std.specs.Prelude.{◌≡◌, length, drop};
ghost use Rattle.condition.specs.Shapes.{cell_of};
ghost use Rattle.list.specs.Layout.{cells_in};
ghost use Rattle.decide.specs.Deciding.{agrees_cell, agrees};
ghost use Rattle.decide.specs.Matching.{Matched};

use crate::marked::Marks;
use crate::noting::Notes;
use crate::sought::Sought;
use condition::Cell;
use list::Line;

impl Sought<'_> {
    // Marks the conditions of the lines that decide the row, and notes the cells of these lines.
    pub(crate) fn mark_lines(&self, marks: &mut Marks, notes: &mut Notes)
        ensures { Matched self.now 0 marks.old marks.new notes.old notes.new }
    {
        for line in self.answer_lines().rev() {
            if agrees(&line, self.row) {
                marks[line.node() as usize] = true;
                notes.note_line(&line);
            }
        }
    }
}

// Whether the known cells of a line agree with a row.
pub(crate) fn agrees(line: &Line, row: &[u64]) -> bool
    requires { line.now.width ≡ length row.now }
    ensures { result ≡ agrees (cells_in (length row.now) (drop 1 line.now.numbers.now)) row.now }
{
    row.iter()
        .enumerate()
        .all(|(a, number)| agrees_cell(line.cell(a), *number))
}

// Whether a cell is a gap, or this number.
fn agrees_cell(cell: Cell, number: u64) -> bool
    ensures { result ≡ agrees_cell (cell_of cell) number }
{
    match cell {
        Cell::Number(n) => n == number,
        Cell::Gap(_) => true,
    }
}
