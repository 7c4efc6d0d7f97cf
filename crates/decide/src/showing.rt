// The condition that an answer shows a row, built in a cone.
ghost use Rattle.std.specs.Prelude.{◌≡◌, ℕ, ◌*◌, ◌<◌, ◌≤◌, true, ◌++◌, map, length, drop, slice_index};
ghost use Rattle.condition.specs.Cond.{known};
ghost use Rattle.condition.specs.Store.{count};
ghost use Rattle.list.specs.Layout.{cells_in, cells_fit};
ghost use Rattle.decide.specs.Building.{Same};
ghost use Rattle.decide.specs.Deciding.{gives, shows, agrees};
ghost use Rattle.decide.specs.Folding.{Room};
ghost use Rattle.decide.specs.Matching.{cells_at, node_at};
ghost use Rattle.decide.specs.Showing.{Means, Placed, row_cells, nodes_for};
ghost use Rattle.decide.specs.Sought.{deciding_of};

use crate::building::Cone;
use crate::matching::agrees;
use crate::simplifying::{ALWAYS, NEVER};
use crate::sought::Sought;
use condition::Cell;
use list::Line;

impl Cone<'_, '_> {
    // The place of the condition that a line of the answer is there and gives the row; the conditions of the lines stand at the places
    // given for their nodes.
    pub(crate) fn show_row(&mut self, sought: &Sought, places: &[u64]) -> u64
        requires placed { (k : ℕ) → k < sought.now.lines → agrees (cells_at (length sought.now.row.now) sought.now.answer.now k) sought.now.row.now ≡ true → (node_at (length sought.now.row.now) sought.now.answer.now k < length places.now) × (slice_index places.now (node_at (length sought.now.row.now) sought.now.answer.now k) < count self.old.nodes.now) }
        requires room { Room self.old.nodes.now (nodes_for (length sought.now.row.now) (deciding_of sought.now)) }
        ensures same { Same self.old self.new }
        ensures means { Placed self.old.nodes.now sought.now places.now → Means self.old.nodes.now self.new.nodes.now (nodes_for (length sought.now.row.now) (deciding_of sought.now)) (row_cells (deciding_of sought.now) sought.now.row.now) (shows (deciding_of sought.now) sought.now.row.now) result }
    {
        let mut shown = NEVER;
        for line in sought.answer_lines().rev() {
            if agrees(&line, sought.row) {
                let condition = places[line.node() as usize];
                let given = self.give_row(&line, sought.row);
                let here = self.both_of(condition, given);
                shown = self.either_of(here, shown);
            }
        }
        shown
    }

    // The place of the condition that the cells of a line are those of a row.
    fn give_row(&mut self, line: &Line, row: &[u64]) -> u64
        requires line { (line.now.width ≡ length row.now) × (cells_fit (length row.now) (drop 1 line.now.numbers.now) ≡ true) }
        requires room { Room self.old.nodes.now (2 * length row.now) }
        ensures same { Same self.old self.new }
        ensures means { Means self.old.nodes.now self.new.nodes.now (2 * length row.now) (cells_in (length row.now) (drop 1 line.now.numbers.now) ++ map known row.now) (gives (cells_in (length row.now) (drop 1 line.now.numbers.now)) row.now) result }
    {
        let mut given = ALWAYS;
        for a in (0..row.len()).rev() {
            let equal = self.equal_of(line.cell(a), Cell::Number(row[a]));
            given = self.both_of(equal, given);
        }
        given
    }
}

impl Sought<'_> {
    // How many lines decide the row.
    pub(crate) fn count_lines(&self) -> usize
        ensures is { length (deciding_of self.now) ≡ result }
        ensures few { result ≤ self.now.lines }
    {
        self.answer_lines()
            .filter(
                |line|
                    requires { line.now.width ≡ length self.now.row.now }
                { agrees(line, self.row) },
            )
            .count()
    }
}
