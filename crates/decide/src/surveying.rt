// What decides a row: the nodes that are reached, and the gaps and numbers that are named.
ghost use Rattle.std.specs.Prelude.{◌≡◌};
ghost use Rattle.decide.specs.OneWay.{surveyed_once};
ghost use Rattle.decide.specs.Surveying.{Surveyed};

use crate::marked::Marks;
use crate::noting::Notes;
use crate::reaching::close;
use crate::sought::Sought;

// What is sought, with the nodes that what decides it reaches, and the gaps and numbers that these and the row name.
#[derive(Drop)]
pub(crate) struct Survey<'a, 'm> {
    pub(crate) sought: Sought<'a>,
    pub(crate) marks: &'m Marks,
    pub(crate) notes: Notes,
    // All that decides the row is marked, and all that it names is noted.
    ghost surveyed: { Surveyed sought marks.now notes } by { surveyed_once sought marks.now notes },
}

impl<'a> Sought<'a> {
    // What decides the row: marks all that what is known and the lines that decide it reach, and notes what is named.
    pub(crate) fn survey<'m>(self, marks: &'m mut Marks) -> Survey<'a, 'm>
        ensures { result.sought ≡ self.entry }
    {
        let count = self.count();
        marks[..count].fill(false);
        marks[self.known as usize] = true;
        let mut notes = Notes::new();
        notes.note_row(self.row);
        self.mark_lines(marks, &mut notes);
        close(self.nodes, count, marks);
        notes.note_marked(&self.marked(marks));
        Survey {
            sought: self,
            marks,
            notes,
        }
    }
}
