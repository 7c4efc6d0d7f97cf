// The lines of an answer, written one after the other.
ghost use Rattle.std.specs.Prelude.{◌≡◌, ◌+◌, ◌*◌, ◌<◌, ◌≤◌, length, slice_index};
ghost use Rattle.condition.specs.Store.{cell_in};
ghost use Rattle.condition.specs.Shapes.{cell_of};
ghost use Rattle.list.specs.Layout.{line_size};
ghost use Rattle.answer.specs.Plan.{many, wide};
ghost use Rattle.answer.specs.Sides.{plan, node, cells};
ghost use Rattle.answer.specs.Written.{Put, Written};

use crate::side::Side;
use list::line_size;

impl Side<'_> {
    // Writes the lines of a question whose nodes are laid.
    pub(crate) fn put_lines(&self, out: &mut [u64])
        requires { many (plan self.now) * line_size (wide (plan self.now)) ≤ length out.old }
        ensures { Written (node self.now) (cells self.now) (wide (plan self.now)) (many (plan self.now)) out.old out.new }
    {
        let size = line_size(self.width());
        for i in 0..self.lines() {
            let at = i as usize * size;
            self.put_line(i, &mut out[at..at + size]);
        }
    }

    // Writes line i, which is all of the slice.
    fn put_line(&self, i: u64, line: &mut [u64])
        requires stands { i < many (plan self.now) }
        requires whole { length line.old ≡ line_size (wide (plan self.now)) }
        ensures { Put (node self.now i) (cells self.now i) (wide (plan self.now)) line.new }
    {
        line[0] = self.place(i);
        for a in 0..self.width() {
            let at = 1 + 2 * a;
            line[at..at + 2].copy_from_slice(&<[u64; 2]>::from(self.cell(i, a)));
        }
    }
}
