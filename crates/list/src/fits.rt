// Whether numbers are lists: their shapes and their cells.
ghost use Rattle.std.specs.Prelude.{◌≡◌, ◌+◌, ◌*◌, ◌≤◌, true, false, length, IfOk, MatchOption, slice_index};
ghost use Rattle.condition.specs.Refusals.{outcome};
ghost use Rattle.list.specs.Layout.{line_size, list_size, cell_fits, cells_fit, lines_fit, list_fits, lists_told};

use crate::passing::passing;
use crate::{Lines, line_size};
use condition::Refusal;

// How many lists there are, or why they are none.
pub fn check_lists(lists: &[u64]) -> Result<u64, Refusal>
    ensures refusal { outcome result ≡ lists_told lists.now }
    ensures value { IfOk result (λ n. (n ≡ slice_index lists.now 0) × (1 ≤ n) × (n ≤ 8)) }
{
    if lists.len() == 0 {
        return Err(Refusal::BadLists(0));
    }
    let count = lists[0];
    if count == 0 {
        return Err(Refusal::BadLists(0));
    }
    if count > 8 {
        return Err(Refusal::BadLists(8));
    }
    if lists.len() == 1 {
        return Err(Refusal::BadLists(0));
    }
    let fitting = passing(&lists[2..], count, fitting_size);
    if fitting != count {
        return Err(Refusal::BadLists(fitting));
    }
    Ok(count)
}

// How many numbers the list at the front takes, if it fits.
fn fitting_size(xs: &[u64]) -> Option<usize>
    ensures { MatchOption result (list_fits xs.now ≡ false) (λ n. (list_fits xs.now ≡ true) × (n ≡ list_size xs.now) × (n ≤ length xs.now)) }
{
    if xs.len() < 2 {
        return None;
    }
    let lines = xs[0];
    let columns = xs[1];
    if lines > 64 || columns < 1 || columns > 4 {
        return None;
    }
    let n = lines as usize;
    let w = columns as usize;
    let size = 2 + n * line_size(w);
    if size > xs.len() || !any_lines_fit(&xs[2..], n, w) {
        return None;
    }
    Some(size)
}

// Whether the cells of n lines, w cells wide, are cells.
pub fn any_lines_fit(xs: &[u64], n: usize, w: usize) -> bool
    requires { n * line_size w ≤ length xs.now }
    ensures { result ≡ lines_fit n w xs.now }
{
    Lines::of(xs, n, w).all(|line| cells_fit(line.cells(), line.width))
}

// Whether w cells are a number or one of the 64 gaps each.
fn cells_fit(xs: &[u64], w: usize) -> bool
    requires { 2 * w ≤ length xs.now }
    ensures { result ≡ cells_fit w xs.now }
{
    let (cells, _) = xs.as_chunks::<2>();
    cells.iter().take(w).all(|cell| cell_fits(cell[0], cell[1]))
}

// Whether two numbers stand for a number or one of the 64 gaps.
fn cell_fits(tag: u64, number: u64) -> bool
    ensures { result ≡ cell_fits tag number }
{
    tag == 0 || tag == 1 && number < 64
}
