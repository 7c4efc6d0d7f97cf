// Lists with gaps in a slice of numbers: the count of lists, the node of what is known, and for each list its lines, its
// columns, and then line by line the node of the line's condition and two numbers a cell.
#![tactic(auto)]

ghost use Rattle.std.specs.Prelude.{◌≡◌, ◌≤◌, IfOk, slice_index};
ghost use Rattle.condition.specs.Refusals.{outcome};
ghost use Rattle.list.specs.Layout.{check_told};
ghost use Rattle.list.specs.Lists.{AllAtOnce};

use condition::{Refusal, store_count};

mod filled;
mod fits;
mod lines;
mod named;
mod passing;
mod shape;
mod shapes;

pub use filled::rows;
pub use fits::{any_lines_fit, check_lists};
pub use lines::{Line, Lines, line_size};
pub use named::{any_lines_named, check_named};
pub use shape::{Shape, read_shape};
pub use shapes::Shapes;

// How many lists there are; or why the lists are none, or else the store is none, or else a node they name does not stand.
pub fn check(lists: &[u64], nodes: &[u64]) -> Result<u64, Refusal>
    ensures refusal { outcome result ≡ check_told lists.now nodes.now }
    ensures value { IfOk result (λ n. (n ≡ slice_index lists.now 0) × (1 ≤ n) × (n ≤ 8)) }
{
    let fitting = check_lists(lists);
    let Ok(_) = fitting else {
        return fitting;
    };
    let stored = store_count(nodes);
    let Ok(count) = stored else {
        return stored;
    };
    let named = check_named(lists, count);
    let Ok(_) = named else {
        return named;
    };
    fitting
}

// Any few lists of rows can be meant at once by one list with gaps: see specs/Lists.antt.
pub fn all_at_once()
    ensures { AllAtOnce }
{}
