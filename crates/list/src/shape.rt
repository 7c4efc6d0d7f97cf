// The shape of a list, and where its lines stand.
ghost use Rattle.std.specs.Prelude.{◌≡◌, ◌+◌, ◌*◌, ◌≤◌, length, drop};
ghost use Rattle.list.specs.Layout.{line_size, lines_at, columns_at, Fits};

// Where the lines of a list begin in the slice, how many there are, and how many cells wide they are.
#[derive(Clone, Copy)]
pub struct Shape {
    pub at: usize,
    pub lines: usize,
    pub width: usize,
}

// The shape of the list whose two numbers stand at a place.
pub fn read_shape(lists: &[u64], at: usize) -> Shape
    requires within { at ≤ length lists.now }
    requires fits { Fits (drop at lists.now) }
    ensures at { result.at ≡ at + 2 }
    ensures lines { result.lines ≡ lines_at (drop at lists.now) }
    ensures width { result.width ≡ columns_at (drop at lists.now) }
    ensures few { result.lines ≤ 64 }
    ensures narrow { result.width ≤ 4 }
    ensures whole { result.at + result.lines * line_size result.width ≤ length lists.now }
{
    Shape {
        at: at + 2,
        lines: lists[at] as usize,
        width: lists[at + 1] as usize,
    }
}
