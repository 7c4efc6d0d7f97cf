// The shapes of some lists.
ghost use Rattle.std.specs.Prelude.{◌≤◌};
ghost use Rattle.list.specs.Bounds.{AllSmall};

use crate::line_size;
use crate::shape::{Shape, read_shape};

// The shapes of at most eight lists, each of at most 64 lines and 4 columns.
#[derive(Clone, Copy)]
pub struct Shapes {
    shapes: [Shape; 8],
    count: usize,
    pub ghost few: { count ≤ 8 },
    pub ghost small: { AllSmall shapes count },
}

impl Shapes {
    ghost use Rattle.std.specs.Prelude.{◌≡◌, ◌<◌, None, MatchOption};
    ghost use Rattle.list.specs.Layout.{lists_told};
    ghost use Rattle.list.specs.Shapes.{shape_of, AllShaped};

    // The shapes of lists that fit.
    pub fn of(lists: &[u64]) -> Shapes
        requires { lists_told lists.now ≡ None }
        ensures { AllShaped lists.now result }
    {
        let mut shapes = [Shape {
            at: 0,
            lines: 0,
            width: 0,
        }; 8];
        let count = lists[0] as usize;
        let mut at = 2;
        for shape in &mut shapes[..count] {
            *shape = read_shape(lists, at);
            at = shape.at + shape.lines * line_size(shape.width);
        }
        Shapes { shapes, count }
    }

    // The shape of list t, if there is such a list.
    pub fn get(&self, t: usize) -> Option<Shape>
        ensures { MatchOption result (self.now.count ≤ t) (λ s. (t < self.now.count) × (s ≡ shape_of self.now t)) }
    {
        self.shapes[..self.count].get(t).copied()
    }
}
