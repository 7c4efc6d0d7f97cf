// Pairs of one thing for yes and one for no.
ghost use Rattle.std.specs.Prelude.{Bool};
ghost use Rattle.decide.specs.Sides.{side};

// Two of a kind: one for a condition that holds, and one for a condition that fails.
#[derive(Clone, Copy, Default)]
pub struct Sides<T> {
    pub yes: T,
    pub no: T,
}

impl<T> Sides<T> {
    // What a function makes of each of the two.
    pub fn map<U, F: Fn(T) -> U>(self, f: F) -> Sides<U>
        requires { F.IsAlwaysCallable f }
        ensures { (t : Bool) → F.post f (side t self) (side t result) }
    {
        Sides {
            yes: f(self.yes),
            no: f(self.no),
        }
    }
}
