// Some columns of a question.
ghost use Rattle.std.specs.Prelude.{◌≡◌, ◌≤◌, length};

// One to four columns.
#[derive(Clone, Copy)]
pub struct Columns {
    places: [usize; 4],
    count: usize,
    pub ghost four: { length places ≡ 4 },
    pub ghost some: { 1 ≤ count },
    pub ghost few: { count ≤ 4 },
}

impl Columns {
    ghost use Rattle.std.specs.Prelude.{◌≡◌, ◌<◌, ◌⊎◌, MatchOption, take};
    ghost use Rattle.query.specs.Reading.{all_below};
    ghost use Rattle.query.specs.Shapes.{columns_of};

    // The first so many of four columns, if those are one to four.
    pub fn of(places: [usize; 4], count: usize) -> Option<Columns>
        ensures { MatchOption result ((count ≡ 0) ⊎ (4 < count)) (λ c. (c.count ≡ count) × (columns_of c ≡ take count places)) }
    {
        match count {
            1..=4 => Some(Columns { places, count }),
            _ => None,
        }
    }

    // The columns, in order.
    pub fn as_slice(&self) -> &[usize]
        ensures { result.now ≡ columns_of self.now }
    {
        &self.places[..self.count]
    }

    // Whether they are columns of a question that is w wide.
    pub(crate) fn fit(&self, w: usize) -> bool
        ensures { result ≡ all_below w (columns_of self.now) }
    {
        self.as_slice().iter().all(|a| *a < w)
    }
}
