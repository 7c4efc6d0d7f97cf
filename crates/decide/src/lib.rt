// Deciding which rows are sure and which are possible.
#![tactic(auto)]

ghost use Rattle.std.specs.Prelude.{◌≡◌};
ghost use Rattle.decide.specs.Standing.{standing, is_sure, is_possible};
ghost use Rattle.decide.specs.Deciding.{ByCondition, DecidingEnough, SureByName, DecidedWithin64Bits};
ghost use Rattle.decide.specs.Choice.{OneChosen};
ghost use Rattle.decide.specs.Picking.{LeastFirst};
ghost use Rattle.decide.specs.Might.{MightSound, MightExact, FewSteps, LeastStep, LeastAll};

mod answered;
mod building;
mod candidates;
mod checking;
mod choosing;
mod columns;
mod coning;
mod counting;
mod folding;
mod gaps;
mod interning;
mod lanes;
mod leaves;
mod marked;
mod matching;
mod noting;
mod picking;
mod pool;
mod reaching;
mod rows;
mod rowwise;
mod search;
mod showing;
mod sides;
mod simplifying;
mod sought;
mod sures;
mod surveying;
mod task;
mod trying;
mod words;

pub use building::{Cone, begin};
pub use checking::whole_lines;
pub use coning::count_marks;
pub use folding::renamed;
pub use interning::{index_all, intern};
pub use reaching::close;
pub use rowwise::{decide_row, possible, row_fillings, sure};
pub use sides::Sides;
pub use sures::sure_rows;

// How a row stands: in the answer under every filling that fits what is known, under some and not under others, or under none; and
// where no filling fits, all rows are sure and none possible.
#[derive(Clone, Copy, PartialEq, Eq)]
pub enum Standing {
    Sure,
    Possible,
    Impossible,
    NothingFits,
}

impl Standing {
    // Whether a row that stands so is sure.
    pub fn is_sure(self) -> bool
        ensures { result ≡ is_sure self }
    {
        matches!(self, Standing::Sure | Standing::NothingFits)
    }

    // Whether a row that stands so is possible.
    pub fn is_possible(self) -> bool
        ensures { result ≡ is_possible self }
    {
        matches!(self, Standing::Sure | Standing::Possible)
    }

    // How a row stands, where some filling that fits shows it, and where some lacks it.
    pub(crate) fn of(shows: bool, lacks: bool) -> Standing
        ensures { result ≡ standing shows lacks }
    {
        match (shows, lacks) {
            (true, false) => Standing::Sure,
            (true, true) => Standing::Possible,
            (false, true) => Standing::Impossible,
            (false, false) => Standing::NothingFits,
        }
    }
}

// Theorems about deciding: see specs/Deciding.antt.

pub fn by_condition()
    ensures { ByCondition }
{}

pub fn deciding_enough()
    ensures { DecidingEnough }
{}

pub fn sure_by_name()
    ensures { SureByName }
{}

pub fn decided_within_64_bits()
    ensures { DecidedWithin64Bits }
{}

// What can still come of a condition while some gaps are open: see specs/Might.antt.

pub fn might_sound()
    ensures { MightSound }
{}

pub fn might_exact()
    ensures { MightExact }
{}

pub fn few_steps()
    ensures { FewSteps }
{}

pub fn least_step()
    ensures { LeastStep }
{}

pub fn least_all()
    ensures { LeastAll }
{}

// The first filling in rising order is the least: see specs/Picking.antt.

pub fn least_first()
    ensures { LeastFirst }
{}

// The filling that decides which rows may be sure: see specs/Choice.antt.

pub fn one_chosen()
    ensures { OneChosen }
{}
