// Learning: what is known grows, and a learned number is written over its gap. And tidying: conditions without constants below other nodes
// and without comparisons that are settled.
#![tactic(auto)]

ghost use Rattle.learn.specs.Over.{WrittenOver, OverHolds, OverAnswers, OverLearned, OverNarrowed};

mod copying;
mod dropping;
mod learning;
mod over;
mod places;
mod tidying;
mod tidying_lines;

pub use learning::learn;
pub use over::{write_over, write_over_answer};
pub use tidying::tidy;
pub use tidying_lines::tidy_answer;

// Theorems about writing a learned number over its gap: see specs/Over.antt.

pub fn written_over()
    ensures { WrittenOver }
{}

pub fn over_holds()
    ensures { OverHolds }
{}

pub fn over_answers()
    ensures { OverAnswers }
{}

pub fn over_learned()
    ensures { OverLearned }
{}

pub fn over_narrowed()
    ensures { OverNarrowed }
{}
