// Questions answered with gaps.
//
// The answer to a question is a list with gaps of its own. Filled in any way that fits what is known, it has exactly the rows
// that the question gives on the lists so filled.
#![tactic(auto)]

ghost use Rattle.answer.specs.Promise.{AnswerRight, AnswerExact, AskedFirst, SameAnswer, MoreKnown, NothingLeft, SureInOne};
ghost use Rattle.answer.specs.Numbers.{SameNumber};
ghost use Rattle.answer.specs.Baptisms.{Table, FalseAnswers};

mod asking;
mod laying;
mod less;
mod memory;
mod places;
mod side;
mod split;
mod writing;

pub use asking::ask;
pub use memory::with_room;

// Theorems about answers: see specs/Promise.antt.

pub fn answer_right()
    ensures { AnswerRight }
{}

pub fn answer_exact()
    ensures { AnswerExact }
{}

pub fn asked_first()
    ensures { AskedFirst }
{}

pub fn same_answer()
    ensures { SameAnswer }
{}

pub fn more_known()
    ensures { MoreKnown }
{}

pub fn nothing_left()
    ensures { NothingLeft }
{}

pub fn sure_in_one()
    ensures { SureInOne }
{}

// The number told is that of another and shorter list of the refusals: see specs/Numbers.antt.
pub fn same_number()
    ensures { SameNumber }
{}

// The worked example of baptisms and marriages: see specs/Baptisms.antt.

pub fn baptism_table()
    ensures { Table }
{}

pub fn false_answers()
    ensures { FalseAnswers }
{}
