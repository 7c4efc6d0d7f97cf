// Questions that were read: their signs, and how large their answers are.
ghost use Rattle.std.specs.Prelude.{◌≡◌, ℕ, ◌*◌, ◌<◌, ◌≤◌, length, take, IfOk};
ghost use Rattle.condition.specs.Refusals.{outcome, first};
ghost use Rattle.list.specs.Layout.{lists_told};
ghost use Rattle.list.specs.Layout as layout;
ghost use Rattle.list.specs.Shapes.{rows_of};
ghost use Rattle.query.specs.Ask.{ask};
ghost use Rattle.query.specs.Rows.{tables_in};
ghost use Rattle.query.specs.Reading.{asked, reads, sized, question_told, size_told, sizes_told};
ghost use Rattle.query.specs.Shapes.{part_at, pairs_of, query_of};
ghost use Rattle.query.specs.Questions.{Parses, Stands};

use crate::asking::ask_rows;
use crate::reading::read;
use crate::{Part, Sign};
use condition::Refusal;
use list::{Shapes, check_lists};
use std::alloc::{AllocError, Global};

// A question of at most 16 signs, by its parts.
#[derive(Clone, Copy)]
pub struct Question {
    parts: [Part; 16],
    signs: usize,
}

impl Question {
    // The question that the signs ask of the lists; or why the lists are none, or it can't be read, or is too large.
    pub fn read(lists: &[u64], signs: &[u64]) -> Result<Question, Refusal>
        ensures refusal { outcome result ≡ first (lists_told lists.now) (first (question_told (asked lists.now signs.now) signs.now) (size_told (sized (asked lists.now signs.now)))) }
        ensures value { IfOk result (λ q. Stands (layout.shapes lists.now) (asked lists.now signs.now) q.parts q.signs) }
    {
        check_lists(lists)?;
        Question::within(Shapes::of(lists), signs)
    }

    // The same, however large it is.
    pub fn parse(lists: &[u64], signs: &[u64]) -> Result<Question, Refusal>
        ensures refusal { outcome result ≡ first (lists_told lists.now) (question_told (asked lists.now signs.now) signs.now) }
        ensures value { IfOk result (λ q. Parses (layout.shapes lists.now) (asked lists.now signs.now) q.parts q.signs) }
    {
        check_lists(lists)?;
        Question::parse_within(Shapes::of(lists), signs)
    }

    // How many lines its answer has.
    pub fn lines(&self) -> u64
        ensures { result ≡ (part_at self.now.parts 0).lines }
    {
        self.parts[0].lines
    }

    // How many columns its answer has.
    pub fn width(&self) -> usize
        ensures { result ≡ (part_at self.now.parts 0).width }
    {
        self.parts[0].width
    }

    // How many nodes its answer's conditions may take.
    pub fn cost(&self) -> u64
        ensures { result ≡ (part_at self.now.parts 0).cost }
    {
        self.parts[0].cost
    }

    // The rows that it gives on filled lists.
    pub fn ask(&self, heap: Global, tables: &[Vec<Vec<u64>>]) -> Result<Vec<Vec<u64>>, AllocError>
        ensures { IfOk result (λ v. rows_of v ≡ ask (query_of 16 self.now.parts) (tables_in tables.now)) }
    {
        ask_rows(heap, &self.parts, 16, tables)
    }

    // Its parts, in reading order; those past its signs are not looked at.
    pub fn parts(&self) -> &[Part]
        ensures { result.now ≡ self.now.parts }
    {
        &self.parts
    }

    // The question that the signs ask of lists of these shapes; or why it can't be read, or is too large.
    pub fn within(shapes: Shapes, signs: &[u64]) -> Result<Question, Refusal>
        ensures refusal { outcome result ≡ first (question_told (reads 16 (pairs_of shapes) 0 (take 96 signs.now)) signs.now) (size_told (sized (reads 16 (pairs_of shapes) 0 (take 96 signs.now)))) }
        ensures value { IfOk result (λ q. Stands (pairs_of shapes) (reads 16 (pairs_of shapes) 0 (take 96 signs.now)) q.parts q.signs) }
    {
        let parsed = Question::parse_within(shapes, signs);
        let Ok(question) = parsed else {
            return parsed;
        };
        question.check_size()?;
        parsed
    }

    // The question that the signs ask of lists of these shapes, however large; or the sign at which it can't be read.
    fn parse_within(shapes: Shapes, signs: &[u64]) -> Result<Question, Refusal>
        ensures refusal { outcome result ≡ question_told (reads 16 (pairs_of shapes) 0 (take 96 signs.now)) signs.now }
        ensures value { IfOk result (λ q. Parses (pairs_of shapes) (reads 16 (pairs_of shapes) 0 (take 96 signs.now)) q.parts q.signs) }
    {
        let mut parts = [Part {
            sign: Sign::Rows(0),
            lines: 0,
            width: 0,
            cost: 0,
        }; 16];
        let next = read(front(signs), 16, 0, &shapes, &mut parts)?.next;
        if 6 * next != signs.len() {
            return Err(Refusal::BadQuestion(next as u64));
        }
        Ok(Question { parts, signs: next })
    }

    // Refused where its answer would have more than 4,096 lines, or else cost more than 65,536.
    pub fn check_size(&self) -> Result<(), Refusal>
        ensures { outcome result ≡ sizes_told (part_at self.now.parts 0).lines (part_at self.now.parts 0).cost }
    {
        if self.lines() > 4096 {
            return Err(Refusal::TooManyLines);
        }
        if self.cost() > 65536 {
            return Err(Refusal::TooCostly);
        }
        Ok(())
    }
}

// At most the numbers of 16 signs.
fn front(signs: &[u64]) -> &[u64]
    ensures { result.now ≡ take 96 signs.now }
{
    &signs[..signs.len().min(96)]
}
