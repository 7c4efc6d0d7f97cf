// Learning in random books: to ask first and learn later beside to learn first and ask then; the same with a number written over a gap, in
// the lists alone or in the answer too; and tidied answers. Beside them, under every filling, the rows that the question gives on the filled
// lists.

use crate::cases::{Case, Shown, asked_rows, draw, fail, filled_rows, some_cell, some_gap};
use crate::names::{Names, Tried};
use crate::plain::{Numbers, holds, nodes_of};
use crate::random::Random;
use answer::{ask, with_room};
use condition::{Node, Refusal, append};
use learn::{learn, tidy_answer, write_over, write_over_answer};
use query::Question;
use std::alloc::Global;
use std::fmt;

const BOOKS: u64 = 800;

// A number that is higher than all that a case names.
const OTHERS: u64 = 1000;

// How many books came to what.
#[derive(Clone, Copy, Default)]
struct Score {
    learned: u64,
    would_not_fit: u64,
    too_large: u64,
    written: u64,
    not_written: u64,
    tidied: u64,
    fillings: u64,
    rows: u64,
}

// In three lines.
impl fmt::Display for Score {
    fn fmt<W: fmt::Write>(&self, f: &mut fmt::Formatter<W>) -> fmt::Result {
        let Score {
            learned,
            would_not_fit,
            too_large,
            written,
            not_written,
            tidied,
            fillings,
            rows,
        } = *self;
        writeln!(
            f,
            "{BOOKS} books: {learned} learned, {would_not_fit} refused with 10, {too_large} too large to try"
        )?;
        writeln!(
            f,
            "numbers over gaps: {written} written, {not_written} refused with 10; {tidied} answers tidied"
        )?;
        write!(f, "{rows} rows under {fillings} fillings")
    }
}

// A case whose lists and store grow; what it names, and what is known of it, as nodes that all hold.
#[derive(Drop)]
struct Book<'c> {
    heap: Global,
    case: &'c Case,
    question: Question,
    lists: Vec<u64>,
    nodes: Vec<u64>,
    names: Names,
    known: Vec<u64>,
    plain: Vec<[u64; 5]>,
}

// A comparison that is learned, and then the number of a gap.
#[derive(Clone, Copy)]
struct Learned {
    new: Node,
    gap: u64,
    number: u64,
}

pub fn learn_all(rt: &HostRuntime, heap: Global, random: &mut Random) -> anyhow::Result<()> {
    let mut score = Score::default();
    for _ in 0..BOOKS {
        let case = draw(heap, random, [0, 0])?;
        let learned = Learned {
            new: Node::Equal(some_gap(random), some_cell(random)),
            gap: random.below(3),
            number: random.below(4),
        };
        match try_book(heap, &case, learned, &mut score) {
            Ok(None) => {}
            Ok(Some(f)) => fail(rt, &case, "learned otherwise: filling", f)?,
            Err(refusal) => fail(rt, &case, "refused", refusal.told().0)?,
        }
    }
    println!(rt; "{score}")?;
    Ok(())
}

// Asks, learns, asks again, and writes over; the first filling that shows a fault, if one does.
fn try_book(
    heap: Global,
    case: &Case,
    learned: Learned,
    score: &mut Score,
) -> Result<Option<u64>, Refusal> {
    let Some(question) = case.question()? else {
        score.too_large = score.too_large.saturating_add(1);
        return Ok(None);
    };
    let mut book = Book::of(heap, case, question)?;
    let before = book.ask()?;
    let place = book.add(learned.new)?;
    match book.learn(place) {
        Ok(()) => score.learned = score.learned.saturating_add(1),
        Err(Refusal::WouldNotFit(told)) if told == place => {
            score.would_not_fit = score.would_not_fit.saturating_add(1);
            return book.first_fitting();
        }
        Err(refusal) => return Err(refusal),
    }
    let after = book.ask()?;
    if let Some(fault) = book.try_fitting(&[&before, &after], score)? {
        return Ok(Some(fault));
    }
    if let Some(fault) = book.try_tidied(&after, score)? {
        return Ok(Some(fault));
    }
    try_number(&mut book, learned, &before, after, score)
}

// Writes a number over a gap, and asks again; of two answers from before one is written over too.
fn try_number(
    book: &mut Book,
    learned: Learned,
    before: &Vec<u64>,
    mut after: Vec<u64>,
    score: &mut Score,
) -> Result<Option<u64>, Refusal> {
    let Learned { gap, number, .. } = learned;
    let told = book.write_over(gap, number);
    book.know([2, 1, gap, 0, number])?;
    match told {
        Ok(()) => score.written = score.written.saturating_add(1),
        Err(Refusal::WouldNotFit(_)) => {
            score.not_written = score.not_written.saturating_add(1);
            return book.first_fitting();
        }
        Err(refusal) => return Err(refusal),
    }
    write_over_answer(&mut after, book.question.lines(), 2, gap, number)?;
    let anew = book.ask()?;
    if let Some(fault) = book.try_fitting(&[before, &after, &anew], score)? {
        return Ok(Some(fault));
    }
    let named = names_gap(&after, gap) || names_gap(&anew, gap);
    Ok(named.then_some(u64::MAX))
}

// Whether a cell of an answer's lines is a gap.
fn names_gap(answer: &[u64], gap: u64) -> bool {
    let (lines, _) = answer.as_chunks::<5>();
    lines.iter().any(|[_, a, j, b, k]| *a != 0 && *j == gap || *b != 0 && *k == gap)
}

impl<'c> Book<'c> {
    // A case with room to ask three times, to learn and to tidy.
    fn of(heap: Global, case: &'c Case, question: Question) -> Result<Book<'c>, Refusal> {
        let room = question.cost().saturating_mul(6).saturating_add(60);
        Ok(Book {
            heap,
            case,
            lists: case.lists.clone()?,
            nodes: with_room(heap, &case.nodes, room)?,
            names: case.names(heap)?,
            known: vec![in heap; case.known()]?,
            plain: Vec::from_slice(heap, nodes_of(&case.nodes))?,
            question,
        })
    }

    // The lines that answer the question now.
    fn ask(&mut self) -> Result<Vec<u64>, Refusal> {
        let lines = self.question.lines().min(4096) as usize;
        let mut out = vec![in self.heap; 0u64; lines * 5]?;
        ask(&self.lists, &self.case.signs, &mut self.nodes, &mut out)?;
        Ok(out)
    }

    // The place of a condition that is to be learned.
    fn add(&mut self, new: Node) -> Result<u64, Refusal> {
        self.know(<[u64; 5]>::from(new))?;
        append(&mut self.nodes, new)
    }

    // A comparison more that fillings have to fit.
    fn know(&mut self, node: [u64; 5]) -> Result<(), Refusal> {
        self.names.add_nodes(&[node])?;
        self.known.push(self.plain.len() as u64)?;
        Ok(self.plain.push(node)?)
    }

    fn learn(&mut self, place: u64) -> Result<(), Refusal> {
        learn(self.heap, &mut self.lists, &mut self.nodes, place)
    }

    fn write_over(&mut self, gap: u64, number: u64) -> Result<(), Refusal> {
        write_over(self.heap, &mut self.lists, &mut self.nodes, gap, number)
    }

    // Whether a filling fits all that is known, plainly.
    fn fits(&self, numbers: &Numbers) -> bool {
        self.known
            .iter()
            .all(|place| holds(&self.plain, *place, numbers))
    }

    // The first filling that fits, if one does.
    fn first_fitting(&self) -> Result<Option<u64>, Refusal> {
        let tried = self.names.tried(OTHERS)?;
        let mut numbers = [0; 64];
        for f in 0..tried.count() {
            tried.fill(f, &mut numbers);
            if self.fits(&numbers) {
                return Ok(Some(f));
            }
        }
        Ok(None)
    }

    // The first filling that fits under which one of some answers has other rows than the filled lists; past them all where none fits.
    fn try_fitting(
        &self,
        answers: &[&Vec<u64>],
        score: &mut Score,
    ) -> Result<Option<u64>, Refusal> {
        let tried = self.names.tried(OTHERS)?;
        let mut numbers = [0; 64];
        let mut none = true;
        for f in 0..tried.count() {
            tried.fill(f, &mut numbers);
            if self.fits(&numbers) {
                none = false;
                if !self.agree(answers, &tried, &numbers, score)? {
                    return Ok(Some(f));
                }
            }
        }
        Ok(none.then_some(u64::MAX))
    }

    // The first of all fillings under which an answer that is tidied has other rows than the filled lists.
    fn try_tidied(&mut self, answer: &Vec<u64>, score: &mut Score) -> Result<Option<u64>, Refusal> {
        let mut lines = answer.clone()?;
        let count = self.tidy(&mut lines)?;
        lines.truncate((count as usize).saturating_mul(5));
        score.tidied = score.tidied.saturating_add(1);
        let tried = self.names.tried(OTHERS)?;
        let mut numbers = [0; 64];
        for f in 0..tried.count() {
            tried.fill(f, &mut numbers);
            if !self.agree(&[&lines], &tried, &numbers, score)? {
                return Ok(Some(f));
            }
        }
        Ok(None)
    }

    fn tidy(&mut self, lines: &mut Vec<u64>) -> Result<u64, Refusal> {
        let count = self.question.lines();
        tidy_answer(self.heap, &mut self.nodes, lines, count, 2)
    }

    // Whether answers have the rows under a filling that the question gives on the filled lists.
    fn agree(
        &self,
        answers: &[&Vec<u64>],
        tried: &Tried,
        numbers: &Numbers,
        score: &mut Score,
    ) -> Result<bool, Refusal> {
        let filling = tried.filling(numbers);
        let wanted = asked_rows(self.heap, self.case, &self.question, filling)?;
        for out in answers {
            match filled_rows(self.heap, &self.nodes, out, filling, &wanted)? {
                Shown::Agree(rows) => score.rows = score.rows.saturating_add(rows),
                _ => return Ok(false),
            }
        }
        score.fillings = score.fillings.saturating_add(1);
        Ok(true)
    }
}
