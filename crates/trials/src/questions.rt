// Random questions on random lists: under every filling from a small range that fits what is known, the answer's rows beside those that
// the question gives on the filled lists; and how a row stands, beside what all fillings show.

use crate::answers::Standings;
use crate::cases::{Case, Shown, asked_rows, compare, draw, fail, filling};
use crate::plain::{holds, nodes_of};
use crate::random::Random;
use crate::trying::Seen;
use answer::{ask, with_room};
use condition::Refusal;
use decide::{Standing, decide_row};
use query::{Question, stands};
use std::alloc::{AllocError, Global};
use std::fmt;

const CASES: u64 = 500;

const FILLINGS: u64 = 64;

// A number that is higher than all that a case names.
const OTHERS: u64 = 1000;

// How many questions came to what.
#[derive(Clone, Copy, Default)]
struct Score {
    answered: u64,
    too_large: u64,
    fillings: u64,
    rows: u64,
    // Two rows of each.
    standings: Standings,
    // Signs of the questions that agreed, by kind.
    kinds: [u64; 9],
}

// In four lines.
impl fmt::Display for Score {
    fn fmt<W: fmt::Write>(&self, f: &mut fmt::Formatter<W>) -> fmt::Result {
        let Score {
            answered,
            too_large,
            fillings,
            rows,
            standings,
            kinds,
        } = *self;
        writeln!(
            f,
            "{answered} of {CASES} questions agreed, {too_large} too large to try"
        )?;
        writeln!(f, "{rows} rows under {fillings} fillings that fit")?;
        writeln!(f, "two rows of each: {standings}")?;
        write!(f, "signs by kind:")?;
        for n in kinds {
            write!(f, " {n}")?;
        }
        Ok(())
    }
}

// Questions, and rows drawn apart from them.
pub fn ask_questions(
    rt: &HostRuntime,
    heap: Global,
    random: &mut Random,
    drawn: &mut Random,
) -> anyhow::Result<()> {
    let mut score = Score::default();
    for _ in 0..CASES {
        let row = [drawn.below(4), drawn.below(4)];
        let case = draw(heap, random, row)?;
        trial(rt, heap, &case, &mut score)?;
    }
    println!(rt; "{score}")?;
    Ok(())
}

// Asks, and tries the answer under every filling; a case that does not agree is shown whole.
fn trial(rt: &HostRuntime, heap: Global, case: &Case, score: &mut Score) -> anyhow::Result<()> {
    let (lists, signs) = (case.lists.as_slice(), case.signs.as_slice());
    let question = match case.question() {
        Ok(Some(question)) => question,
        Ok(None) => {
            score.too_large = score.too_large.saturating_add(1);
            return Ok(());
        }
        Err(refusal) => return fail(rt, case, "refused", refusal.told().0),
    };
    let mut nodes = with_room(heap, &case.nodes, question.cost())?;
    let mut out = vec![in heap; 0u64; question.lines().min(4096) as usize * 5]?;
    if let Err(refusal) = ask(lists, signs, &mut nodes, &mut out) {
        return fail(rt, case, "refused", refusal.told().0);
    }
    match try_fillings(
        heap,
        case,
        &question,
        nodes.as_slice(),
        out.as_slice(),
        score,
    ) {
        Ok(None) => {}
        Ok(Some(f)) => return fail(rt, case, "differs under filling", f),
        Err(refusal) => return fail(rt, case, "refused", refusal.told().0),
    }
    match try_rows(
        heap,
        case,
        &question,
        nodes.as_slice(),
        out.as_slice(),
        score,
    ) {
        Ok(None) => {}
        Ok(Some(i)) => return fail(rt, case, "stands otherwise: row", i),
        Err(refusal) => return fail(rt, case, "refused", refusal.told().0),
    }
    score.answered = score.answered.saturating_add(1);
    count_kinds(signs, score);
    Ok(())
}

// The answer under every filling; the first under which it differs, if one does.
fn try_fillings(
    heap: Global,
    case: &Case,
    question: &Question,
    nodes: &[u64],
    out: &[u64],
    score: &mut Score,
) -> Result<Option<u64>, Refusal> {
    for f in 0..FILLINGS {
        match compare(heap, case, question, nodes, out, filling(f, 4))? {
            Shown::Unfit => {}
            Shown::Agree(rows) => {
                score.fillings = score.fillings.saturating_add(1);
                score.rows = score.rows.saturating_add(rows);
            }
            Shown::Differ => return Ok(Some(f)),
        }
    }
    Ok(None)
}

// How two rows stand, the case's and one like a line's; the first that stands otherwise, if one does.
fn try_rows(
    heap: Global,
    case: &Case,
    question: &Question,
    nodes: &[u64],
    out: &[u64],
    score: &mut Score,
) -> Result<Option<u64>, Refusal> {
    let rows = [case.row, line_row(out, case.row)];
    for (i, row) in rows.iter().enumerate() {
        match standing(heap, case, question, nodes, out, row)? {
            Some(standing) => score.standings.count(standing),
            None => return Ok(Some(i as u64)),
        }
    }
    Ok(None)
}

// A row with the known cells of a line of the answer, if it has lines.
fn line_row(out: &[u64], row: [u64; 2]) -> [u64; 2] {
    let lines = out.len() / 5;
    let i = (row[0].saturating_mul(4).saturating_add(row[1])) as usize % lines.max(1);
    match out.chunks_exact(5).nth(i) {
        Some(line) => [
            known_or(line[1], line[2], row[0]),
            known_or(line[3], line[4], row[1]),
        ],
        None => row,
    }
}

// The number of a cell that is known, or another.
fn known_or(tag: u64, name: u64, number: u64) -> u64 {
    if tag == 0 { name } else { number }
}

// How a row stands, if trying all fillings of all gaps that the case names finds the same.
fn standing(
    heap: Global,
    case: &Case,
    question: &Question,
    nodes: &[u64],
    out: &[u64],
    row: &[u64],
) -> Result<Option<Standing>, Refusal> {
    let lines = question.lines();
    let standing = decide_row(heap, &case.lists, nodes, out, lines, 2, row)?;
    let mut names = case.names(heap)?;
    names.add_row(row)?;
    let tried = names.tried(OTHERS)?;
    let plain = nodes_of(&case.nodes);
    let mut numbers = [0; 64];
    let mut seen = Seen::default();
    for f in 0..tried.count() {
        tried.fill(f, &mut numbers);
        if holds(plain, case.known(), &numbers) {
            let rows = asked_rows(heap, case, question, tried.filling(&numbers))?;
            seen.see(stands(row, rows.as_slice()));
        }
    }
    Ok((seen.standing() == standing).then_some(standing))
}

// The signs of a question that agreed, by their kinds.
fn count_kinds(signs: &[u64], score: &mut Score) {
    for sign in signs.chunks_exact(6) {
        if let Some(count) = score.kinds.get_mut(sign[0] as usize) {
            *count = count.saturating_add(1);
        }
    }
}
