// Rows of random answers decided, and their sure rows listed, beside what trying all fillings shows.

use crate::drawing::{draw_answer, draw_line, draw_row};
use crate::random::Random;
use crate::showing::show;
use crate::trying::Answer;
use condition::Refusal;
use decide::{Standing, decide_row, sure_rows};
use std::alloc::Global;
use std::fmt;

const LINES: u64 = 1000;

const ANSWERS: u64 = 300;

// What stands in a slice before rows are listed there.
const UNWRITTEN: u64 = 77;

// How many rows stand how, or are refused with 9.
#[derive(Clone, Copy, Default)]
pub struct Standings {
    sure: u64,
    possible: u64,
    impossible: u64,
    nothing_fits: u64,
    refused: u64,
}

impl Standings {
    // One more row that stands so.
    pub fn count(&mut self, standing: Standing) {
        let count = match standing {
            Standing::Sure => &mut self.sure,
            Standing::Possible => &mut self.possible,
            Standing::Impossible => &mut self.impossible,
            Standing::NothingFits => &mut self.nothing_fits,
        };
        *count = count.saturating_add(1);
    }
}

impl fmt::Display for Standings {
    fn fmt<W: fmt::Write>(&self, f: &mut fmt::Formatter<W>) -> fmt::Result {
        let Standings {
            sure,
            possible,
            impossible,
            nothing_fits,
            refused,
        } = *self;
        write!(
            f,
            "{sure} sure, {possible} possible, {impossible} impossible, {nothing_fits} where nothing fits, {refused} refused with 9"
        )
    }
}

// How many lists of sure rows came to what.
#[derive(Clone, Copy, Default)]
struct Lists {
    listed: u64,
    rows: u64,
    too_much: u64,
    nothing_fits: u64,
    no_room: u64,
}

impl Lists {
    // One more list of so many rows, or one that is refused with 9, 11 or 12.
    fn count(&mut self, told: Result<u64, Refusal>) {
        let count = match told.map_err(Refusal::told) {
            Ok(rows) => {
                self.rows = self.rows.saturating_add(rows);
                &mut self.listed
            }
            Err((9, _)) => &mut self.too_much,
            Err((11, _)) => &mut self.nothing_fits,
            Err(_) => &mut self.no_room,
        };
        *count = count.saturating_add(1);
    }
}

impl fmt::Display for Lists {
    fn fmt<W: fmt::Write>(&self, f: &mut fmt::Formatter<W>) -> fmt::Result {
        let Lists {
            listed,
            rows,
            too_much,
            nothing_fits,
            no_room,
        } = *self;
        write!(
            f,
            "{listed} with {rows} rows, {too_much} refused with 9, {nothing_fits} with 11, {no_room} with 12"
        )
    }
}

// Lines under one condition each: whether their row is there.
pub fn decide_lines(rt: &HostRuntime, heap: Global, random: &mut Random) -> anyhow::Result<()> {
    let mut standings = Standings::default();
    for _ in 0..LINES {
        let number = random.below(5);
        let answer = draw_line(heap, random, number)?;
        try_row(rt, &answer, &[number], &mut standings)?;
    }
    println!(rt; "{LINES} conditions: {standings}")?;
    Ok(())
}

// A row of each of many answers, and the list of its sure rows.
pub fn decide_answers(rt: &HostRuntime, heap: Global, random: &mut Random) -> anyhow::Result<()> {
    let mut standings = Standings::default();
    let mut lists = Lists::default();
    for _ in 0..ANSWERS {
        let answer = draw_answer(heap, random)?;
        let row = draw_row(&answer, random)?;
        try_row(rt, &answer, &row, &mut standings)?;
        let room = if random.below(3) == 0 {
            random.below(4)
        } else {
            18
        };
        try_list(rt, &answer, room as usize, &mut lists)?;
    }
    println!(rt; "{ANSWERS} rows: {standings}")?;
    println!(rt; "{ANSWERS} lists of sure rows: {lists}")?;
    Ok(())
}

// Decides a row and tries it; what does not agree is shown and not counted.
fn try_row(
    rt: &HostRuntime,
    answer: &Answer,
    row: &[u64],
    standings: &mut Standings,
) -> anyhow::Result<()> {
    match row_agrees(answer, row, standings) {
        Ok(true) => Ok(()),
        Ok(false) => fail(rt, answer, row, "a row stands otherwise"),
        Err(_) => fail(rt, answer, row, "no memory for a row"),
    }
}

// Whether a row stands, or is refused, as trying tells.
fn row_agrees(answer: &Answer, row: &[u64], standings: &mut Standings) -> Result<bool, Refusal> {
    let decided = decide_row(
        answer.heap,
        &answer.lists(),
        &answer.store()?,
        &answer.numbers()?,
        answer.lines.len() as u64,
        answer.width as u64,
        row,
    );
    let wanted = answer.standing(row)?;
    match (decided, answer.nine(row)?) {
        (Ok(standing), None) if standing == wanted => standings.count(standing),
        (Err(refusal), Some(place)) if refusal.told() == (9, place) => {
            standings.refused = standings.refused.saturating_add(1);
        }
        _ => return Ok(false),
    }
    Ok(true)
}

// Lists the sure rows in a slice of so many numbers, and tries all; what does not agree is shown and not counted.
fn try_list(
    rt: &HostRuntime,
    answer: &Answer,
    room: usize,
    lists: &mut Lists,
) -> anyhow::Result<()> {
    match list_agrees(answer, room, lists) {
        Ok(true) => Ok(()),
        Ok(false) => fail(rt, answer, &[room as u64], "other rows are sure"),
        Err(_) => fail(rt, answer, &[room as u64], "no memory for a list"),
    }
}

// Whether the rows are listed, or refused, as trying tells.
fn list_agrees(answer: &Answer, room: usize, lists: &mut Lists) -> Result<bool, Refusal> {
    let mut out = vec![in answer.heap; UNWRITTEN; room]?;
    let told = sure_rows(
        answer.heap,
        &answer.lists(),
        &answer.store()?,
        &answer.numbers()?,
        answer.lines.len() as u64,
        answer.width as u64,
        out.as_mut_slice(),
    );
    let rows = answer.sure_rows()?;
    let agrees = match told {
        Ok(n) => are_listed(answer, rows, n, &out)?,
        Err(refusal) => {
            let unwritten = out.iter().all(|n| *n == UNWRITTEN);
            unwritten && is_refused(answer, rows, room, refusal)?
        }
    };
    if agrees {
        lists.count(told);
    }
    Ok(agrees)
}

// Whether n rows stand at the front of a slice: the sure ones, of which none names too much or has a number that stands nowhere.
fn are_listed(
    answer: &Answer,
    rows: Option<Vec<Vec<u64>>>,
    n: u64,
    out: &[u64],
) -> Result<bool, Refusal> {
    let Some(rows) = rows else {
        return Ok(false);
    };
    let mut wanted = Vec::new(answer.heap);
    for row in &rows {
        wanted.extend_from_slice(row)?;
    }
    let names = answer.names()?;
    let (front, rest) = out.split_at(wanted.len().min(out.len()));
    Ok(
        n == rows.len() as u64
            && front == wanted.as_slice()
            && front.iter().all(|n| names.numbers.contains(n))
            && rest.iter().all(|n| *n == UNWRITTEN)
            && answer.nine_of_known()?.is_none()
            && answer.first_nine(&rows)?.is_none(),
    )
}

// Whether the list of sure rows is rightly refused, as far as trying can tell: a row that names too much may be one that is not sure.
fn is_refused(
    answer: &Answer,
    rows: Option<Vec<Vec<u64>>>,
    room: usize,
    refusal: Refusal,
) -> Result<bool, Refusal> {
    let nine = answer.nine_of_known()?;
    match (refusal.told(), rows) {
        ((9, place), rows) => {
            let most = answer.names()?.numbers.len() as u64;
            let may = rows.is_some() && place > 72 && place <= most.saturating_add(64);
            Ok(nine.map_or(may, |nine| nine == place))
        }
        ((11, 0), None) => Ok(nine.is_none()),
        ((12, place), Some(rows)) => {
            let fit = (room / answer.width.max(1)) as u64;
            let few = nine.is_none() && answer.first_nine(&rows)?.is_none();
            Ok(few && place == fit && rows.len() as u64 > fit)
        }
        _ => Ok(false),
    }
}

// Shows the whole answer that does not agree.
fn fail(rt: &HostRuntime, answer: &Answer, numbers: &[u64], why: &str) -> anyhow::Result<()> {
    let width = answer.width;
    println!(rt; "{why}, width {width}")?;
    show(rt, "lists", &answer.lists())?;
    show(rt, "nodes", &answer.store()?)?;
    show(rt, "answer", &answer.numbers()?)?;
    show(rt, "row or room", numbers)
}
