// Answers a file of questions on lists with gaps, read from standard input: lists the sure rows of each answer, and tells how the rows
// asked about stand.
#![tactic(auto)]

mod answers;
mod arguments;
mod gaps;
mod reading;
mod telling;

use answers::Answer;
use arguments::{HELP, Shown, Wish};
use file_bytes::Input;
use reading::{Asked, Book};
use std::alloc::Global;
use std::io::Read;

// The highest cost of a question that is answered here.
const MOST_COST: u64 = 512;

fn main(rt: HostRuntime) -> anyhow::Result<()> {
    match Wish::read(&rt)? {
        Wish::Answers(shown) => answer_file(&rt, shown),
        Wish::Help => Ok(rt.print(HELP)?),
    }
}

fn answer_file(rt: &HostRuntime, shown: Shown) -> anyhow::Result<()> {
    let heap = rt.alloc();
    let mut bytes = Vec::new(heap);
    rt.stdin().read_to_end(&mut bytes)?;
    let mut input = Input::new(&bytes);
    match Book::read(heap, &mut input) {
        Ok(book) => answer_all(rt, heap, &mut input, &book, shown),
        Err(refusal) => Ok(rt.println(refusal)?),
    }
}

// Each question to the end of the file, or to one that can't be read: what stands behind it can't be cut into rows.
fn answer_all(
    rt: &impl Print,
    heap: Global,
    input: &mut Input,
    book: &Book,
    shown: Shown,
) -> anyhow::Result<()> {
    while input.left() > 0 {
        match Asked::read(heap, input, &book.lists) {
            Ok(asked) => answer(rt, heap, book, &asked, shown)?,
            Err(refusal) => return Ok(rt.println(refusal)?),
        }
    }
    Ok(())
}

// What is told of the answer and of the rows asked about; or that the question is too large.
fn answer(
    rt: &impl Print,
    heap: Global,
    book: &Book,
    asked: &Asked,
    shown: Shown,
) -> anyhow::Result<()> {
    if let Err(refusal) = asked.question.check_size() {
        return Ok(rt.println(refusal)?);
    }
    if asked.question.cost() > MOST_COST {
        let first = MOST_COST + 1;
        return Ok(println!(rt; "refused 5 {first}")?);
    }
    match Answer::of(heap, book, asked) {
        Ok(answer) => telling::tell(rt, heap, &answer, &asked.rows, shown)?,
        Err(refusal) => rt.println(refusal)?,
    }
    Ok(())
}
