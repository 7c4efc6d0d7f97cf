// Keeps a book in a file, and learns the entries that stand on standard input: what is known grows by the condition of a node of each.
#![tactic(auto)]

mod arguments;
mod keeping;

use anyhow::Context;
use arguments::{HELP, Wish};
use book_file::{Book, Entry};
use condition::Refusal;
use file_bytes::Input;
use keeping::Place;
use std::fs;
use std::io::Read;

fn main(rt: HostRuntime) -> anyhow::Result<()> {
    match Wish::read(&rt)? {
        Wish::Learn(path) => learn_into(&rt, path.as_str()),
        Wish::Help => Ok(rt.print(HELP)?),
    }
}

// Reads the book, and learns each entry into it; or tells why it is none.
fn learn_into(rt: &HostRuntime, path: &str) -> anyhow::Result<()> {
    let place = Place::of(rt, path).context(format_args!("the book {path} can't be found"))?;
    let bytes = fs::read(rt, path).context(format_args!("the book {path} can't be read"))?;
    match Book::read(rt.alloc(), &bytes) {
        Ok(mut book) => learn_all(rt, &mut book, &place),
        Err(refusal) => Ok(rt.println(refusal)?),
    }
}

// Each entry to the end of the input, or to one that is cut short.
fn learn_all(rt: &HostRuntime, book: &mut Book, place: &Place) -> anyhow::Result<()> {
    let heap = rt.alloc();
    let mut bytes = Vec::new(heap);
    rt.stdin()
        .read_to_end(&mut bytes)
        .context("the entries can't be read")?;
    let mut input = Input::new(&bytes);
    while input.left() > 0 {
        match Entry::read(heap, &mut input) {
            Ok(entry) => learn_entry(rt, book, place, &entry)?,
            Err(refusal) => return Ok(rt.println(refusal)?),
        }
    }
    Ok(())
}

// What is learned is kept before it is told.
fn learn_entry(
    rt: &HostRuntime,
    book: &mut Book,
    place: &Place,
    entry: &Entry,
) -> anyhow::Result<()> {
    match book.learn(rt.alloc(), entry) {
        Ok(known) => {
            place.keep(rt, book)?;
            Ok(println!(rt; "learned {known}")?)
        }
        Err(refusal) => Ok(rt.println(refusal)?),
    }
}
