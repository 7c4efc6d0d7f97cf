// Entries learned into a book of the worked example, one after the other, and the book written and read again.
use crate::{LISTS, NODES, tell_asked};
use answer::with_room;
use book_file::{Book, Entry};
use condition::Refusal;
use file_bytes::{Input, put};
use std::alloc::Global;

// The wife of 11 is 20: g2 = 20 is node 7.
const WIFE: [u32; 6] = [2, 1, 2, 0, 20, 7];

// The father of 2 is 12, or 10: node 9 where the entry before has been learned.
const NO_FATHER: [u32; 6] = [2, 1, 0, 0, 12, 9];

const FATHER: [u32; 6] = [2, 1, 0, 0, 10, 9];

// No nodes, and node 11 does not stand.
const MISSING: [u32; 1] = [11];

pub fn tell_book(rt: &HostRuntime) -> anyhow::Result<()> {
    let heap = rt.alloc();
    let bytes = first_bytes(heap)?;
    let mut book = Book::read(heap, &bytes)?;
    tell_size(rt, "a book", &book)?;
    tell_entry(rt, &mut book, "g2 is 20", &WIFE)?;
    tell_entry(rt, &mut book, "g0 is 12", &NO_FATHER)?;
    tell_entry(rt, &mut book, "g0 is 10", &FATHER)?;
    tell_entry(rt, &mut book, "node 11", &MISSING)?;
    let bytes = book.bytes(heap)?;
    let again = Book::read(heap, &bytes)?;
    tell_size(rt, "read again", &again)?;
    let mut asked = crate::Book {
        nodes: with_room(heap, &again.nodes, 200)?,
        lists: again.lists,
        answer: vec![in heap; 0u64; 30]?,
    };
    Ok(tell_asked(rt, &mut asked)?)
}

// The worked example as a file holds it.
fn first_bytes(heap: Global) -> anyhow::Result<Vec<u8>> {
    let mut bytes = Vec::new(heap);
    put_all(&mut bytes, &NODES[..1])?;
    put_all(&mut bytes, &LISTS)?;
    put_all(&mut bytes, &NODES[1..])?;
    Ok(bytes)
}

fn put_all(bytes: &mut Vec<u8>, numbers: &[u64]) -> anyhow::Result<()> {
    for number in numbers {
        put(bytes, u32::try_from(*number)?)?;
    }
    Ok(())
}

// Learns the entry with these numbers, and tells what became of the book.
fn tell_entry(
    rt: &HostRuntime,
    book: &mut Book,
    name: &str,
    numbers: &[u32],
) -> anyhow::Result<()> {
    let heap = rt.alloc();
    let before = book.bytes(heap)?;
    match learned(heap, book, numbers)? {
        Ok(known) => println!(rt; "{name}: learned {known}")?,
        Err(refusal) => println!(rt; "{name}: {refusal}")?,
    }
    if book.bytes(heap)?.as_slice() == before.as_slice() {
        return Ok(println!(rt; "the book is as it was")?);
    }
    tell_size(rt, "the book", book)
}

fn learned(heap: Global, book: &mut Book, numbers: &[u32]) -> anyhow::Result<Result<u64, Refusal>> {
    let mut bytes = Vec::new(heap);
    bytes.push(u8::try_from(numbers.len() / 5)?)?;
    for number in numbers {
        put(&mut bytes, *number)?;
    }
    let entry = Entry::read(heap, &mut Input::new(&bytes))?;
    Ok(book.learn(heap, &entry))
}

fn tell_size(rt: &HostRuntime, name: &str, book: &Book) -> anyhow::Result<()> {
    let size = book.bytes(rt.alloc())?.len();
    Ok(println!(rt; "{name}: {size} bytes")?)
}
