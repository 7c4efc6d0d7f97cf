// What is learned of the worked example, step by step, and what is written over: which rows of an answer are sure, before and after.
#![tactic(auto)]

use answer::{ask, with_room};
use books::tell_book;
use children::tell_children;
use condition::{Cell, Node, Refusal, append, cell_at};
use decide::sure_rows;
use learn::{learn, write_over, write_over_answer};
use std::alloc::{AllocError, Global};
use std::io;
use tidied::tell_tidied;

mod books;
mod children;
mod tidied;

// Baptisms (child, father) and marriages (man, woman); every line under node 0, and node 6 is known.
const LISTS: [u64; 31] = [
    2, 6, 3, 2, 0, 0, 1, 0, 10, 0, 0, 2, 1, 0, 0, 0, 3, 1, 1, 2, 2, 0, 0, 10, 0, 20, 0, 0, 11, 1, 2,
];

// Always; g0 is 10 or 11, and g0 and g1 differ.
const NODES: [u64; 36] = [
    7, 0, 0, 0, 0, 0, 2, 1, 0, 0, 10, 2, 1, 0, 0, 11, 5, 1, 2, 0, 0, 2, 1, 0, 1, 1, 3, 4, 0, 0, 0,
    4, 3, 5, 0, 0,
];

// Child and woman, where the father is the man; its answer has six lines of two cells.
const MOTHERS: [u64; 30] = [
    5, 2, 0, 3, 0, 0, 1, 1, 2, 0, 0, 0, 6, 0, 0, 0, 0, 0, 0, 0, 0, 0, 0, 0, 0, 1, 0, 0, 0, 0,
];

// The lists, the store and an answer to the question above.
#[derive(Drop)]
struct Book {
    lists: Vec<u64>,
    nodes: Vec<u64>,
    answer: Vec<u64>,
}

fn main(rt: HostRuntime) -> anyhow::Result<()> {
    tell_learning(&rt)?;
    println!(rt)?;
    tell_children(&rt)?;
    println!(rt)?;
    tell_writing(&rt)?;
    println!(rt)?;
    tell_refusals(&rt)?;
    println!(rt)?;
    tell_tidied(&rt)?;
    println!(rt)?;
    tell_book(&rt)
}

// The lists and the store of the example, with room for a question of that cost.
fn begin(heap: Global, cost: u64) -> Result<Book, AllocError> {
    Ok(Book {
        lists: Vec::from_slice(heap, &LISTS)?,
        nodes: with_room(heap, &NODES, cost)?,
        answer: vec![in heap; 0u64; 30]?,
    })
}

// Conditions are learned.
fn tell_learning(rt: &HostRuntime) -> anyhow::Result<()> {
    let mut book = begin(rt.alloc(), 200)?;
    tell_asked(rt, &mut book)?;
    tell_learned(
        rt,
        &mut book,
        "g2 is 20",
        Node::Equal(Cell::Gap(2), Cell::Number(20)),
    )?;
    tell_sure(rt, &book, &book.answer, "the answer from before")?;
    tell_asked(rt, &mut book)?;
    tell_learned(
        rt,
        &mut book,
        "g0 is 12",
        Node::Equal(Cell::Gap(0), Cell::Number(12)),
    )?;
    tell_learned(
        rt,
        &mut book,
        "g0 is 10",
        Node::Equal(Cell::Gap(0), Cell::Number(10)),
    )?;
    tell_learned(
        rt,
        &mut book,
        "g1 is 10",
        Node::Equal(Cell::Gap(1), Cell::Number(10)),
    )?;
    tell_sure(rt, &book, &book.answer, "the answer from before")?;
    match learn(rt.alloc(), &mut book.lists, &mut book.nodes, 1000) {
        Ok(()) => println!(rt; "node 1000 is learned")?,
        Err(refusal) => println!(rt; "node 1000: {refusal}")?,
    }
    Ok(())
}

// A number is written over its gap in the lists, and in one of two copies of an answer: the same rows are sure of both, and of the
// answer that is asked for anew.
fn tell_writing(rt: &HostRuntime) -> anyhow::Result<()> {
    let mut book = begin(rt.alloc(), 200)?;
    tell_asked(rt, &mut book)?;
    let mut written = Vec::from_slice(rt.alloc(), &book.answer)?;
    tell_written(rt, &mut book, 2, 20)?;
    tell_answer_written(rt, &mut written, 6, 2, 20)?;
    tell_lines(rt, &book.answer, "the answer from before")?;
    tell_sure(rt, &book, &book.answer, "the answer from before")?;
    tell_lines(rt, &written, "the answer written over")?;
    tell_sure(rt, &book, &written, "the answer written over")?;
    tell_asked(rt, &mut book)?;
    tell_lines(rt, &book.answer, "the answer")?;
    tell_written(rt, &mut book, 2, 21)?;
    Ok(())
}

// What can't be written over.
fn tell_refusals(rt: &HostRuntime) -> anyhow::Result<()> {
    let mut book = begin(rt.alloc(), 200)?;
    tell_written(rt, &mut book, 64, 20)?;
    tell_written(rt, &mut book, 0, 12)?;
    tell_answer_written(rt, &mut book.answer, 7, 2, 20)?;
    let mut full = Book {
        nodes: Vec::from_slice(rt.alloc(), &NODES)?,
        ..begin(rt.alloc(), 0)?
    };
    tell_written(rt, &mut full, 2, 20)?;
    Ok(())
}

// Asks the question of the lists, and lists the sure rows of the answer.
fn tell_asked(rt: &HostRuntime, book: &mut Book) -> io::Result<()> {
    match ask(&book.lists, &MOTHERS, &mut book.nodes, &mut book.answer) {
        Ok(lines) => println!(rt; "asked: {lines} lines")?,
        Err(refusal) => println!(rt; "asked: {refusal}")?,
    }
    tell_sure(rt, book, &book.answer, "the answer")
}

// Adds a node, and learns it.
fn tell_learned(rt: &HostRuntime, book: &mut Book, name: &str, node: Node) -> io::Result<()> {
    match learned(rt.alloc(), book, node) {
        Ok(()) => println!(rt; "{name}: learned"),
        Err(refusal) => println!(rt; "{name}: {refusal}"),
    }
}

fn learned(heap: Global, book: &mut Book, node: Node) -> Result<(), Refusal> {
    let new = append(&mut book.nodes, node)?;
    learn(heap, &mut book.lists, &mut book.nodes, new)
}

// Writes a number over a gap in the lists and the store.
fn tell_written(rt: &HostRuntime, book: &mut Book, gap: u64, number: u64) -> io::Result<()> {
    match write_over(rt.alloc(), &mut book.lists, &mut book.nodes, gap, number) {
        Ok(()) => println!(rt; "g{gap} is {number}: written over"),
        Err(refusal) => println!(rt; "g{gap} is {number}: {refusal}"),
    }
}

// Writes it over in an answer of so many lines.
fn tell_answer_written(
    rt: &HostRuntime,
    answer: &mut [u64],
    lines: u64,
    gap: u64,
    number: u64,
) -> io::Result<()> {
    match write_over_answer(answer, lines, 2, gap, number) {
        Ok(()) => println!(rt; "g{gap} is {number}: written over in the answer"),
        Err(refusal) => println!(rt; "{lines} lines of the answer: {refusal}"),
    }
}

// The cells of an answer's lines.
fn tell_lines(rt: &HostRuntime, answer: &[u64], name: &str) -> io::Result<()> {
    print!(rt; "{name}: lines:")?;
    for line in answer.chunks_exact(5) {
        print!(rt; " ({} {})", cell_at(line, 1), cell_at(line, 3))?;
    }
    println!(rt)
}

// The sure rows of an answer.
fn tell_sure(rt: &HostRuntime, book: &Book, answer: &[u64], name: &str) -> io::Result<()> {
    let mut rows = [0; 12];
    match sure_rows(
        rt.alloc(),
        &book.lists,
        &book.nodes,
        answer,
        6,
        2,
        &mut rows,
    ) {
        Ok(count) => {
            print!(rt; "{name}: {count} sure:")?;
            for row in rows.chunks_exact(2).take(count as usize) {
                print!(rt; " ({} {})", row[0], row[1])?;
            }
            println!(rt)
        }
        Err(refusal) => println!(rt; "{name}: {refusal}"),
    }
}
