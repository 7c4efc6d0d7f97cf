// How large the answers to large questions are; and, where the argument is `time`, how long asking takes for each unit of cost.
#![tactic(auto)]

use answer::{ask, with_room};
use condition::Cell;
use query::Question;
use std::alloc::{AllocError, Global};
use std::time::Instant;
use std::{env, fmt, io};

const REPEATS: u64 = 400;

// The most that a question may cost.
const MOST_COST: u64 = 65536;

// A store with one node, which says always.
const STORE: [u64; 6] = [1, 0, 0, 0, 0, 0];

// Baptisms (child, father) and marriages (man, woman); every line under node 0.
const BOOKS: [u64; 31] = [
    2, 0, 3, 2, 0, 0, 1, 0, 10, 0, 0, 2, 1, 0, 0, 0, 3, 1, 1, 2, 2, 0, 0, 10, 0, 20, 0, 0, 11, 1, 2,
];

// Child and woman, where the father is the man: columns, test, join and the two lists.
const MOTHERS: [u64; 30] = [
    5, 2, 0, 3, 0, 0, 1, 1, 2, 0, 0, 0, 6, 0, 0, 0, 0, 0, 0, 0, 0, 0, 0, 0, 0, 1, 0, 0, 0, 0,
];

// What one question takes.
#[derive(Clone, Copy)]
struct Figures {
    lines: u64,
    cost: u64,
    // Nodes that asking added.
    nodes: u64,
    // The shortest time of several calls, in nanoseconds.
    time: u64,
}

// All but the time.
impl fmt::Display for Figures {
    fn fmt<W: fmt::Write>(&self, f: &mut fmt::Formatter<W>) -> fmt::Result {
        let Figures {
            lines,
            cost,
            nodes,
            ..
        } = *self;
        write!(f, "{lines} lines, cost {cost}, {nodes} nodes added")
    }
}

// Lists, a store with room for the dearest of the questions, and memory for an answer.
#[derive(Drop)]
struct Memory {
    lists: Vec<u64>,
    nodes: Vec<u64>,
    out: Vec<u64>,
}

fn main(rt: HostRuntime) -> anyhow::Result<()> {
    run(&rt)
}

fn run(rt: &HostRuntime) -> anyhow::Result<()> {
    let heap = rt.alloc();
    let timed = wants_time(rt)?;
    baptisms(rt, heap)?;
    let mut memory = large(heap)?;
    let questions = [
        ("a join with five tests", join_with_tests(heap)?),
        ("a test of seven nested joins", nested_joins(heap)?),
        ("without over one column", without(heap, 0, 3, 1)?),
        ("without over two columns", without(heap, 2, 2, 3)?),
    ];
    for (name, signs) in &questions {
        tell(rt, name, &mut memory, signs.as_slice(), timed)?;
    }
    Ok(())
}

// Whether the first argument is `time`.
fn wants_time(rt: &HostRuntime) -> io::Result<bool> {
    let mut args = env::args(rt)?;
    let _ = args.next();
    Ok(args.next().is_some_and(|word| word.as_str() == "time"))
}

// The question of the worked example, with its join alone.
fn baptisms(rt: &HostRuntime, heap: Global) -> anyhow::Result<()> {
    let mut memory = Memory {
        lists: Vec::from_slice(heap, &BOOKS)?,
        nodes: with_room(heap, &STORE, Question::read(&BOOKS, &MOTHERS)?.cost())?,
        out: vec![in heap; 0u64; 30]?,
    };
    let figures = measure(rt, &mut memory, &MOTHERS, 1)?;
    let join = Question::read(&BOOKS, &MOTHERS[12..30])?.cost();
    let test = figures.cost.saturating_sub(join);
    println!(rt;
        "child and woman: {figures}, of the cost {join} for the join and {test} for the test"
    )?;
    Ok(())
}

// The figures of a question, and if it is timed the time for each unit of its cost.
fn tell(
    rt: &HostRuntime,
    name: &str,
    memory: &mut Memory,
    signs: &[u64],
    timed: bool,
) -> anyhow::Result<()> {
    let repeats = if timed { REPEATS } else { 1 };
    let figures = measure(rt, memory, signs, repeats)?;
    if timed {
        let tenths = figures.time.saturating_mul(10) / figures.cost.max(1);
        let whole = tenths / 10;
        let tenth = tenths % 10;
        println!(rt; "{name}: {figures}, {whole}.{tenth} ns for each unit of cost")?;
    } else {
        println!(rt; "{name}: {figures}")?;
    }
    Ok(())
}

// Asks a question of the lists several times, each time of a store with one node; a refusal is a fault of this program.
fn measure(
    rt: &HostRuntime,
    memory: &mut Memory,
    signs: &[u64],
    repeats: u64,
) -> anyhow::Result<Figures> {
    let cost = Question::read(memory.lists.as_slice(), signs)?.cost();
    let nodes = memory.nodes.as_mut_slice();
    let mut figures = Figures {
        lines: 0,
        cost,
        nodes: 0,
        time: u64::MAX,
    };
    for _ in 0..repeats {
        set_count(nodes, 1);
        let start = Instant::now(rt)?;
        figures.lines = ask(
            memory.lists.as_slice(),
            signs,
            nodes,
            memory.out.as_mut_slice(),
        )?;
        let time = start.elapsed(rt)?.as_nanos();
        figures.time = figures.time.min(u64::try_from(time).unwrap_or(u64::MAX));
    }
    let count = nodes.first().copied().unwrap_or(0);
    figures.nodes = count.saturating_sub(1);
    Ok(figures)
}

fn set_count(nodes: &mut [u64], count: u64) {
    if let Some(first) = nodes.first_mut() {
        *first = count;
    }
}

// Five lists: 64 lines and 12 lines of one column, 64 lines and 18 lines of two, and one line of one.
fn large(heap: Global) -> Result<Memory, AllocError> {
    let mut lists = Vec::new(heap);
    lists.push(5)?;
    lists.push(0)?;
    put_list(&mut lists, 64, 1)?;
    put_list(&mut lists, 12, 1)?;
    put_list(&mut lists, 64, 2)?;
    put_list(&mut lists, 18, 2)?;
    put_list(&mut lists, 1, 1)?;
    Ok(Memory {
        lists,
        nodes: with_room(heap, &STORE, MOST_COST)?,
        out: vec![in heap; 0u64; 69632]?,
    })
}

// A list whose cells are numbers and, every third, gaps.
fn put_list(lists: &mut Vec<u64>, lines: u64, columns: u64) -> Result<(), AllocError> {
    lists.push(lines)?;
    lists.push(columns)?;
    for i in 0..lines {
        lists.push(0)?;
        for a in 0..columns {
            let n = i.wrapping_mul(columns).wrapping_add(a) % 60;
            let cell = if n % 3 == 0 {
                Cell::Gap(n)
            } else {
                Cell::Number(n)
            };
            lists.extend_from_slice(&<[u64; 2]>::from(cell))?;
        }
    }
    Ok(())
}

// The list of 64 lines and two columns joined with itself, and five tests of it: cost 65,536.
fn join_with_tests(heap: Global) -> Result<Vec<u64>, AllocError> {
    let mut signs = Vec::new(heap);
    put_sign(&mut signs, 1, 0, 2)?;
    put_sign(&mut signs, 2, 1, 3)?;
    put_sign(&mut signs, 3, 0, 7)?;
    put_sign(&mut signs, 4, 1, 8)?;
    put_sign(&mut signs, 1, 1, 2)?;
    put_sign(&mut signs, 6, 0, 0)?;
    put_sign(&mut signs, 0, 2, 0)?;
    put_sign(&mut signs, 0, 2, 0)?;
    Ok(signs)
}

// The list of 64 lines and one column joined with itself, and six times with a list of one line, each join inside the next; and a
// test of it: as deep as sixteen signs go.
fn nested_joins(heap: Global) -> Result<Vec<u64>, AllocError> {
    let mut signs = Vec::new(heap);
    put_sign(&mut signs, 1, 0, 7)?;
    for _ in 0..7 {
        put_sign(&mut signs, 6, 0, 0)?;
    }
    put_sign(&mut signs, 0, 0, 0)?;
    put_sign(&mut signs, 0, 0, 0)?;
    for _ in 0..6 {
        put_sign(&mut signs, 0, 4, 0)?;
    }
    Ok(signs)
}

// A list without the lines of itself, so often, and of another.
fn without(heap: Global, list: u64, times: u64, other: u64) -> Result<Vec<u64>, AllocError> {
    let mut signs = Vec::new(heap);
    put_sign(&mut signs, 8, 0, 0)?;
    put_sign(&mut signs, 0, list, 0)?;
    for _ in 0..times {
        put_sign(&mut signs, 7, 0, 0)?;
        put_sign(&mut signs, 0, list, 0)?;
    }
    put_sign(&mut signs, 0, other, 0)?;
    Ok(signs)
}

fn put_sign(signs: &mut Vec<u64>, kind: u64, a: u64, b: u64) -> Result<(), AllocError> {
    signs.extend_from_slice(&[kind, a, b, 0, 0, 0])
}
