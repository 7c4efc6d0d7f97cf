// Bad input of every kind, and what the libraries tell of it: one line a case, with the number and the place.
#![tactic(auto)]

use answer::ask;
use condition::{Cell, Condition, Node, Refusal, append, find, read_node, room, store_count};
use evaluate::{Filling, holds_at};
use file_bytes::{Input, read_lists, read_nodes};
use list::{check, check_lists};
use query::Question;
use std::alloc::Global;
use std::io;

const MOST: u64 = u64::MAX;

// Baptisms (child, father) and marriages (man, woman); every line under node 0.
const LISTS: [u64; 31] = [
    2, 0, 3, 2, 0, 0, 1, 0, 10, 0, 0, 2, 1, 0, 0, 0, 3, 1, 1, 2, 2, 0, 0, 10, 0, 20, 0, 0, 11, 1, 2,
];

// Child and woman, where the father is the man.
const MOTHERS: [u64; 30] = [
    5, 2, 0, 3, 0, 0, 1, 1, 2, 0, 0, 0, 6, 0, 0, 0, 0, 0, 0, 0, 0, 0, 0, 0, 0, 1, 0, 0, 0, 0,
];

// Always; a node that names itself twice; one that names a later one; one of the highest kind; a comparison of gap 64.
const ODD_NODES: [u64; 26] = [
    5,
    0,
    0,
    0,
    0,
    0,
    4,
    1,
    1,
    0,
    0,
    3,
    4,
    0,
    0,
    0,
    18446744073709551615,
    0,
    1,
    0,
    0,
    2,
    1,
    64,
    1,
    64,
];

// g0 is 10 or 11, and g0 and g1 differ.
const KNOWN: [u64; 31] = [
    6, 2, 1, 0, 0, 10, 2, 1, 0, 0, 11, 5, 0, 1, 0, 0, 2, 1, 0, 1, 1, 3, 3, 0, 0, 0, 4, 2, 4, 0, 0,
];

// Not either of both of always and never, and of itself.
const NESTED: [u64; 26] = [
    5, 0, 0, 0, 0, 0, 1, 0, 0, 0, 0, 4, 0, 1, 0, 0, 5, 2, 3, 0, 0, 3, 3, 0, 0, 0,
];

// Two lists of one line and one column, four bytes a number: count, node of what is known, and for each list lines, columns and
// the line.
const FILE: [u8; 48] = [
    2, 0, 0, 0, 0, 0, 0, 0, 1, 0, 0, 0, 1, 0, 0, 0, 0, 0, 0, 0, 0, 0, 0, 0, 5, 0, 0, 0, 1, 0, 0, 0,
    1, 0, 0, 0, 0, 0, 0, 0, 1, 0, 0, 0, 7, 0, 0, 0,
];

// The list of 64 lines joined with itself: 4,096 lines, which cost as much.
const SQUARE: [u64; 18] = [6, 0, 0, 0, 0, 0, 0, 0, 0, 0, 0, 0, 0, 0, 0, 0, 0, 0];

// Cases of lists.
const SOME_LISTS: [(&str, &[u64]); 15] = [
    ("lists", &LISTS),
    ("no numbers", &[]),
    ("no lists", &[0, 0]),
    ("nine lists", &[9, 0]),
    ("very many lists", &[MOST, 0]),
    ("very many lines", &[1, 0, MOST, 1, 0, 0, 1]),
    ("very many columns", &[1, 0, 1, MOST, 0, 0, 1]),
    ("65 lines", &[1, 0, 65, 1, 0, 0, 1]),
    ("no columns", &[1, 0, 1, 0, 0, 0, 1]),
    ("five columns", &[1, 0, 0, 5]),
    ("no lines", &[1, 0, 0, 4]),
    ("gap 63", &[1, 0, 1, 1, 0, 1, 63]),
    ("gap 64", &[1, 0, 1, 1, 0, 1, 64]),
    ("tag 2", &[1, 0, 1, 1, 0, 2, 0]),
    ("the second list at fault", &[2, 0, 0, 1, 1, 1, 0, 2, 0]),
];

// Cases of questions on the baptisms and marriages.
const QUESTIONS: [(&str, &[u64]); 8] = [
    ("question", &MOTHERS),
    ("no signs", &[]),
    ("kind 9", &[9, 0, 0, 0, 0, 0]),
    ("a very high kind", &[MOST, 0, 0, 0, 0, 0]),
    ("list 2", &[0, 2, 0, 0, 0, 0]),
    ("a very high list", &[0, MOST, 0, 0, 0, 0]),
    ("a surplus sign", &[0, 0, 0, 0, 0, 0, 0, 0, 0, 0, 0, 0]),
    ("a surplus number", &[0, 0, 0, 0, 0, 0, 0]),
];

// Cases of their columns and widths.
const COLUMNS: [(&str, &[u64]); 5] = [
    ("column 2 of two", &[3, 2, 7, 0, 0, 0, 0, 0, 0, 0, 0, 0]),
    ("no columns", &[5, 0, 0, 0, 0, 0, 0, 0, 0, 0, 0, 0]),
    (
        "very many columns",
        &[5, MOST, 0, 0, 0, 0, 0, 0, 0, 0, 0, 0],
    ),
    (
        "a bad list under a bad column",
        &[5, 1, 9, 0, 0, 0, 0, 9, 0, 0, 0, 0],
    ),
    (
        "lists of other widths",
        &[
            7, 0, 0, 0, 0, 0, 0, 0, 0, 0, 0, 0, 5, 1, 0, 0, 0, 0, 0, 1, 0, 0, 0, 0,
        ],
    ),
];

// Cases of a file: its lists, and the lines and columns of the first.
const FILES: [(&str, u8, u8, u8); 9] = [
    ("file: as it is", 2, 1, 1),
    ("file: no lists", 0, 1, 1),
    ("file: eight lists", 8, 1, 1),
    ("file: nine lists", 9, 1, 1),
    ("file: no lines, four columns", 1, 0, 4),
    ("file: two lines", 1, 2, 1),
    ("file: three lines", 1, 3, 1),
    ("file: no columns", 1, 1, 0),
    ("file: five columns", 1, 0, 5),
];

// Cases of asking for the square: how many nodes stand, how many the slice has room for, and the numbers of the answer's slice.
const BOUNDS: [(&str, u64, usize, usize); 6] = [
    ("4,096 lines", 1, 4099, 20480),
    ("an answer too short by one", 1, 4099, 20479),
    ("a store too short by one", 1, 4098, 20480),
    ("a longer store and answer", 1, 5000, 20490),
    ("just below 131,072 nodes", 126974, 131080, 20480),
    ("one more stands", 126975, 131080, 20480),
];

fn main(rt: HostRuntime) -> anyhow::Result<()> {
    run(&rt)
}

fn run(rt: &HostRuntime) -> anyhow::Result<()> {
    lists(rt)?;
    cut_lists(rt)?;
    stores(rt)?;
    nodes(rt, rt.alloc())?;
    words(rt)?;
    named(rt)?;
    files(rt, rt.alloc())?;
    file_bounds(rt, rt.alloc())?;
    questions(rt)?;
    cut_questions(rt)?;
    long_questions(rt)?;
    large_question(rt)?;
    bounds(rt, rt.alloc())
}

// A number that was answered, or what was refused.
fn tell(rt: &HostRuntime, case: &str, res: Result<u64, Refusal>) -> io::Result<()> {
    match res {
        Ok(n) => println!(rt; "{case}: {n}"),
        Err(refusal) => println!(rt; "{case}: {refusal}"),
    }
}

// What is told of something at each length that it may be cut to, without the end of the line; what passes leaves no trace.
fn tell_cut<F: Fn(usize) -> Option<Refusal>>(
    rt: &HostRuntime,
    what: &str,
    length: usize,
    cut: F,
) -> io::Result<()>
    requires { (state : F) (n : _) → F.pre state n }
{
    print!(rt; "{what} cut at each length:")?;
    for refusal in (0..length).filter_map(cut) {
        let (number, place) = refusal.told();
        print!(rt; " {number} {place},")?;
    }
    Ok(())
}

fn lists(rt: &HostRuntime) -> io::Result<()> {
    for (case, lists) in SOME_LISTS {
        tell(rt, case, check_lists(lists))?;
    }
    Ok(())
}

// At most the first n of some items.
fn front<T>(items: &[T], n: usize) -> &[T] {
    items.get(..n).unwrap_or(items)
}

// The lists cut at every length.
fn cut_lists(rt: &HostRuntime) -> io::Result<()> {
    tell_cut(
        rt,
        "lists",
        LISTS.len(),
        |n| check_lists(front(&LISTS, n)).err(),
    )?;
    println!(rt; "")
}

fn stores(rt: &HostRuntime) -> io::Result<()> {
    tell(rt, "store", store_count(&[1, 0, 0, 0, 0, 0]))?;
    tell(rt, "no store", store_count(&[]))?;
    tell(rt, "store cut short", store_count(&[1, 0, 0, 0, 0]))?;
    tell(rt, "very many nodes", store_count(&[MOST]))?;
    tell(rt, "room of a full store", room(&[1, 0, 0, 0, 0, 0]))?;
    tell(rt, "room of four numbers", room(&[0, 0, 0, 0]))?;
    let mut full = [1, 0, 0, 0, 0, 0, 7];
    tell(rt, "append to a full store", append(&mut full, Node::Never))?;
    tell(rt, "its last number", Ok(full[6]))?;
    let mut none = [MOST, 7];
    tell(rt, "append to no store", append(&mut none, Node::Never))?;
    tell(rt, "its last number", Ok(none[1]))
}

// What nodes say that name themselves, later ones, or gaps that are none.
fn nodes(rt: &HostRuntime, heap: Global) -> io::Result<()> {
    for i in 0..6u64 {
        match read_node(&ODD_NODES, i) {
            Some(node) => print!(rt; "node {i}: {node}, ")?,
            None => print!(rt; "node {i}: none, ")?,
        }
        match holds_at(heap, &ODD_NODES, i, Filling::zeros()) {
            Ok(true) => println!(rt; "holds")?,
            Ok(false) => println!(rt; "does not hold")?,
            Err(refusal) => tell(rt, "node", Err(refusal))?,
        }
    }
    found(rt, "both 1 1", Node::Both(1, 1))?;
    found(rt, "either 0 1", Node::Either(0, 1))?;
    found(rt, "not 4", Node::Not(4))?;
    found(rt, "g64 = g64", Node::Equal(Cell::Gap(64), Cell::Gap(64)))?;
    found(rt, "never", Node::Never)
}

// Where a node is found among the odd ones.
fn found(rt: &HostRuntime, case: &str, node: Node) -> io::Result<()> {
    match find(&ODD_NODES, node) {
        Some(i) => println!(rt; "found {case}: {i}"),
        None => println!(rt; "found {case}: none"),
    }
}

// Conditions in words: what is known of the baptisms, node by node, a node that does not stand, and one that needs brackets.
fn words(rt: &HostRuntime) -> io::Result<()> {
    for node in 0..7u64 {
        let condition = Condition {
            nodes: &KNOWN,
            node,
        };
        println!(rt; "condition {node}: {condition}")?;
    }
    let condition = Condition {
        nodes: &NESTED,
        node: 4,
    };
    println!(rt; "condition: {condition}")
}

// What is told of a file's lists, with at most two lines a list: cut at each length, and whole.
fn files(rt: &HostRuntime, heap: Global) -> io::Result<()> {
    tell_cut(
        rt,
        "a file of two lists",
        FILE.len(),
        |n| read_lists(heap, &mut Input::new(front(&FILE, n)), 2).err(),
    )?;
    let mut input = Input::new(&FILE);
    match read_lists(heap, &mut input, 2) {
        Ok(lists) => {
            let count = lists.len();
            let left = input.left();
            println!(rt; " {count} numbers and {left} bytes left")
        }
        Err(refusal) => println!(rt; " {refusal}"),
    }
}

// What is told of lists whose count, first lines and first columns are these.
fn file(
    rt: &HostRuntime,
    heap: Global,
    case: &str,
    count: u8,
    lines: u8,
    columns: u8,
) -> io::Result<()> {
    let mut bytes = FILE;
    bytes[0] = count;
    bytes[8] = lines;
    bytes[12] = columns;
    let mut input = Input::new(&bytes);
    tell(
        rt,
        case,
        read_lists(heap, &mut input, 2).map(|lists| lists.len() as u64),
    )
}

// Files at the bounds: their lists and their nodes.
fn file_bounds(rt: &HostRuntime, heap: Global) -> io::Result<()> {
    for (case, count, lines, columns) in FILES {
        file(rt, heap, case, count, lines, columns)?;
    }
    for count in 2..4u64 {
        let mut input = Input::new(&FILE);
        match read_nodes(heap, &mut input, count) {
            Ok(nodes) => tell(rt, "file: numbers of the nodes", Ok(nodes.len() as u64))?,
            Err(refusal) => tell(rt, "file: nodes", Err(refusal))?,
        }
    }
    Ok(())
}

fn named(rt: &HostRuntime) -> io::Result<()> {
    let store = [1, 0, 0, 0, 0, 0];
    tell(rt, "lists and store", check(&LISTS, &store))?;
    tell(
        rt,
        "a line's node does not stand",
        check(&[1, 0, 1, 1, 1, 0, 5], &store),
    )?;
    tell(
        rt,
        "in the second list",
        check(&[2, 1, 0, 1, 1, 1, MOST, 0, 5], &store),
    )?;
    tell(
        rt,
        "that of what is known",
        check(&[1, 1, 1, 1, 0, 0, 5], &store),
    )?;
    tell(rt, "no store either", check(&[1, 1, 1, 1, 1, 0, 5], &[1]))?;
    tell(rt, "no lists either", check(&[1, 1, 1, 1, 1, 2, 5], &[1]))
}

// The lines of a question, or what was refused.
fn lines(lists: &[u64], signs: &[u64]) -> Result<u64, Refusal> {
    Ok(Question::read(lists, signs)?.lines())
}

// The questions of a table, on the baptisms and marriages.
fn tell_lines(rt: &HostRuntime, cases: &[(&str, &[u64])]) -> io::Result<()> {
    for (case, signs) in cases {
        tell(rt, case, lines(&LISTS, signs))?;
    }
    Ok(())
}

// Questions of every kind, and of every fault in columns and widths.
fn questions(rt: &HostRuntime) -> io::Result<()> {
    tell_lines(rt, &QUESTIONS)?;
    tell(rt, "of no lists", lines(&[], &MOTHERS))?;
    tell_lines(rt, &COLUMNS)
}

// A question cut at every length.
fn cut_questions(rt: &HostRuntime) -> io::Result<()> {
    tell_cut(
        rt,
        "a question",
        MOTHERS.len(),
        |n| Question::read(&LISTS, front(&MOTHERS, n)).err(),
    )?;
    println!(rt; "")
}

// Sixteen signs, and seventeen.
fn long_questions(rt: &HostRuntime) -> io::Result<()> {
    let mut signs = [0u64; 102];
    for sign in signs[..96].chunks_exact_mut(6) {
        sign[0] = 1;
    }
    tell(rt, "17 signs", lines(&LISTS, &signs))?;
    tell(rt, "the last 16 of them", lines(&LISTS, &signs[6..]))?;
    signs[90] = 0;
    tell(rt, "16 signs and one more", lines(&LISTS, &signs))
}

// Eight lists of 64 lines joined: 2^48 lines.
fn large_question(rt: &HostRuntime) -> io::Result<()> {
    let mut lists = [0u64; 196];
    lists[0] = 1;
    lists[2] = 64;
    lists[3] = 1;
    let mut signs = [0u64; 90];
    for sign in signs[..42].chunks_exact_mut(6) {
        sign[0] = 6;
    }
    tell(rt, "64 lines eight times joined", lines(&lists, &signs))?;
    match Question::parse(&lists, &signs) {
        Ok(question) => tell(rt, "which are", Ok(question.lines()))?,
        Err(refusal) => tell(rt, "not read", Err(refusal))?,
    }
    tell(rt, "twice", lines(&lists, &signs[36..54]))
}

// Lists of 64 lines, of three, of one and of two, all of one column and under node 0.
fn long_lists() -> [u64; 220] {
    let mut lists = [0u64; 220];
    lists[0] = 4;
    lists[2] = 64;
    lists[3] = 1;
    lists[196] = 3;
    lists[197] = 1;
    lists[207] = 1;
    lists[208] = 1;
    lists[212] = 2;
    lists[213] = 1;
    lists
}

// What asking tells in a slice for so many nodes, of which some stand already, and one of so many numbers for the answer.
fn bound(
    rt: &HostRuntime,
    heap: Global,
    case: &str,
    signs: &[u64],
    stand: u64,
    nodes: usize,
    numbers: usize,
) -> anyhow::Result<()> {
    let mut store = vec![in heap; 0u64; nodes.saturating_mul(5).saturating_add(1)]?;
    if let Some(count) = store.as_mut_slice().first_mut() {
        *count = stand;
    }
    let mut out = vec![in heap; MOST; numbers]?;
    let lists = long_lists();
    tell(
        rt,
        case,
        ask(&lists, signs, store.as_mut_slice(), out.as_mut_slice()),
    )?;
    let count = store.as_slice().first().copied().unwrap_or(0);
    let unwritten = unwritten(out.as_slice());
    println!(rt; "  then {count} nodes, {unwritten} numbers not written")?;
    Ok(())
}

// How many numbers of an answer's slice are still the one that it was filled with.
fn unwritten(numbers: &[u64]) -> u64 {
    numbers.iter().filter(|n| **n == MOST).count() as u64
}

// Asking at its bounds, and one past them.
fn bounds(rt: &HostRuntime, heap: Global) -> anyhow::Result<()> {
    for (case, stand, nodes, numbers) in BOUNDS {
        bound(rt, heap, case, &SQUARE, stand, nodes, numbers)?;
    }
    costly(rt, heap)
}

// One cell of each line of the square, less the list of three lines: cost 65,536; and less three lines that cost one more.
fn costly(rt: &HostRuntime, heap: Global) -> anyhow::Result<()> {
    let mut signs = [0u64; 66];
    signs[0] = 8;
    signs[6] = 5;
    signs[7] = 1;
    signs[12] = 6;
    signs[31] = 1;
    bound(rt, heap, "cost 65,536", &signs[0..36], 1, 65539, 12288)?;
    bound(
        rt,
        heap,
        "a store too short by one",
        &signs[0..36],
        1,
        65538,
        12288,
    )?;
    signs[30] = 7;
    signs[31] = 0;
    signs[37] = 3;
    signs[42] = 5;
    signs[43] = 1;
    signs[48] = 6;
    signs[55] = 2;
    signs[61] = 2;
    bound(rt, heap, "cost 65,537", &signs, 1, 70000, 12288)
}
