// Deciding at its bounds and past them: how rows stand, which lists of sure rows there are, and what is refused; one line a case.
#![tactic(auto)]

use condition::{Cell, Node, Refusal, append};
use decide::{Standing, decide_row, sure_rows};
use std::alloc::Global;
use std::io;

const MOST: u64 = u64::MAX;

const HALF: u64 = 9223372036854775808;

// Nodes of the store: always and never; that g0 is 2^64 - 1, is one of eight numbers or of nine or none of them; and comparisons of
// six gaps, and of seven.
const ALWAYS: u64 = 0;

const NEVER: u64 = 1;

const HIGHEST: u64 = 3;

const OF_EIGHT: u64 = 16;

const NOT_OF_EIGHT: u64 = 17;

const OF_NINE: u64 = 19;

const NOT_OF_NINE: u64 = 20;

const SIX_GAPS: u64 = 25;

const SEVEN_GAPS: u64 = 27;

// Does not stand.
const NO_NODE: u64 = 28;

const NODES: [Node; 28] = [
    Node::Always,
    Node::Never,
    Node::Equal(Cell::Gap(0), Cell::Number(0)),
    Node::Equal(Cell::Gap(0), Cell::Number(MOST)),
    Node::Either(2, 3),
    Node::Equal(Cell::Gap(0), Cell::Number(2)),
    Node::Either(4, 5),
    Node::Equal(Cell::Gap(0), Cell::Number(3)),
    Node::Either(6, 7),
    Node::Equal(Cell::Gap(0), Cell::Number(4)),
    Node::Either(8, 9),
    Node::Equal(Cell::Gap(0), Cell::Number(5)),
    Node::Either(10, 11),
    Node::Equal(Cell::Gap(0), Cell::Number(6)),
    Node::Either(12, 13),
    Node::Equal(Cell::Gap(0), Cell::Number(7)),
    Node::Either(14, 15),
    Node::Not(16),
    Node::Equal(Cell::Gap(0), Cell::Number(8)),
    Node::Either(16, 18),
    Node::Not(19),
    Node::Equal(Cell::Gap(0), Cell::Gap(1)),
    Node::Equal(Cell::Gap(2), Cell::Gap(3)),
    Node::Both(21, 22),
    Node::Equal(Cell::Gap(4), Cell::Gap(5)),
    Node::Both(23, 24),
    Node::Equal(Cell::Gap(6), Cell::Gap(0)),
    Node::Both(25, 26),
];

// Rows of answers one cell wide: what is known, the answer, and the row.
const ROWS: [(&str, u64, &[u64], &[u64]); 24] = [
    ("six gaps", ALWAYS, &[SIX_GAPS, 0, 5], &[5]),
    ("seven gaps", ALWAYS, &[SEVEN_GAPS, 0, 5], &[5]),
    ("a seventh in the line", ALWAYS, &[SIX_GAPS, 1, 6], &[5]),
    (
        "a seventh beside what is known",
        SIX_GAPS,
        &[ALWAYS, 1, 63],
        &[5],
    ),
    (
        "a seventh in a line that does not agree",
        ALWAYS,
        &[SIX_GAPS, 0, 5, SEVEN_GAPS, 0, 6],
        &[5],
    ),
    (
        "eight numbers, 0 and 2^64 - 1 among them",
        OF_EIGHT,
        &[ALWAYS, 1, 0],
        &[MOST],
    ),
    ("the gap is 2^64 - 1", HIGHEST, &[ALWAYS, 1, 0], &[MOST]),
    ("nine numbers", OF_NINE, &[ALWAYS, 1, 0], &[2]),
    ("a ninth in the row", OF_EIGHT, &[ALWAYS, 1, 0], &[8]),
    ("a tenth in the row", OF_NINE, &[ALWAYS, 1, 0], &[9]),
    (
        "seven gaps and nine numbers",
        OF_NINE,
        &[SEVEN_GAPS, 0, 2],
        &[2],
    ),
    (
        "where the gap is one of eight",
        ALWAYS,
        &[OF_EIGHT, 0, 2],
        &[2],
    ),
    ("and it is known to be", OF_EIGHT, &[OF_EIGHT, 0, 2], &[2]),
    (
        "where the gap is none of eight",
        ALWAYS,
        &[NOT_OF_EIGHT, 0, 2],
        &[2],
    ),
    (
        "and it is known to be none",
        NOT_OF_EIGHT,
        &[NOT_OF_EIGHT, 0, 2],
        &[2],
    ),
    (
        "and it is known to be one",
        OF_EIGHT,
        &[NOT_OF_EIGHT, 0, 2],
        &[2],
    ),
    (
        "the gap is none of eight",
        NOT_OF_EIGHT,
        &[ALWAYS, 1, 0],
        &[2],
    ),
    ("nothing fits", NEVER, &[ALWAYS, 0, 2], &[2]),
    ("nothing fits, nine numbers", NEVER, &[OF_NINE, 0, 2], &[2]),
    (
        "a row too wide, nine numbers",
        OF_NINE,
        &[ALWAYS, 1, 0],
        &[2, 2],
    ),
    ("no lines", ALWAYS, &[], &[5]),
    ("no such node is known", NO_NODE, &[ALWAYS, 0, 5], &[5]),
    ("and none in the answer", NO_NODE, &[NO_NODE, 0, 5], &[5]),
    ("and a cell that is none", NO_NODE, &[ALWAYS, 2, 0], &[5]),
];

// Answers at fault, or rows: an answer's numbers, its lines and columns, and a row.
const FAULTS: [(&str, &[u64], u64, u64, &[u64]); 17] = [
    ("2^63 lines", &[ALWAYS, 0, 5], HALF, 1, &[5]),
    (
        "2^63 lines of 2^63 cells",
        &[ALWAYS, 0, 5],
        HALF,
        HALF,
        &[5],
    ),
    ("2^64 - 1 lines of no cells", &[ALWAYS, 0, 5], MOST, 0, &[]),
    ("two lines of no cells", &[ALWAYS, OF_EIGHT], 2, 0, &[]),
    (
        "two lines in five numbers",
        &[ALWAYS, 0, 5, ALWAYS, 0],
        2,
        1,
        &[5],
    ),
    ("a line in no numbers", &[], 1, 1, &[5]),
    (
        "more numbers than lines",
        &[ALWAYS, 0, 5, NO_NODE, 2, 0],
        1,
        1,
        &[5],
    ),
    ("tag 2", &[ALWAYS, 2, 0], 1, 1, &[5]),
    ("gap 64", &[ALWAYS, 1, 64], 1, 1, &[5]),
    ("gap 63", &[ALWAYS, 1, 63], 1, 1, &[5]),
    ("no such node", &[NO_NODE, 0, 5], 1, 1, &[5]),
    ("tag 2 and no such node", &[NO_NODE, 2, 0], 1, 1, &[5]),
    (
        "tag 2 in the first of 2^63 lines",
        &[ALWAYS, 2, 0],
        HALF,
        1,
        &[5],
    ),
    (
        "no such node in the first of 2^63 lines",
        &[NO_NODE, 0, 5],
        HALF,
        1,
        &[5],
    ),
    ("a row too wide", &[ALWAYS, 0, 5], 1, 1, &[5, 5]),
    ("a row without cells", &[ALWAYS, 0, 5], 1, 1, &[]),
    (
        "a row too wide, two lines in three numbers",
        &[ALWAYS, 0, 5],
        2,
        1,
        &[5, 5],
    ),
];

// Four lines of two cells, three rows.
const PAIRS: [u64; 20] = [
    ALWAYS, 0, 5, 0, 6, ALWAYS, 0, 1, 0, 2, ALWAYS, 0, 3, 0, 4, ALWAYS, 0, 1, 0, 2,
];

// Lists of sure rows: what is known, the answer and its columns, and the numbers of the slice that they are written to.
const LISTS: [(&str, u64, &[u64], u64, usize); 27] = [
    ("three rows, a number short", ALWAYS, &PAIRS, 2, 5),
    ("just enough", ALWAYS, &PAIRS, 2, 6),
    ("more than enough", ALWAYS, &PAIRS, 2, 7),
    ("less than a row", ALWAYS, &PAIRS, 2, 1),
    ("no room", ALWAYS, &PAIRS, 2, 0),
    ("nothing fits", NEVER, &PAIRS, 2, 6),
    ("nothing fits, no room", NEVER, &PAIRS, 2, 0),
    (
        "nothing fits, nine numbers",
        NEVER,
        &[NOT_OF_NINE, 0, 2],
        1,
        2,
    ),
    ("nine numbers known", OF_NINE, &[], 1, 2),
    ("seven gaps known", SEVEN_GAPS, &[], 1, 2),
    (
        "nine numbers for a candidate",
        ALWAYS,
        &[NOT_OF_NINE, 0, 2],
        1,
        2,
    ),
    ("no candidate", ALWAYS, &[OF_NINE, 0, 2], 1, 2),
    (
        "nine for the lower, ten for the higher",
        ALWAYS,
        &[NOT_OF_NINE, 0, 9, NOT_OF_NINE, 0, 2],
        1,
        2,
    ),
    (
        "nine for the second, no room",
        ALWAYS,
        &[NOT_OF_NINE, 0, 2, ALWAYS, 0, 1],
        1,
        0,
    ),
    ("the first alone, no room", ALWAYS, &[ALWAYS, 0, 1], 1, 0),
    (
        "seven gaps for a candidate",
        ALWAYS,
        &[SEVEN_GAPS, 0, 2, ALWAYS, 0, 2],
        1,
        2,
    ),
    ("one of eight", OF_EIGHT, &[ALWAYS, 1, 0], 1, 2),
    ("none of eight", NOT_OF_EIGHT, &[ALWAYS, 1, 0], 1, 2),
    ("the gap is 2^64 - 1", HIGHEST, &[ALWAYS, 1, 0], 1, 2),
    (
        "one of eight or none of them",
        ALWAYS,
        &[OF_EIGHT, 0, 2, NOT_OF_EIGHT, 0, 2],
        1,
        2,
    ),
    ("no lines", ALWAYS, &[], 1, 2),
    ("no cells, two lines", ALWAYS, &[ALWAYS, ALWAYS], 0, 2),
    (
        "no cells, two lines, no room",
        ALWAYS,
        &[ALWAYS, ALWAYS],
        0,
        0,
    ),
    ("no cells, no lines", ALWAYS, &[], 0, 2),
    (
        "no cells, a line that may be there",
        ALWAYS,
        &[OF_EIGHT],
        0,
        2,
    ),
    (
        "no cells, one of eight or none of them",
        ALWAYS,
        &[OF_EIGHT, NOT_OF_EIGHT],
        0,
        2,
    ),
    ("no cells, nothing fits", NEVER, &[ALWAYS], 0, 2),
];

// The numbers of the store with all nodes.
const STORE: usize = 141;

fn main(rt: HostRuntime) -> anyhow::Result<()> {
    run(&rt)
}

fn run(rt: &HostRuntime) -> anyhow::Result<()> {
    let store = store()?;
    rows(rt, &store)?;
    many_gaps(rt, &store)?;
    faults(rt, &store)?;
    lists(rt, rt.alloc(), &store)
}

// All nodes in a store.
fn store() -> Result<[u64; STORE], Refusal> {
    let mut store = [0; STORE];
    for node in NODES {
        append(&mut store, node)?;
    }
    Ok(store)
}

// An answer of so many lines and columns over a store, and the node of what is known.
#[derive(Clone, Copy)]
struct Answer<'a> {
    nodes: &'a [u64],
    known: u64,
    numbers: &'a [u64],
    lines: u64,
    width: u64,
}

impl<'a> Answer<'a> {
    // As many lines as the numbers make, up to four cells wide.
    fn whole(nodes: &'a [u64], known: u64, numbers: &'a [u64], width: u64) -> Answer<'a> {
        let size = 1 + 2 * width.min(4);
        Answer {
            nodes,
            known,
            numbers,
            lines: numbers.len() as u64 / size,
            width,
        }
    }

    // One list of no lines beside it.
    fn lists(&self) -> [u64; 4] {
        [1, self.known, 0, 1]
    }

    // How a row stands.
    fn decide(&self, heap: Global, row: &[u64]) -> Result<Standing, Refusal> {
        let lists = self.lists();
        decide_row(
            heap,
            &lists,
            self.nodes,
            self.numbers,
            self.lines,
            self.width,
            row,
        )
    }

    // Lists the sure rows.
    fn list(&self, heap: Global, rows: &mut [u64]) -> Result<u64, Refusal> {
        let lists = self.lists();
        sure_rows(
            heap,
            &lists,
            self.nodes,
            self.numbers,
            self.lines,
            self.width,
            rows,
        )
    }
}

// How a row stands, or what was refused, without the end of the line.
fn tell(rt: &HostRuntime, told: Result<Standing, Refusal>) -> io::Result<()> {
    match told {
        Ok(Standing::Sure) => print!(rt; "sure"),
        Ok(Standing::Possible) => print!(rt; "possible"),
        Ok(Standing::Impossible) => print!(rt; "impossible"),
        Ok(Standing::NothingFits) => print!(rt; "nothing fits"),
        Err(refusal) => print!(rt; "{refusal}"),
    }
}

// How many rows were listed, or what was refused, to the end of the line.
fn tell_list(rt: &HostRuntime, told: Result<u64, Refusal>) -> io::Result<()> {
    match told {
        Ok(n) => println!(rt; "{n} listed"),
        Err(refusal) => println!(rt; "{refusal}"),
    }
}

// Rows of answers one cell wide.
fn rows(rt: &HostRuntime, store: &[u64]) -> io::Result<()> {
    for (case, known, numbers, row) in ROWS {
        print!(rt; "{case}: ")?;
        let answer = Answer::whole(store, known, numbers, 1);
        tell(rt, answer.decide(rt.alloc(), row))?;
        println!(rt; "")?;
    }
    Ok(())
}

// A line for each of the 64 gaps.
fn many_gaps(rt: &HostRuntime, store: &[u64]) -> io::Result<()> {
    let mut numbers = [1; 192];
    for (gap, line) in numbers.chunks_exact_mut(3).enumerate() {
        line[0] = ALWAYS;
        line[2] = gap as u64;
    }
    print!(rt; "64 gaps: ")?;
    let answer = Answer::whole(store, ALWAYS, &numbers, 1);
    tell(rt, answer.decide(rt.alloc(), &[5]))?;
    println!(rt; "")
}

// Answers and rows at fault: what is told of the row, and then of the list of sure rows.
fn faults(rt: &HostRuntime, store: &[u64]) -> io::Result<()> {
    for (case, numbers, lines, width, row) in FAULTS {
        print!(rt; "{case}: ")?;
        let answer = Answer {
            nodes: store,
            known: ALWAYS,
            numbers,
            lines,
            width,
        };
        tell(rt, answer.decide(rt.alloc(), row))?;
        print!(rt; ", ")?;
        tell_list(rt, answer.list(rt.alloc(), &mut [9, 9]))?;
    }
    Ok(())
}

// Lists of sure rows, and the slice for them before and after.
fn lists(rt: &HostRuntime, heap: Global, store: &[u64]) -> anyhow::Result<()> {
    for (case, known, numbers, width, room) in LISTS {
        let mut slice = vec![in heap; 9; room]?;
        print!(rt; "{case}: ")?;
        let answer = Answer::whole(store, known, numbers, width);
        tell_list(rt, answer.list(heap, slice.as_mut_slice()))?;
        show(rt, "before", vec![in heap; 9; room]?.as_slice())?;
        show(rt, "after", slice.as_slice())?;
    }
    Ok(())
}

// The numbers of a slice.
fn show(rt: &HostRuntime, when: &str, numbers: &[u64]) -> io::Result<()> {
    print!(rt; "  {when}:")?;
    for n in numbers {
        print!(rt; " {n}")?;
    }
    println!(rt; "")
}
