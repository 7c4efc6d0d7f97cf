// How many rows of a join of two long lists can be decided, before its answer is tidied and after.

use crate::random::Random;
use answer::{ask, with_room};
use condition::{Cell, Refusal};
use decide::decide_row;
use learn::tidy_answer;
use std::alloc::{AllocError, Global};
use std::fmt;

// The most lines that a list may have.
const LINES: u64 = 64;

// One cell in so many is a gap, each of its own name.
const ONE_IN: [u64; 3] = [10, 20, 40];

// So many pairs of lists are drawn for each.
const PAIRS: u64 = 5;

// Fathers and men are drawn from so many.
const MEN: u64 = 40;

// Child and woman, where the father is the man.
const MOTHERS: [u64; 30] = [
    5, 2, 0, 3, 0, 0, 1, 1, 2, 0, 0, 0, 6, 0, 0, 0, 0, 0, 0, 0, 0, 0, 0, 0, 0, 1, 0, 0, 0, 0,
];

const COST: u64 = 16384;

// The lists, a store, and the lines of an answer, two cells wide.
#[derive(Drop)]
struct Answer {
    lists: Vec<u64>,
    nodes: Vec<u64>,
    lines: Vec<u64>,
}

// What came of some joins: the lines that tidying left, the rows of those without gaps, and how many of these rows could be decided.
#[derive(Clone, Copy, Default)]
struct Share {
    left: usize,
    rows: usize,
    before: usize,
    after: usize,
}

impl fmt::Display for Share {
    fn fmt<W: fmt::Write>(&self, f: &mut fmt::Formatter<W>) -> fmt::Result {
        let Share {
            left,
            rows,
            before,
            after,
        } = *self;
        write!(
            f,
            "of {rows} rows {before} can be decided, and {after} once the answers are tidied, to {left} lines"
        )
    }
}

pub fn tell_shares(rt: &HostRuntime, heap: Global, seed: u64) -> anyhow::Result<()> {
    let mut random = Random::of(seed);
    println!(rt;
        "joins of two lists of {LINES} lines, fathers and men of {MEN}, {PAIRS} of each kind, seed {seed}"
    )?;
    for one_in in ONE_IN {
        let mut share = Share::default();
        for _ in 0..PAIRS {
            let lists = draw_lists(heap, &mut random, one_in)?;
            if let Err(refusal) = add_join(heap, lists, &mut share) {
                println!(rt; "a join is refused: {refusal}")?;
            }
        }
        println!(rt; "one cell in {one_in} a gap: {share}")?;
    }
    Ok(())
}

// Asks, decides, tidies and decides again.
fn add_join(heap: Global, lists: Vec<u64>, share: &mut Share) -> Result<(), Refusal> {
    let mut answer = Answer {
        lists,
        nodes: with_room(heap, &[1, 0, 0, 0, 0, 0], COST + COST)?,
        lines: vec![in heap; 0u64; (5 * LINES * LINES) as usize]?,
    };
    ask(
        &answer.lists,
        &MOTHERS,
        &mut answer.nodes,
        &mut answer.lines,
    )?;
    let asked = answer.lines.clone()?;
    let left = tidy_answer(heap, &mut answer.nodes, &mut answer.lines, LINES * LINES, 2)?;
    answer.lines.truncate((left as usize).saturating_mul(5));
    let rows = known_rows(heap, &answer)?;
    *share = Share {
        left: share.left.saturating_add(left as usize),
        rows: share.rows.saturating_add(rows.len()),
        before: share
            .before
            .saturating_add(count_decided(heap, &answer, &asked, &rows)),
        after: share
            .after
            .saturating_add(count_decided(heap, &answer, &answer.lines, &rows)),
    };
    Ok(())
}

// Children with their fathers, and men with their women; all lines under always, which is known too.
fn draw_lists(heap: Global, random: &mut Random, one_in: u64) -> Result<Vec<u64>, AllocError> {
    let mut lists = Vec::from_slice(heap, &[2, 0, LINES, 2])?;
    let mut gaps = 0;
    for child in 0..LINES {
        let father = 100 + random.below(MEN);
        push_line(random, one_in, &mut gaps, &mut lists, [child, father])?;
    }
    lists.extend_from_slice(&[LINES, 2])?;
    for woman in 0..LINES {
        let man = 100 + random.below(MEN);
        push_line(random, one_in, &mut gaps, &mut lists, [man, 200 + woman])?;
    }
    Ok(lists)
}

// A line of two cells, each of which may be a gap.
fn push_line(
    random: &mut Random,
    one_in: u64,
    gaps: &mut u64,
    lists: &mut Vec<u64>,
    cells: [u64; 2],
) -> Result<(), AllocError> {
    lists.push(0)?;
    for number in cells {
        let mut cell = Cell::Number(number);
        if random.below(one_in) == 0 && *gaps < 64 {
            cell = Cell::Gap(*gaps);
            *gaps = gaps.saturating_add(1);
        }
        lists.extend_from_slice(&<[u64; 2]>::from(cell))?;
    }
    Ok(())
}

// The rows of the lines that have no gap.
fn known_rows(heap: Global, answer: &Answer) -> Result<Vec<[u64; 2]>, AllocError> {
    let mut rows = Vec::new(heap);
    let (lines, _) = answer.lines.as_chunks::<5>();
    for [_, a, child, b, woman] in lines {
        if *a == 0 && *b == 0 {
            rows.push([*child, *woman])?;
        }
    }
    Ok(rows)
}

// How many of some rows can be decided.
fn count_decided(heap: Global, answer: &Answer, lines: &[u64], rows: &[[u64; 2]]) -> usize {
    rows.iter()
        .filter(|row| {
            let told = decide_row(
                heap,
                &answer.lists,
                &answer.nodes,
                lines,
                lines.len() as u64 / 5,
                2,
                row.as_slice(),
            );
            told.is_ok()
        })
        .count()
}
