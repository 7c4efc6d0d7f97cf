// Random lists with questions on them, and the rows of an answer beside those that the question gives on the filled lists.

use crate::names::Names;
use crate::plain::nodes_of;
use crate::random::Random;
use crate::showing::show;
use condition::{Cell, Refusal, cell_at};
use evaluate::{Filling, holds_at};
use list::rows;
use query::Question;
use std::alloc::{AllocError, Global};

// The most lines times cost that are tried under all fillings.
const MOST_WORK: u64 = 100000;

const NODES: u64 = 6;

// Gaps g0 to g2, numbers 0 to 2 in cells, 0 to 3 in gaps.
const GAPS: u64 = 3;

const NUMBERS: u64 = 3;

// Lists, the store, and a question on them.
#[derive(Drop)]
pub struct Case {
    pub lists: Vec<u64>,
    pub nodes: Vec<u64>,
    pub signs: Vec<u64>,
    pub row: [u64; 2],
}

impl Case {
    // The node of what is known.
    pub fn known(&self) -> u64 {
        self.lists.get(1).copied().unwrap_or(0)
    }

    // The question, if it is small enough to be tried.
    pub fn question(&self) -> Result<Option<Question>, Refusal> {
        match Question::read(&self.lists, &self.signs) {
            Ok(question) if question.lines().saturating_mul(question.cost()) <= MOST_WORK => {
                Ok(Some(question))
            }
            Ok(_) | Err(Refusal::TooManyLines | Refusal::TooCostly) => Ok(None),
            Err(refusal) => Err(refusal),
        }
    }

    // All that the nodes, the lists and the question name.
    pub fn names(&self, heap: Global) -> Result<Names, AllocError> {
        let mut names = Names::none(heap);
        names.add_nodes(nodes_of(&self.nodes))?;
        let first = self.lists.get(2..).unwrap_or(&[]);
        let second = add_list(first, &mut names)?;
        add_list(second, &mut names)?;
        for sign in self.signs.chunks_exact(6) {
            if sign[0] == 3 || sign[0] == 4 {
                names.add_row(&sign[2..3])?;
            }
        }
        Ok(names)
    }
}

// What a filling shows of an answer: it does not fit what is known; so many rows, as wanted; or others.
#[derive(Clone, Copy)]
pub enum Shown {
    Unfit,
    Agree(u64),
    Differ,
}

pub fn draw(heap: Global, random: &mut Random, row: [u64; 2]) -> Result<Case, AllocError> {
    let mut lists = Vec::new(heap);
    lists.push(2)?;
    lists.push(random.below(NODES))?;
    draw_list(random, &mut lists)?;
    draw_list(random, &mut lists)?;
    let nodes = draw_nodes(heap, random)?;
    let signs = draw_signs(heap, random)?;
    Ok(Case {
        lists,
        nodes,
        signs,
        row,
    })
}

// A list of at most three lines and of two columns.
fn draw_list(random: &mut Random, lists: &mut Vec<u64>) -> Result<(), AllocError> {
    let lines = random.below(4);
    lists.push(lines)?;
    lists.push(2)?;
    for _ in 0..lines {
        lists.push(random.below(NODES))?;
        draw_cell(random, lists)?;
        draw_cell(random, lists)?;
    }
    Ok(())
}

// A number or a gap, behind other numbers.
fn draw_cell(random: &mut Random, numbers: &mut Vec<u64>) -> Result<(), AllocError> {
    numbers.extend_from_slice(&<[u64; 2]>::from(some_cell(random)))
}

// A number or a gap.
pub fn some_cell(random: &mut Random) -> Cell {
    if random.below(2) == 0 {
        Cell::Number(random.below(NUMBERS))
    } else {
        some_gap(random)
    }
}

pub fn some_gap(random: &mut Random) -> Cell {
    Cell::Gap(random.below(GAPS))
}

// Nodes of all kinds, comparisons as often as all others; what they name may be a node before them or not.
fn draw_nodes(heap: Global, random: &mut Random) -> Result<Vec<u64>, AllocError> {
    let mut nodes = Vec::new(heap);
    nodes.push(NODES)?;
    for _ in 0..NODES {
        if random.below(2) == 0 {
            nodes.push(2)?;
            draw_cell(random, &mut nodes)?;
            draw_cell(random, &mut nodes)?;
        } else {
            nodes.push(random.below(6))?;
            nodes.push(random.below(NODES))?;
            nodes.push(random.below(NODES))?;
            nodes.push(random.below(2))?;
            nodes.push(random.below(2))?;
        }
    }
    Ok(nodes)
}

// A question of at most 16 signs, each of its parts two columns wide: a join stands under a projection.
fn draw_signs(heap: Global, random: &mut Random) -> Result<Vec<u64>, AllocError> {
    let mut signs = Vec::new(heap);
    let mut open = 1u64;
    for _ in 0..16 {
        if open == 0 {
            return Ok(signs);
        }
        let used = (signs.len() / 6) as u64;
        let kind = if used.saturating_add(open) < 13 {
            random.below(9)
        } else {
            0
        };
        draw_sign(random, kind, &mut signs)?;
        open = match kind {
            0 => open - 1,
            6 | 7 | 8 => open.saturating_add(1),
            _ => open,
        };
    }
    Ok(signs)
}

fn draw_sign(random: &mut Random, kind: u64, signs: &mut Vec<u64>) -> Result<(), AllocError> {
    match kind {
        0 => put_sign(signs, 0, random.below(2), 0, 0),
        1 | 2 => put_sign(signs, kind, random.below(2), random.below(2), 0),
        3 | 4 => put_sign(signs, kind, random.below(2), random.below(NUMBERS), 0),
        5 => put_sign(signs, 5, 2, random.below(2), random.below(2)),
        6 => {
            put_sign(signs, 5, 2, random.below(4), random.below(4))?;
            put_sign(signs, 6, 0, 0, 0)
        }
        _ => put_sign(signs, kind, 0, 0, 0),
    }
}

fn put_sign(signs: &mut Vec<u64>, kind: u64, a: u64, b: u64, c: u64) -> Result<(), AllocError> {
    signs.extend_from_slice(&[kind, a, b, c, 0, 0])
}

// What the list at the front of some numbers names, which is two columns wide; what stands behind it.
fn add_list<'a>(numbers: &'a [u64], names: &mut Names) -> Result<&'a [u64], AllocError> {
    let lines = numbers.first().copied().unwrap_or(0).min(3) as usize;
    let (list, rest) = numbers.split_at(numbers.len().min(2 + 5 * lines));
    for line in list.get(2..).unwrap_or(&[]).chunks_exact(5) {
        names.add_cells(&[[line[1], line[2]], [line[3], line[4]]])?;
    }
    Ok(rest)
}

// The filling whose numbers are the digits of f to a base.
pub fn filling(f: u64, base: u64) -> Filling {
    let mut filling = Filling::zeros();
    let mut rest = f;
    for gap in 0..GAPS {
        if let Some(next) = filling.with(gap, rest % base.max(1)) {
            filling = next;
        }
        rest /= base.max(1);
    }
    filling
}

// The answer's rows under a filling beside those that the question gives on the filled lists, in order.
pub fn compare(
    heap: Global,
    case: &Case,
    question: &Question,
    nodes: &[u64],
    out: &[u64],
    filling: Filling,
) -> Result<Shown, Refusal> {
    match plain_rows(heap, case, question, filling)? {
        Some(wanted) => filled_rows(heap, nodes, out, filling, wanted.as_slice()),
        None => Ok(Shown::Unfit),
    }
}

// The rows that the question gives on the filled lists, under a filling that fits what is known.
pub fn plain_rows(
    heap: Global,
    case: &Case,
    question: &Question,
    filling: Filling,
) -> Result<Option<Vec<Vec<u64>>>, Refusal> {
    if !holds_at(heap, &case.nodes, case.known(), filling)? {
        return Ok(None);
    }
    asked_rows(heap, case, question, filling).map(Some)
}

// The same under any filling.
pub fn asked_rows(
    heap: Global,
    case: &Case,
    question: &Question,
    filling: Filling,
) -> Result<Vec<Vec<u64>>, Refusal> {
    let tables: Vec<_> = (0..2)
        .map(|list| rows(heap, &case.lists, &case.nodes, list, filling))
        .try_collect(heap)?;
    Ok(question.ask(heap, tables.as_slice())?)
}

// Whether the lines of an answer, two cells each, that hold under a filling are the rows wanted.
pub fn filled_rows(
    heap: Global,
    nodes: &[u64],
    out: &[u64],
    filling: Filling,
    wanted: &[Vec<u64>],
) -> Result<Shown, Refusal> {
    let mut rows = wanted.iter();
    for line in out.chunks_exact(5) {
        if holds_at(heap, nodes, line[0], filling)? {
            match rows.next() {
                Some(row) if same_row(line, row.as_slice(), &filling) => {}
                _ => return Ok(Shown::Differ),
            }
        }
    }
    match rows.next() {
        None => Ok(Shown::Agree(wanted.len() as u64)),
        Some(_) => Ok(Shown::Differ),
    }
}

fn same_row(line: &[u64], row: &[u64], filling: &Filling) -> bool {
    if line.len() != 5 || row.len() != 2 {
        return false;
    }
    filling.of(cell_at(line, 1)) == row[0] && filling.of(cell_at(line, 3)) == row[1]
}

// Shows the whole case that does not agree.
pub fn fail(rt: &HostRuntime, case: &Case, why: &str, number: u64) -> anyhow::Result<()> {
    println!(rt; "{why} {number}")?;
    show(rt, "lists", case.lists.as_slice())?;
    show(rt, "nodes", case.nodes.as_slice())?;
    show(rt, "signs", case.signs.as_slice())?;
    show(rt, "row", &case.row)
}
