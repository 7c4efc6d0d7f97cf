// Fillings, and which rows a question gives under them.
ghost use Rattle.std.specs.Prelude.{◌-◌};
ghost use Rattle.std.specs.Iterator.{at_most};

use crate::naming::Names;
use crate::reading::{Book, Cell, GAPS, Gap, Line, List, Node};
use crate::rows::Row;
use crate::sets::Set;
use std::alloc::{AllocError, Global};
use std::ops::Range;

// A number for each gap.
#[derive(Drop)]
pub struct Filling {
    numbers: [u64; GAPS],
}

// A filling, and which nodes hold under it.
#[derive(Drop)]
pub struct Case<'a> {
    filling: &'a Filling,
    truths: Vec<bool>,
}

// The numbers that a gap may take, in the order in which they are tried.
#[derive(Drop)]
struct Choice {
    gap: Gap,
    numbers: Vec<u64>,
}

// A choice for each gap that is filled.
#[derive(Drop)]
pub struct Choices {
    each: Vec<Choice>,
}

// The fillings that are left to try, by their numbers.
#[derive(Drop)]
pub struct Fillings<'a> {
    choices: &'a Choices,
    left: Range<u64>,
}

impl Filling {
    fn of(&self, cell: Cell) -> u64 {
        match cell {
            Cell::Number(number) => number,
            Cell::Gap(gap) => self.numbers[gap.name],
        }
    }

    // Whether a node holds, by which of the nodes before it do. One that names itself or a later one reads that as never.
    fn truth(&self, node: Node, earlier: &[bool]) -> bool {
        match node {
            Node::Always => true,
            Node::Never => false,
            Node::Equal(a, b) => self.of(a) == self.of(b),
            Node::Not(i) => !holds(earlier, i),
            Node::Both(i, j) => holds(earlier, i) && holds(earlier, j),
            Node::Either(i, j) => holds(earlier, i) || holds(earlier, j),
        }
    }
}

fn holds(truths: &[bool], i: u64) -> bool {
    truths.get(i as usize).copied().unwrap_or(false)
}

impl<'a> Case<'a> {
    pub fn of(heap: Global, book: &Book, filling: &'a Filling) -> Result<Case<'a>, AllocError> {
        let truths = book.each_node(heap, |node, earlier| Ok(filling.truth(node, earlier)))?;
        Ok(Case { filling, truths })
    }

    pub fn holds(&self, node: u64) -> bool {
        holds(&self.truths, node)
    }

    // The rows of each list.
    pub fn lists(&self, heap: Global, lists: &[List]) -> Result<Vec<Vec<Row>>, AllocError> {
        lists
            .iter()
            .map(|list| self.rows(heap, &list.lines))
            .try_collect(heap)
    }

    fn rows(&self, heap: Global, lines: &[Line]) -> Result<Vec<Row>, AllocError> {
        lines
            .iter()
            .filter(|line| self.holds(line.node))
            .map(|line| self.row(heap, &line.cells))
            .try_collect(heap)
    }

    fn row(&self, heap: Global, cells: &[Cell]) -> Result<Row, AllocError> {
        cells
            .iter()
            .map(|cell| self.filling.of(*cell))
            .collect(heap)
    }
}

impl Choice {
    fn any_of(heap: Global, gap: Gap, numbers: &Set<u64>) -> Result<Choice, AllocError> {
        let numbers = numbers.iter().copied().collect(heap)?;
        Ok(Choice { gap, numbers })
    }

    // Numbers that stand nowhere before those that what is known names: the gap's own, those of the gaps before it, the last first, and
    // then the named ones as they rise. A gap that what is known does not name takes its own alone.
    fn in_order(
        heap: Global,
        gap: Gap,
        own: u64,
        earlier: &[u64],
        known: &Names,
    ) -> Result<Choice, AllocError> {
        let mut numbers = vec![in heap; own]?;
        if known.gaps.contains(&gap) {
            numbers.extend(earlier.iter().rev().copied())?;
            numbers.extend(known.numbers.iter().copied())?;
        }
        Ok(Choice { gap, numbers })
    }
}

impl Choices {
    // Each gap with the same numbers.
    pub fn alike(heap: Global, gaps: &Set<Gap>, numbers: &Set<u64>) -> Result<Choices, AllocError> {
        let each = gaps
            .iter()
            .map(|gap| Choice::any_of(heap, *gap, numbers))
            .try_collect(heap)?;
        Ok(Choices { each })
    }

    // Each gap with its own number first.
    pub fn in_order(
        heap: Global,
        gaps: &Set<Gap>,
        others: &[u64],
        known: &Names,
    ) -> Result<Choices, AllocError> {
        let each = gaps
            .iter()
            .zip(others)
            .enumerate()
            .map(|(i, (gap, own))| {
                let earlier = &others[..i.min(others.len())];
                Choice::in_order(heap, *gap, *own, earlier, known)
            })
            .try_collect(heap)?;
        Ok(Choices { each })
    }

    // How many fillings there are.
    pub fn count(&self) -> u64 {
        self.each.iter().fold(1, |count: u64, choice| {
            count.saturating_mul(choice.numbers.len() as u64)
        })
    }

    // All of them in order.
    pub fn fillings(&self) -> Fillings<'_> {
        Fillings {
            choices: self,
            left: 0..self.count(),
        }
    }

    // Filling number k, where the last gap changes first.
    fn filling(&self, k: u64) -> Filling {
        let mut numbers = [0; GAPS];
        let mut rest = k;
        for choice in self.each.iter().rev() {
            let many = (choice.numbers.len() as u64).max(1);
            let number = choice.numbers.get((rest % many) as usize);
            numbers[choice.gap.name] = number.copied().unwrap_or(0);
            rest /= many;
        }
        Filling { numbers }
    }
}

impl Iterator for Fillings<'_> {
    type Item = Filling;

    ghost remaining = { λ s. at_most (s.left.end - s.left.start) };

    fn next(&mut self) -> Option<Filling> {
        let k = self.left.next()?;
        Some(self.choices.filling(k))
    }
}

// The least numbers that are none of these, as many as are wanted.
pub fn other_numbers(
    heap: Global,
    numbers: &Set<u64>,
    wanted: usize,
) -> Result<Vec<u64>, AllocError> {
    (0..u64::MAX)
        .filter(|n| !numbers.contains(n))
        .take(wanted)
        .collect(heap)
}
