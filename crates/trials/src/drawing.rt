// Answers drawn by lot.

use crate::random::Random;
use crate::trying::{Answer, Line};
use std::alloc::{AllocError, Global};

// The gaps and the numbers that a case is drawn from, and whether all comparisons stand before the other nodes, each of which then names
// the one before it.
#[derive(Drop)]
struct Palette {
    gaps: Vec<u64>,
    numbers: Vec<u64>,
    chained: bool,
}

// An answer of one line whose one cell is a number, and 2 to 12 nodes over at most four gaps.
pub fn draw_line(heap: Global, random: &mut Random, number: u64) -> Result<Answer, AllocError> {
    let gaps = 1 + random.below(4);
    let numbers = 1 + random.below(4);
    let palette = Palette::draw(heap, random, gaps, numbers)?;
    let count = 2 + random.below(11);
    let nodes = palette.nodes(heap, random, count)?;
    let line = Line {
        node: random.below(count),
        cells: vec![in heap; [0, number]]?,
    };
    Ok(Answer {
        heap,
        known: random.below(count),
        nodes,
        width: 1,
        lines: vec![in heap; line]?,
    })
}

// An answer of at most six lines, one to three cells wide: of few numbers and at most four gaps; or of many numbers and many nodes, which
// may name too much.
pub fn draw_answer(heap: Global, random: &mut Random) -> Result<Answer, AllocError> {
    let chained = random.below(3) == 0;
    let (gaps, numbers, nodes) = if chained { (2, 24, 40) } else { (4, 4, 2) };
    let gaps = 1 + random.below(gaps);
    let mut palette = Palette::draw(heap, random, gaps, numbers)?;
    palette.chained = chained;
    let count = nodes + random.below(9);
    let nodes = palette.nodes(heap, random, count)?;
    let width = 1 + random.below(3);
    let lines = palette.lines(heap, random, count, width)?;
    Ok(Answer {
        heap,
        known: random.below(count),
        nodes,
        width: width as usize,
        lines,
    })
}

// A row as wide as an answer: what one of its lines may come to, or numbers that it names, or others.
pub fn draw_row(answer: &Answer, random: &mut Random) -> Result<Vec<u64>, AllocError> {
    let mut row = Vec::new(answer.heap);
    let names = answer.names()?;
    let line = random.below(answer.lines.len() as u64);
    for a in 0..answer.width {
        let cell = match answer.lines.get(line as usize) {
            Some(line) => line.cells.get(a).copied().unwrap_or([1, 0]),
            None => [1, 0],
        };
        row.push(match random.below(12) {
            0 => 500,
            1 | 2 | 3 | 4 => random.pick(&names.numbers),
            _ if cell[0] == 0 => cell[1],
            _ => random.pick(&names.numbers),
        })?;
    }
    Ok(row)
}

impl Palette {
    // So many gaps and numbers, some of them as high as they can be.
    fn draw(
        heap: Global,
        random: &mut Random,
        gaps: u64,
        numbers: u64,
    ) -> Result<Palette, AllocError> {
        Ok(Palette {
            gaps: draw_gaps(heap, random, gaps)?,
            numbers: draw_numbers(heap, random, numbers)?,
            chained: false,
        })
    }

    // Nodes of all kinds, comparisons as often as all others.
    fn nodes(
        &self,
        heap: Global,
        random: &mut Random,
        count: u64,
    ) -> Result<Vec<[u64; 5]>, AllocError> {
        let mut nodes = Vec::new(heap);
        for i in 0..count {
            let compares = if self.chained {
                i < count / 2
            } else {
                random.below(2) == 0
            };
            nodes.push(if compares {
                self.comparison(random)
            } else {
                self.connective(random, i, count)
            })?;
        }
        Ok(nodes)
    }

    // Mostly of a gap; now and then of one past the 64, or with a tag that is read as a gap's.
    fn comparison(&self, random: &mut Random) -> [u64; 5] {
        let gap = random.pick(&self.gaps);
        let cell = if self.chained {
            [0, random.pick(&self.numbers)]
        } else {
            self.cell(random)
        };
        let other = match random.below(30) {
            0 => [1, 64],
            1 => [7, gap],
            2 | 3 => [0, random.pick(&self.numbers)],
            _ => [1, gap],
        };
        [2, cell[0], cell[1], other[0], other[1]]
    }

    // A node of any kind but a comparison; what it names is mostly before it.
    fn connective(&self, random: &mut Random, i: u64, count: u64) -> [u64; 5] {
        let kind = match random.below(9) {
            0 if !self.chained => 0,
            1 if !self.chained => 1,
            2 | 3 => 3,
            4 | 5 => 4,
            6 | 7 => 5,
            _ => u64::MAX,
        };
        let below = if random.below(8) == 0 { count } else { i };
        let first = if self.chained {
            i.saturating_sub(1)
        } else {
            random.below(below)
        };
        [kind, first, random.below(below), 9, 9]
    }

    // A number or a gap.
    fn cell(&self, random: &mut Random) -> [u64; 2] {
        if random.below(2) == 0 {
            [0, random.pick(&self.numbers)]
        } else {
            [1, random.pick(&self.gaps)]
        }
    }

    // At most six lines, each under one of so many nodes.
    fn lines(
        &self,
        heap: Global,
        random: &mut Random,
        count: u64,
        width: u64,
    ) -> Result<Vec<Line>, AllocError> {
        let mut lines = Vec::new(heap);
        for _ in 0..random.below(7) {
            lines.push(Line {
                node: random.below(count),
                cells: self.cells(heap, random, width)?,
            })?;
        }
        Ok(lines)
    }

    fn cells(
        &self,
        heap: Global,
        random: &mut Random,
        width: u64,
    ) -> Result<Vec<[u64; 2]>, AllocError> {
        let mut cells = Vec::new(heap);
        for _ in 0..width {
            cells.push(self.cell(random))?;
        }
        Ok(cells)
    }
}

fn draw_gaps(heap: Global, random: &mut Random, count: u64) -> Result<Vec<u64>, AllocError> {
    let mut gaps = Vec::new(heap);
    for _ in 0..count {
        gaps.push(if random.below(3) == 0 {
            63
        } else {
            random.below(64)
        })?;
    }
    Ok(gaps)
}

fn draw_numbers(heap: Global, random: &mut Random, count: u64) -> Result<Vec<u64>, AllocError> {
    let mut numbers = Vec::new(heap);
    for i in 0..count {
        numbers.push(match random.below(6) {
            0 => u64::MAX - i,
            1 => 1 << 63,
            _ => random.below(count.saturating_mul(2)),
        })?;
    }
    Ok(numbers)
}
