// What is told of an answer.
use crate::answers::{Answer, Lines};
use crate::arguments::Shown;
use condition::{Condition, cell_at};
use decide::Standing;
use evaluate::Filling;
use std::alloc::Global;
use std::{fmt, io};

// Its lines, where they are wanted; the sure rows, or why they are not listed; and how each row asked about stands.
pub fn tell(
    rt: &impl Print,
    heap: Global,
    answer: &Answer,
    asked: &[u64],
    shown: Shown,
) -> io::Result<()> {
    if shown.lines {
        match answer.tidied(heap) {
            Ok(lines) => tell_lines(rt, answer.width, &lines)?,
            Err(refusal) => println!(rt; "{refusal}")?,
        }
    }
    let sure = answer.sure_rows(heap);
    match &sure {
        Ok(rows) => tell_sure(rt, answer.width, rows)?,
        Err(refusal) => println!(rt; "{refusal}")?,
    }
    for row in asked.chunks_exact(answer.width.max(1)) {
        tell_asked(rt, heap, answer, row, sure.is_ok(), shown.fillings)?;
    }
    Ok(())
}

fn tell_sure(rt: &impl Print, width: usize, rows: &[u64]) -> io::Result<()> {
    for row in rows.chunks_exact(width.max(1)) {
        tell_row(rt, Standing::Sure, row)?;
    }
    Ok(())
}

// How a row stands, or why that is not told; nothing of a sure one that is listed. A possible one may be explained.
fn tell_asked(
    rt: &impl Print,
    heap: Global,
    answer: &Answer,
    row: &[u64],
    listed: bool,
    explained: bool,
) -> io::Result<()> {
    match answer.decide_row(heap, row) {
        Ok(standing) if listed && standing.is_sure() => Ok(()),
        Ok(Standing::Possible) if explained => {
            tell_row(rt, Standing::Possible, row)?;
            tell_fillings(rt, heap, answer, row)
        }
        Ok(standing) => tell_row(rt, standing, row),
        Err(refusal) => println!(rt; "{refusal}"),
    }
}

// A filling with which a row is there, and one with which it is not.
fn tell_fillings(rt: &impl Print, heap: Global, answer: &Answer, row: &[u64]) -> io::Result<()> {
    match answer.row_fillings(heap, row) {
        Ok(found) => {
            tell_filling(rt, answer, "there", found.yes)?;
            tell_filling(rt, answer, "missing", found.no)
        }
        Err(refusal) => println!(rt; "{refusal}"),
    }
}

// The numbers of a filling for the gaps that the file names.
fn tell_filling(
    rt: &impl Print,
    answer: &Answer,
    word: &str,
    filling: Option<Filling>,
) -> io::Result<()> {
    let Some(filling) = filling else {
        return Ok(());
    };
    let named = &answer.gaps;
    println!(rt; "  {word} with{}", ShownFilling { filling, named })
}

// How a row stands, and its numbers. Where nothing fits what is known, every row is sure.
fn tell_row(rt: &impl Print, standing: Standing, row: &[u64]) -> io::Result<()> {
    let word = match standing {
        Standing::Sure | Standing::NothingFits => "sure",
        Standing::Possible => "possible",
        Standing::Impossible => "impossible",
    };
    print!(rt; "{word}")?;
    for number in row {
        print!(rt; " {number}")?;
    }
    println!(rt)
}

fn tell_lines(rt: &impl Print, width: usize, lines: &Lines) -> io::Result<()> {
    let size = width.saturating_mul(2).saturating_add(1);
    for numbers in lines.numbers.chunks_exact(size) {
        let nodes = &lines.nodes;
        rt.println(ShownLine { nodes, numbers })?;
    }
    Ok(())
}

// A line of an answer, and the store that its condition stands in.
#[derive(Clone, Copy)]
struct ShownLine<'a> {
    nodes: &'a [u64],
    numbers: &'a [u64],
}

// Its cells, and its condition in words: `2 g2 if g0 = 11`.
impl fmt::Display for ShownLine<'_> {
    fn fmt<W: fmt::Write>(&self, f: &mut fmt::Formatter<W>) -> fmt::Result {
        let Some((node, cells)) = self.numbers.split_first() else {
            return Ok(());
        };
        for cell in cells.chunks_exact(2) {
            let cell = cell_at(cell, 0);
            write!(f, "{cell} ")?;
        }
        let condition = Condition {
            nodes: self.nodes,
            node: *node,
        };
        write!(f, "if {condition}")
    }
}

// A filling, and the gaps of which it is shown.
#[derive(Clone, Copy)]
struct ShownFilling<'a> {
    filling: Filling,
    named: &'a [bool; 64],
}

// The number of each gap: ` g0 = 10 g1 = 2`.
impl fmt::Display for ShownFilling<'_> {
    fn fmt<W: fmt::Write>(&self, f: &mut fmt::Formatter<W>) -> fmt::Result {
        for (gap, named) in self.named.iter().enumerate() {
            if *named {
                let number = self.filling.number(gap as u64);
                write!(f, " g{gap} = {number}")?;
            }
        }
        Ok(())
    }
}

#[cfg(test)]
mod tests {
    use super::*;

    // What `--answer` and `--explain` show; the stored output is of a run without them.
    #[test]
    fn shows_a_line(rt: HostRuntime) {
        let line = ShownLine {
            nodes: &[2, 2, 1, 0, 0, 10, 3, 0, 0, 0, 0],
            numbers: &[1, 0, 2, 1, 63],
        };
        let text = format!(in rt.alloc(); "{line}").expect(&rt, "memory");
        assert_eq!(rt; text.as_str(), "2 g63 if not g0 = 10");
    }

    #[test]
    fn shows_a_filling(rt: HostRuntime) {
        let filling = Filling::zeros().with(3, 7).expect(&rt, "a gap");
        let mut named = [false; 64];
        named[0] = true;
        named[3] = true;
        let shown = ShownFilling {
            filling,
            named: &named,
        };
        let text = format!(in rt.alloc(); "{shown}").expect(&rt, "memory");
        assert_eq!(rt; text.as_str(), " g0 = 0 g3 = 7");
    }
}
