// How the children of the worked example stand among those of father 10, before it is learned that child 2 is one and after.

use crate::{Book, begin, tell_learned};
use answer::ask;
use condition::{Cell, Node};
use decide::{Standing, decide_row};

// The children whose father is 10.
const CHILDREN: [u64; 18] = [5, 1, 0, 0, 0, 0, 3, 1, 10, 0, 0, 0, 0, 0, 0, 0, 0, 0];

pub fn tell_children(rt: &HostRuntime) -> anyhow::Result<()> {
    let mut book = begin(rt.alloc(), 200)?;
    let mut lines = [0; 9];
    ask(&book.lists, &CHILDREN, &mut book.nodes, &mut lines)?;
    tell_standings(rt, &book, &lines)?;
    tell_learned(
        rt,
        &mut book,
        "g0 is 10",
        Node::Equal(Cell::Gap(0), Cell::Number(10)),
    )?;
    tell_standings(rt, &book, &lines)
}

// How each child stands in an answer of three lines.
fn tell_standings(rt: &HostRuntime, book: &Book, lines: &[u64]) -> anyhow::Result<()> {
    print!(rt; "children of 10:")?;
    for child in 1..4 {
        let word = word(decide_row(rt.alloc(), &book.lists, &book.nodes, lines, 3, 1, &[child])?);
        print!(rt; " {child} {word}")?;
    }
    println!(rt)?;
    Ok(())
}

fn word(standing: Standing) -> &'static str {
    match standing {
        Standing::Sure => "sure",
        Standing::Possible => "possible",
        Standing::Impossible => "impossible",
        Standing::NothingFits => "where nothing fits",
    }
}
