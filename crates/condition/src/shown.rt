// Conditions of a store in words.
ghost use Rattle.std.specs.Prelude.{◌≤◌};

use crate::{Node, read_node};
use std::fmt;

// How many nodes of a condition are shown at most; what is past them is left out as `..`.
const MOST_SHOWN: u64 = 4096;

// A condition of a store.
#[derive(Clone, Copy)]
pub struct Condition<'a> {
    pub nodes: &'a [u64],
    pub node: u64,
}

// As `(g0 = 10 or g0 = 11) and not g0 = g1`, with only the brackets that are needed.
impl fmt::Display for Condition<'_> {
    fn fmt<W: fmt::Write>(&self, f: &mut fmt::Formatter<W>) -> fmt::Result {
        let mut left = MOST_SHOWN;
        show(Some(*self), Around::Nothing, &mut left, f)
    }
}

// What a condition stands in.
#[derive(Clone, Copy, PartialEq, Eq)]
enum Around {
    Nothing,
    And,
    Not,
}

impl<'a> Condition<'a> {
    // The condition at a place that this one names; none where it is not before it.
    fn at(self, place: u64) -> Option<Condition<'a>> {
        (place < self.node).then_some(Condition {
            nodes: self.nodes,
            node: place,
        })
    }
}

// Shows a condition, and at most as many nodes as are left; none is shown as never.
fn show<W: fmt::Write>(
    condition: Option<Condition<'_>>,
    around: Around,
    left: &mut u64,
    f: &mut fmt::Formatter<W>,
) -> fmt::Result
    ensures { left.new ≤ left.old }
{
    if *left == 0 {
        return write!(f, "..");
    }
    *left -= 1;
    let Some(condition) = condition else {
        return write!(f, "never");
    };
    let Some(node) = read_node(condition.nodes, condition.node) else {
        return write!(f, "never");
    };
    let (a, word, b, inside, bracketed) = match node {
        Node::Always => return write!(f, "always"),
        Node::Never => return write!(f, "never"),
        Node::Equal(a, b) => return write!(f, "{a} = {b}"),
        Node::Not(a) => {
            write!(f, "not ")?;
            return show(condition.at(a), Around::Not, left, f);
        }
        Node::Both(a, b) => (a, " and ", b, Around::And, around == Around::Not),
        Node::Either(a, b) => (a, " or ", b, Around::Nothing, around != Around::Nothing),
    };
    if bracketed {
        write!(f, "(")?;
    }
    show(condition.at(a), inside, left, f)?;
    f.write_str(word)?;
    show(condition.at(b), inside, left, f)?;
    if bracketed {
        write!(f, ")")?;
    }
    Ok(())
}
