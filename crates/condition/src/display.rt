// Cells, nodes and refusals as text.
ghost use Rattle.std.specs.Prelude.{Some};
ghost use Rattle.condition.specs.Text.{cell_text, node_text, refusal_text};

use super::{Cell, Node, Refusal};
use std::error::Error;
use std::fmt;

// A number as it is; a gap as `g` and its name.
impl fmt::Display for Cell {
    ghost output = { λ c. Some (cell_text c) };

    fn fmt<W: fmt::Write>(&self, f: &mut fmt::Formatter<W>) -> fmt::Result {
        match *self {
            Cell::Number(n) => write!(f, "{n}"),
            Cell::Gap(k) => write!(f, "g{k}"),
        }
    }
}

// A node in words, with the places that it names.
impl fmt::Display for Node {
    ghost output = { λ n. Some (node_text n) };

    fn fmt<W: fmt::Write>(&self, f: &mut fmt::Formatter<W>) -> fmt::Result {
        match *self {
            Node::Always => write!(f, "always"),
            Node::Never => write!(f, "never"),
            Node::Equal(a, b) => write!(f, "{a} = {b}"),
            Node::Not(a) => write!(f, "not {a}"),
            Node::Both(a, b) => write!(f, "both {a} {b}"),
            Node::Either(a, b) => write!(f, "either {a} {b}"),
        }
    }
}

// The number and the place, as `refused 4 2`.
impl fmt::Display for Refusal {
    ghost output = { λ r. Some (refusal_text r) };

    fn fmt<W: fmt::Write>(&self, f: &mut fmt::Formatter<W>) -> fmt::Result {
        let (number, place) = self.told();
        write!(f, "refused {number} {place}")
    }
}

impl Error for Refusal {}
