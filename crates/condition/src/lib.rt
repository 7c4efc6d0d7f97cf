// Conditions on gaps, kept as nodes of a store in a slice of numbers; and the refusals that every layer tells.
//
// A store is the count of its nodes and then five numbers a node. Numbers are turned into `Cell` and `Node` here and
// nowhere else.
#![tactic(auto)]

ghost use Rattle.std.specs.Prelude.{◌≡◌};
ghost use Rattle.condition.specs.Refusals.{told};
ghost use Rattle.condition.specs.declared.Refusal.TheVariants.{NoMemory};

use std::alloc::{AllocError, AllocFailed};

mod adding;
mod display;
mod finding;
mod reading;
mod replacing;
mod shown;
mod store;

pub use adding::{add, append};
pub use finding::{find, stands_as};
pub use reading::{cell_at, node_at, nth_node};
pub use replacing::{set_cell, set_node};
pub use shown::Condition;
pub use store::{MOST_NODES, read_node, room, store_count};

// A number, or a gap by its name.
#[derive(Clone, Copy, Debug, PartialEq, Eq, Hash)]
pub enum Cell {
    Number(u64),
    Gap(u64),
}

// A node of a store: a condition over two cells, or over conditions at other places of the store.
#[derive(Clone, Copy, Debug, PartialEq, Eq, Hash)]
pub enum Node {
    Always,
    Never,
    Equal(Cell, Cell),
    Not(u64),
    Both(u64, u64),
    Either(u64, u64),
}

// Why a call was refused. What it holds is the place that is told with the number.
#[derive(Clone, Copy, Debug, PartialEq, Eq)]
pub enum Refusal {
    // 1: the first list at fault; 0 for no lists, 8 for more than eight, 9 for an answer's cells or a gap to be written over.
    BadLists(u64),
    // 2: the store's count.
    BadStore(u64),
    // 3: the first list that names a node that does not stand; 8 for what is known, 9 for an answer.
    NoSuchNode(u64),
    // 4: the sign that cannot be read.
    BadQuestion(u64),
    // 5: above 4,096 lines.
    TooManyLines,
    // 5: a cost above 65,536.
    TooCostly,
    // 6: how many nodes still fit.
    StoreFull(u64),
    // 7: the length of the answer's slice.
    AnswerTooShort(u64),
    // 8: the width of the row.
    WrongWidth(u64),
    // 9: how many gaps are named.
    TooManyGaps(u32),
    // 9: how many numbers are named.
    TooManyNumbers(u32),
    // 9: 64 and how many numbers are named, where they may be more than 32 bits hold.
    TooManyNumbersAt(u64),
    // 10: the node that was to be learned, or the place where it would stand.
    WouldNotFit(u64),
    // 11: no filling fits what is known.
    NothingFits,
    // 12: how many rows the slice holds.
    RowsFull(u64),
    // 99: no memory.
    NoMemory,
}

impl Refusal {
    // The number and the place that are told.
    pub fn told(self) -> (u64, u64)
        ensures { result ≡ told self }
    {
        match self {
            Refusal::BadLists(place) => (1, place),
            Refusal::BadStore(count) => (2, count),
            Refusal::NoSuchNode(place) => (3, place),
            Refusal::BadQuestion(sign) => (4, sign),
            Refusal::TooManyLines => (5, 4097),
            Refusal::TooCostly => (5, 65537),
            Refusal::StoreFull(room) => (6, room),
            Refusal::AnswerTooShort(size) => (7, size),
            Refusal::WrongWidth(width) => (8, width),
            Refusal::TooManyGaps(gaps) => (9, u64::from(gaps)),
            Refusal::TooManyNumbers(numbers) => (9, 64 + u64::from(numbers)),
            Refusal::TooManyNumbersAt(place) => (9, place),
            Refusal::WouldNotFit(node) => (10, node),
            Refusal::NothingFits => (11, 0),
            Refusal::RowsFull(rows) => (12, rows),
            Refusal::NoMemory => (99, 0),
        }
    }
}

// Want of memory, from a call that allocates.
impl From<AllocError> for Refusal {
    ghost from_gives = { λ _ r. r ≡ NoMemory };

    fn from(_e: AllocError) -> Refusal {
        Refusal::NoMemory
    }
}

// Want of memory, from a call that keeps a value.
impl<T: Drop> From<AllocFailed<T>> for Refusal {
    ghost from_gives = { λ _ r. r ≡ NoMemory };

    fn from(_e: AllocFailed<T>) -> Refusal {
        Refusal::NoMemory
    }
}
