// What is refused, and how it is told.
use std::alloc::{AllocError, AllocFailed};
use std::fmt;

#[derive(Clone, Copy, Debug)]
pub enum Refusal {
    // 1: the first list at fault; 0 for no lists, 8 for more than eight.
    BadList(u64),
    // 2: how many nodes the file should have.
    CutNodes(u64),
    // 3: the first list that names a node that does not stand; 8 for what is known.
    NoSuchNode(u64),
    // 4: the sign that can't be read.
    BadSign(u64),
    // 5: the first number of lines, or the first cost, that is too large.
    TooLarge(u64),
    // 8: how many numbers of the row are there.
    CutRow(u64),
    // 9: how many gaps are named.
    TooManyGaps(u64),
    // 9: how many numbers are named.
    TooManyNumbers(u64),
    // 11: no filling fits what is known.
    NothingFits,
    // 99: no memory.
    NoMemory,
}

impl Refusal {
    // The number and the place.
    fn told(self) -> (u64, u64) {
        match self {
            Refusal::BadList(list) => (1, list),
            Refusal::CutNodes(count) => (2, count),
            Refusal::NoSuchNode(list) => (3, list),
            Refusal::BadSign(sign) => (4, sign),
            Refusal::TooLarge(size) => (5, size),
            Refusal::CutRow(numbers) => (8, numbers),
            Refusal::TooManyGaps(gaps) => (9, gaps),
            Refusal::TooManyNumbers(numbers) => (9, numbers.saturating_add(64)),
            Refusal::NothingFits => (11, 0),
            Refusal::NoMemory => (99, 0),
        }
    }
}

impl fmt::Display for Refusal {
    fn fmt<W: fmt::Write>(&self, f: &mut fmt::Formatter<W>) -> fmt::Result {
        let (number, place) = self.told();
        write!(f, "refused {number} {place}")
    }
}

impl From<AllocError> for Refusal {
    fn from(_e: AllocError) -> Refusal {
        Refusal::NoMemory
    }
}

impl<T: Drop> From<AllocFailed<T>> for Refusal {
    fn from(_e: AllocFailed<T>) -> Refusal {
        Refusal::NoMemory
    }
}
