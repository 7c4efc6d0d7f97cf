// A question asked of lists, whether of rows or of lines whose names are followed.
use crate::questions::{Pairing, Question, Test};
use std::alloc::{AllocError, Global};

pub type Row = Vec<u64>;

// What stands in the lists that a question is asked of, and what each kind of question makes of it.
pub trait Entry: Clone + Drop {
    // What a test makes of it; nothing where it is not kept.
    fn tested(self, test: Test) -> Result<Option<Self>, AllocError>;

    // Its cells in these columns.
    fn cut(self, heap: Global, columns: &[u64]) -> Result<Self, AllocError>;

    // Its cells, and behind them the other's.
    fn beside(&self, other: &Self) -> Result<Self, AllocError>;

    // What is left of it without these others; nothing where it is one of them.
    fn without(self, others: &[Self]) -> Result<Option<Self>, AllocError>;
}

impl Question {
    // The entries that it gives on these lists.
    pub fn ask<E: Entry>(&self, heap: Global, lists: &[Vec<E>]) -> Result<Vec<E>, AllocError> {
        match self {
            Question::Rows(t) => match lists.get(*t as usize) {
                Some(entries) => entries.clone(),
                None => Ok(Vec::new(heap)),
            },
            Question::Keep(test, question) => {
                let entries = question.ask(heap, lists)?;
                kept(heap, *test, entries)
            }
            Question::Columns(columns, question) => {
                let entries = question.ask(heap, lists)?;
                cut(heap, &columns, entries)
            }
            Question::Pair(pairing, first, second) => {
                let entries = first.ask(heap, lists)?;
                let others = second.ask(heap, lists)?;
                paired(heap, *pairing, entries, others)
            }
        }
    }
}

fn kept<E: Entry>(heap: Global, test: Test, entries: Vec<E>) -> Result<Vec<E>, AllocError> {
    entries
        .into_iter()
        .filter_map(|entry| entry.tested(test).transpose())
        .try_collect(heap)
}

fn cut<E: Entry>(heap: Global, columns: &[u64], entries: Vec<E>) -> Result<Vec<E>, AllocError> {
    entries
        .into_iter()
        .map(|entry| entry.cut(heap, columns))
        .try_collect(heap)
}

fn paired<E: Entry>(
    heap: Global,
    pairing: Pairing,
    mut entries: Vec<E>,
    mut others: Vec<E>,
) -> Result<Vec<E>, AllocError> {
    match pairing {
        Pairing::Join => joined(heap, &entries, &others),
        Pairing::Union => {
            entries.append(&mut others)?;
            Ok(entries)
        }
        Pairing::Without => entries
            .into_iter()
            .filter_map(|entry| entry.without(&others).transpose())
            .try_collect(heap),
    }
}

fn joined<E: Entry>(heap: Global, entries: &[E], others: &[E]) -> Result<Vec<E>, AllocError> {
    entries
        .iter()
        .flat_map(|entry| others.iter().map(|other| entry.beside(other)))
        .try_collect(heap)
}

impl Entry for Row {
    fn tested(self, test: Test) -> Result<Option<Row>, AllocError> {
        let passes = match test {
            Test::Same(a, b) => at(&self, a) == at(&self, b),
            Test::Differ(a, b) => at(&self, a) != at(&self, b),
            Test::Is(a, number) => at(&self, a) == number,
            Test::IsNot(a, number) => at(&self, a) != number,
        };
        Ok(passes.then_some(self))
    }

    fn cut(self, heap: Global, columns: &[u64]) -> Result<Row, AllocError> {
        columns.iter().map(|a| at(&self, *a)).collect(heap)
    }

    fn beside(&self, other: &Row) -> Result<Row, AllocError> {
        let mut row = self.clone()?;
        row.extend_from_slice(&other)?;
        Ok(row)
    }

    fn without(self, others: &[Row]) -> Result<Option<Row>, AllocError> {
        let stays = !others.contains(&self);
        Ok(stays.then_some(self))
    }
}

// The number of a row in a column, 0 where it has no such column.
fn at(row: &[u64], a: u64) -> u64 {
    row.get(a as usize).copied().unwrap_or(0)
}
