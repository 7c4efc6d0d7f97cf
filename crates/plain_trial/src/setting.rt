// A file before its questions, and what stands in it.
use crate::naming::{NamedLine, Names};
use crate::reading::{Book, Line};
use std::alloc::{AllocError, Global};

#[derive(Drop)]
pub struct Setting {
    pub heap: Global,
    pub book: Book,
    // What the lists and the comparisons name.
    pub names: Names,
    // What is named by what is known.
    pub known: Names,
    // The lines of each list, with what they name.
    pub lists: Vec<Vec<NamedLine>>,
}

impl Setting {
    pub fn of(heap: Global, book: Book) -> Result<Setting, AllocError> {
        let names = Names::of_book(heap, &book)?;
        let conditions = book.each_node(heap, |node, earlier| Names::of_node(heap, node, earlier))?;
        let lists = book
            .lists
            .iter()
            .map(|list| named_lines(heap, &list.lines, &conditions))
            .try_collect(heap)?;
        let mut known = Names::none(heap);
        known.add_one_of(&conditions, book.known)?;
        Ok(Setting {
            heap,
            book,
            names,
            known,
            lists,
        })
    }
}

fn named_lines(
    heap: Global,
    lines: &[Line],
    conditions: &[Names],
) -> Result<Vec<NamedLine>, AllocError> {
    lines
        .iter()
        .map(|line| NamedLine::of(heap, line, conditions))
        .try_collect(heap)
}
