// A book: lists with gaps, and what is known of them, as a file holds them; and learning into a book in memory.
#![tactic(auto)]

mod book;
mod entry;
mod learning;

pub use book::Book;
pub use entry::Entry;
