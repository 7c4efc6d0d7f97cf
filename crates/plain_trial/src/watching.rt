// Rows, and under which fillings they have been there.
use crate::rows::Row;
use crate::telling::Refusal;
use std::alloc::{AllocError, Global};
use std::fmt;

// A row, and whether it has been there under all the fillings so far and under one of them.
#[derive(Drop)]
pub struct Watched {
    pub row: Row,
    pub always: bool,
    pub once: bool,
}

// The rows that may be sure, or why they are not listed; and the rows asked about.
#[derive(Drop)]
pub struct Watch {
    pub listed: Result<Vec<Watched>, Refusal>,
    pub asked: Vec<Watched>,
}

impl Watched {
    // Rows of which nothing has been seen yet.
    pub fn all(heap: Global, rows: Vec<Row>) -> Result<Vec<Watched>, AllocError> {
        rows.into_iter()
            .map(|row| Watched {
                row,
                always: true,
                once: false,
            })
            .collect(heap)
    }

    fn look(&mut self, rows: &[Row]) {
        let there = rows.contains(&self.row);
        self.always &= there;
        self.once |= there;
    }
}

impl Watch {
    // Looks for the rows among those under one more filling.
    pub fn look(&mut self, rows: &[Row]) {
        if let Ok(listed) = &mut self.listed {
            listed.iter_mut().for_each(|watched| watched.look(rows));
        }
        self.asked.iter_mut().for_each(|watched| watched.look(rows));
    }
}

// How the row stands, and its numbers.
impl fmt::Display for Watched {
    fn fmt<W: fmt::Write>(&self, f: &mut fmt::Formatter<W>) -> fmt::Result {
        f.write_str(if self.always {
            "sure"
        } else if self.once {
            "possible"
        } else {
            "impossible"
        })?;
        for n in &self.row {
            write!(f, " {n}")?;
        }
        Ok(())
    }
}
