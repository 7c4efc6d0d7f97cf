// What the program is called for.
use anyhow::bail;
use std::env;
use std::rt::Env;

pub const HELP: &str =
    "notebook BOOK < ENTRIES    learns each entry into the book, a file, and tells the node that is what is known then
notebook --help            shows this

A refused entry leaves the book as it was. docs/FORMATS.md says what a book and an entry hold, and what the numbers of a refusal mean.
";

#[derive(Drop)]
pub enum Wish {
    Learn(String),
    Help,
}

impl Wish {
    // By the program's arguments: the book, or none for help.
    pub fn read(rt: &(impl Env + AllocGlobal)) -> anyhow::Result<Wish> {
        let mut args = env::args(rt)?;
        let _ = args.next();
        let Some(word) = args.next() else {
            return Ok(Wish::Help);
        };
        if let Some(other) = args.next() {
            bail!("one book at a time, and not {other} too: see notebook --help");
        }
        if word.as_str() == "--help" {
            return Ok(Wish::Help);
        }
        Ok(Wish::Learn(word))
    }
}
