// Where a book is kept. It is written to a new file beside the old one, which then takes its name: so a crash leaves the old one or the
// new one whole.
use anyhow::Context;
use book_file::Book;
use std::fs::File;
use std::io::{ErrorKind, Write};
use std::path::{Path, PathBuf};
use std::{fs, io};

// The file, the new one, and their folder.
#[derive(Drop)]
pub struct Place {
    file: PathBuf,
    new: PathBuf,
    folder: PathBuf,
}

impl Place {
    // A link stays a link: the file that it leads to is the one that is written.
    pub fn of(rt: &HostRuntime, path: &str) -> io::Result<Place> {
        let file = fs::canonicalize(rt, path)?;
        let new = format!(in rt.alloc(); "{}.new", file.display())?;
        let mut folder = fs::canonicalize(rt, path)?;
        folder.pop();
        Ok(Place {
            new: PathBuf::from(new),
            file,
            folder,
        })
    }

    // Puts the book in the place of the one that stood there.
    pub fn keep(&self, rt: &HostRuntime, book: &Book) -> anyhow::Result<()> {
        let bytes = book.bytes(rt.alloc())?;
        self.replace(rt, &bytes).context(format_args!(
            "the book {} can't be written",
            self.file.display()
        ))
    }

    // The new file may be read and written by whom the old one may.
    fn replace(&self, rt: &HostRuntime, bytes: &[u8]) -> io::Result<()> {
        let permissions = fs::metadata(rt, self.file.as_path())?.permissions();
        remove_left(rt, self.new.as_path())?;
        let mut file = File::create_new(rt, self.new.as_path())?;
        file.set_permissions(permissions)?;
        file.write_all(bytes)?;
        file.sync_all()?;
        fs::rename(rt, self.new.as_path(), self.file.as_path())?;
        File::open(rt, self.folder.as_path())?.sync_all()
    }
}

// A new file that a crash left is of no use.
fn remove_left(rt: &HostRuntime, path: Path<'_>) -> io::Result<()> {
    match fs::remove_file(rt, path) {
        Err(e) if e.kind() != ErrorKind::NotFound => Err(e),
        _ => Ok(()),
    }
}
