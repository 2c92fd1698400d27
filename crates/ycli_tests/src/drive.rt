//! A file system in memory: one grammar file to be read, and one table to be written, whose device
//! refuses a call.

use std::alloc::Allocator;
use std::fs::{Files, Metadata, OpenFile, OpenOptions};
use std::io::{self, ErrorKind, Read, Seek, SeekFrom, Write};
use testkit::devices::{Refusal, Sink};
use testkit::worked::ONE;

/// The path of the only file that can be read.
pub const GRAMMAR: &str = "grammar.y";

/// The path of the only file that can be made.
pub const TABLE: &str = "y.tab";

/// What is read of an open file, and what it takes.
#[derive(Drop)]
pub struct Open {
    rest: &'static [u8],
    sink: Sink,
}

impl Open {
    /// An empty file, whose writes and flushes this refusal counts.
    pub fn empty(refusal: Refusal) -> Open {
        Open {
            rest: b"",
            sink: Sink::new(4096, refusal),
        }
    }

    /// A file of this text.
    fn of_text(text: &'static [u8]) -> Open {
        let mut open = Open::empty(Refusal::Never);
        open.rest = text;
        open
    }
}

impl Read for Open {
    fn read(&mut self, buf: &mut [u8]) -> io::Result<usize> {
        self.rest.read(buf)
    }
}

impl Write for Open {
    fn write(&mut self, buf: &[u8]) -> io::Result<usize> {
        self.sink.write(buf)
    }

    fn flush(&mut self) -> io::Result<()> {
        self.sink.flush()
    }
}

/// What no test asks for.
fn unsupported<T>() -> io::Result<T> {
    Err(io::Error::from(ErrorKind::Unsupported))
}

impl Seek for Open {
    fn seek(&mut self, _to: SeekFrom) -> io::Result<u64> {
        unsupported()
    }
}

impl OpenFile for Open {
    fn metadata(&self) -> io::Result<Metadata> {
        unsupported()
    }

    fn set_len(&self, _size: u64) -> io::Result<()> {
        unsupported()
    }

    fn sync_all(&self) -> io::Result<()> {
        unsupported()
    }

    fn sync_data(&self) -> io::Result<()> {
        unsupported()
    }
}

/// A grammar of one rule can be read, and a table made, which refuses a call.
#[derive(Clone, Copy)]
pub struct Drive {
    refusal: Refusal,
}

impl Drive {
    /// A table that is made counts its writes and flushes for this refusal.
    pub fn new(refusal: Refusal) -> Drive {
        Drive { refusal }
    }
}

impl Files for Drive {
    type File = Open;

    type Dir = &'static [u8];

    fn open_file(&self, how: &OpenOptions, path: &str) -> io::Result<Open> {
        match path {
            GRAMMAR if !how.asks_write() => Ok(Open::of_text(ONE)),
            TABLE if how.asks_create() && how.asks_truncate() => Ok(Open::empty(self.refusal)),
            _ => Err(io::Error::from(ErrorKind::NotFound)),
        }
    }

    fn open_dir(&self, _path: &str) -> io::Result<&'static [u8]> {
        unsupported()
    }

    fn metadata(&self, _path: &str) -> io::Result<Metadata> {
        unsupported()
    }

    fn symlink_metadata(&self, _path: &str) -> io::Result<Metadata> {
        unsupported()
    }

    fn copy(&self, _from: &str, _to: &str) -> io::Result<u64> {
        unsupported()
    }

    fn rename(&self, _from: &str, _to: &str) -> io::Result<()> {
        unsupported()
    }

    fn remove_file(&self, _path: &str) -> io::Result<()> {
        unsupported()
    }

    fn create_dir(&self, _path: &str) -> io::Result<()> {
        unsupported()
    }

    fn remove_dir(&self, _path: &str) -> io::Result<()> {
        unsupported()
    }

    fn remove_dir_all<B: Allocator>(&self, _alloc: B, _path: &str) -> io::Result<()> {
        unsupported()
    }
}
