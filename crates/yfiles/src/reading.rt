//! Files read up to a limit.

use crate::diagnostic::{Diagnostic, Diagnostics};
use std::alloc::Global;
use std::fs;
use std::io::{self, ErrorKind, Read, Write};
use std::rt::Files;

/// The most bytes of a tokens file or a text, unless another limit is asked for.
pub const LONGEST_INPUT: u64 = 16_777_216;

/// The most bytes of a SPEC.
pub const LONGEST_SPEC: u64 = 1_048_576;

/// A file, and how many bytes of it are taken at most.
#[derive(Clone, Copy)]
pub struct Limited<'a> {
    /// Its path.
    pub path: &'a str,
    /// The most bytes that it may have.
    pub most: u64,
}

/// All bytes of a reader, or `None` where it has more than so many; one more is read at most.
pub fn all_bytes<R: Read>(alloc: Global, reader: &mut R, most: u64) -> io::Result<Option<Vec<u8>>> {
    let mut bytes = Vec::new(alloc);
    let mut first = reader.by_ref().take(most.saturating_add(1));
    first.read_to_end(&mut bytes)?;
    if bytes.len() as u64 > most {
        return Ok(None);
    }
    Ok(Some(bytes))
}

impl Limited<'_> {
    /// All bytes of the file, or `None` where it has more than may be taken; one more is read at
    /// most.
    pub fn bytes<F: Files + AllocGlobal>(self, rt: &F) -> io::Result<Option<Vec<u8>>> {
        all_bytes(rt.alloc(), &mut fs::open(rt, self.path)?, self.most)
    }

    /// That the file has more bytes than may be taken, and how many it has, where that can be told,
    /// as it can't of a pipe or a device; with how to raise the limit where an option does.
    pub fn too_long<F: Files + AllocGlobal>(
        self,
        rt: &F,
        is_raised: bool,
    ) -> io::Result<Diagnostic> {
        let (alloc, Limited { path, most }) = (rt.alloc(), self);
        let mut one = Diagnostic::new(alloc, Some(path), None)?;
        match fs::metadata(rt, path) {
            Ok(there) if there.is_file() && there.len() > most => {
                let size = there.len();
                write!(one.message, "it has {size} bytes; {most} are the limit")?;
            }
            _ => write!(one.message, "it has more than {most} bytes, the limit")?,
        }
        if is_raised {
            one.note(alloc, "--limit N takes inputs of up to N bytes")?;
        }
        Ok(one)
    }

    /// All bytes of the file. Where it has too many, that is said, with how to raise the limit
    /// where an option does; or that it can't be read; and the exit status is the answer.
    pub fn bytes_or_status<F: Files + AllocGlobal>(
        self,
        rt: &F,
        is_raised: bool,
        told: &mut Diagnostics,
    ) -> io::Result<Result<Vec<u8>, u8>> {
        match self.bytes(rt) {
            Ok(Some(bytes)) => Ok(Ok(bytes)),
            Ok(None) => {
                told.add(self.too_long(rt, is_raised)?)?;
                Ok(Err(1))
            }
            Err(error) => undone(rt.alloc(), told, ("read", self.path), error).map(Err),
        }
    }
}

/// Says that a file can't be read or written, and gives the exit status; only no memory stays an
/// error.
pub fn undone(
    alloc: Global,
    told: &mut Diagnostics,
    (what, path): (&str, &str),
    error: io::Error,
) -> io::Result<u8> {
    if error.kind() == ErrorKind::OutOfMemory {
        return Err(error);
    }
    let mut one = Diagnostic::new(alloc, None, None)?;
    write!(one.message, "cannot {what} {path}")?;
    told.add(one)?;
    Ok(3)
}
