//! How the program ends, and what it says then.

use std::alloc::{AllocError, AllocFailed};
use std::io::{self, Write};
use yfiles::diagnostic::Diagnostic;
use yfiles::output::Output;
use yfiles::steady::Steady;
use yparts::foreign::Wished;
use ysymbols::let_go;

/// How the program ends.
#[derive(Clone, Copy, PartialEq, Eq)]
pub enum Ending {
    /// Help or a version was asked for, and is written.
    Helped,
    /// All files are written, and not all could be said that was to be said.
    Untold,
    /// The grammar file is refused, and that is said.
    Refused,
    /// It is refused for a later bison that it requires, and that is said.
    Later,
    /// The words are refused.
    Words,
    /// An argument is no text, or an output is an input or another output, and that is said.
    Arguments,
    /// Memory ran out.
    Memory,
    /// A file can't be read or written, and that is said.
    Outside,
}

impl From<AllocError> for Ending {
    fn from(_refused: AllocError) -> Ending {
        Ending::Memory
    }
}

impl<T: Drop> From<AllocFailed<T>> for Ending {
    fn from(_refused: AllocFailed<T>) -> Ending {
        Ending::Memory
    }
}

impl From<io::Error> for Ending {
    fn from(error: io::Error) -> Ending {
        match error.kind() {
            io::ErrorKind::OutOfMemory => Ending::Memory,
            _ => Ending::Outside,
        }
    }
}

/// A grammar file.
pub struct File {
    /// Its path.
    pub path: String,
    /// Its bytes.
    pub bytes: Vec<u8>,
    /// The variables that words set as if the file did, each with its letter before it and a zero
    /// after it.
    pub variables: Vec<u8>,
    /// What words wish of it as if it said so: bison's order and names, and a language.
    pub wished: Wished,
    /// Whether words ask for locations.
    pub locations: bool,
}

impl Drop for File {
    // A call in each owner, which keeps their proofs short.
    fn drop(self) {
        let_go!(self: File { path, bytes, variables, wished, locations });
    }
}

/// Says what a text says, and gives how the program ends.
pub fn say(rt: &HostRuntime, mut text: Output, ending: Ending) -> Ending {
    match text.finish(&mut rt.stderr()) {
        Err(error) if error.kind() == io::ErrorKind::OutOfMemory => Ending::Memory,
        _ => ending,
    }
}

/// Says a line of some parts, as far as it can be said; it takes no memory.
pub fn tell(rt: &HostRuntime, parts: &[&str]) {
    for part in parts {
        let _ = rt.stderr().write_all(part.as_bytes());
    }
    let _ = rt.stderr().write_all(b"\n");
}

/// Says that a file can't be opened, read or written, or that memory ran out.
pub fn outside(rt: &HostRuntime, what: &str, path: &str, error: &io::Error) -> Ending {
    if error.kind() == io::ErrorKind::OutOfMemory {
        return Ending::Memory;
    }
    tell(rt, &["ycc: cannot ", what, " ", path]);
    Ending::Outside
}

/// Says why a grammar file is refused.
pub fn refuse_by(rt: &HostRuntime, said: io::Result<Diagnostic>) -> Ending {
    match said.and_then(|one| one.put(&mut Steady::new(rt.stderr(), true), "ycc")) {
        Ok(()) => Ending::Refused,
        Err(error) => Ending::from(error),
    }
}
