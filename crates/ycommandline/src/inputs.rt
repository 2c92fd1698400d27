//! The files of a folder of tests.

use std::alloc::AllocError;
use std::fs;
use std::io::{self, ErrorKind};
use std::rt::Files;
use yfiles::diagnostic::{Diagnostic, Diagnostics};
use yfiles::reading::undone;

/// What the name of a file ends in that says what is expected of an input.
const EXPECTED: &str = ".expect";

/// A folder of tests: its path, and the names of its files in their order, but for those that
/// begin with a dot or end in `~`, as editors leave them.
#[derive(Drop)]
pub struct Tests {
    /// The path.
    pub path: String,
    /// The names.
    pub names: Vec<String>,
}

/// What the name of an input has before its last dot; all of it where it has none.
fn stem_of(name: &str) -> &str {
    match name.rsplit_once('.') {
        Some((stem, _)) => stem,
        None => name,
    }
}

/// Whether a file of this name says what is expected of an input.
pub fn is_expectation(name: &str) -> bool {
    name.ends_with(EXPECTED)
}

/// The names of the files of a folder.
fn names_in<F: Files + AllocGlobal + Clone + Drop>(rt: &F, path: &str) -> io::Result<Vec<String>> {
    let mut names = Vec::new(rt.alloc());
    for entry in fs::read_dir(rt, path)? {
        let entry = entry?;
        let name = entry.file_name();
        if !name.starts_with('.') && !name.ends_with('~') {
            let name = String::from_str(rt.alloc(), name)?;
            names.push(name).map_err(AllocError::from)?;
        }
    }
    names.sort()?;
    Ok(names)
}

impl Tests {
    /// The files of a folder below another. Where it can't be read or has no input, that is said,
    /// and the exit status is the answer.
    pub fn of<F: Files + AllocGlobal + Clone + Drop>(
        rt: &F,
        (folder, below): (&str, &str),
        told: &mut Diagnostics,
    ) -> io::Result<Result<Tests, u8>> {
        let alloc = rt.alloc();
        let path = format!(in alloc; "{folder}/{below}")?;
        let names = match names_in(rt, &path) {
            Ok(names) => names,
            Err(error) => return undone(alloc, told, ("read", path.as_str()), error).map(Err),
        };
        if names.iter().all(|name| is_expectation(name)) {
            let mut one = Diagnostic::new(alloc, Some(path.as_str()), None)?;
            one.say("there is no input in this folder")?;
            told.add(one)?;
            return Ok(Err(1));
        }
        Ok(Ok(Tests { path, names }))
    }

    /// The name of the file that says what is expected of an input, where there is one.
    pub fn expectation(&self, input: &str) -> Option<&str> {
        for name in &self.names {
            if is_expectation(name) && stem_of(name) == stem_of(input) {
                return Some(name.as_str());
            }
        }
        None
    }

    /// Whether an input has what this file says to be expected.
    pub fn has_input(&self, expectation: &str) -> bool {
        for name in &self.names {
            if !is_expectation(name) && stem_of(name) == stem_of(expectation) {
                return true;
            }
        }
        false
    }
}
