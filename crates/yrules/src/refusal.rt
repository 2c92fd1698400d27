//! Why names are refused.

use std::alloc::{AllocError, AllocFailed, Global};
use std::io::{self, Write};
use yexplain::lines::Lines;
use yexplain::text::Numbered;
use yfiles::diagnostic::Diagnostic;
use yfiles::place::Place;

/// What is wrong with a name.
#[derive(Drop)]
pub enum Why {
    /// A comment gives what is no name in C.
    NoName,
    /// A comment gives a name to an alternative that another one has named.
    Second,
    /// The name is that of this rule too.
    Taken(Vec<u8>, usize),
}

/// A name that is refused.
#[derive(Drop)]
pub struct Refusal {
    /// How many bytes of the file stand before its place.
    pub at: usize,
    /// What is wrong with it.
    pub why: Why,
}

/// Why there are no names.
#[derive(Drop)]
pub enum Trouble {
    /// Memory ran out.
    Memory,
    /// A name is refused.
    Refused(Refusal),
}

impl From<AllocError> for Trouble {
    fn from(_refused: AllocError) -> Trouble {
        Trouble::Memory
    }
}

impl<T: Drop> From<AllocFailed<T>> for Trouble {
    fn from(_refused: AllocFailed<T>) -> Trouble {
        Trouble::Memory
    }
}

impl Refusal {
    /// What is wrong, with the line of the place, and how to mend it.
    pub fn diagnostic(
        &self,
        alloc: Global,
        (path, source): (&str, &[u8]),
        lines: &Lines,
    ) -> io::Result<Diagnostic> {
        let at = self.at;
        let mut one = Diagnostic::at(alloc, Place { path, source, at }, true)?;
        let mend = match &self.why {
            Why::NoName => {
                one.say("this is no name in C")?;
                "Write letters, digits and underscores, the first no digit."
            }
            Why::Second => {
                one.say("a comment has named this rule already")?;
                "Leave one of the names."
            }
            Why::Taken(name, rule) => {
                let rule = Numbered(lines, *rule);
                one.message.write_all(name)?;
                write!(one.message, " is the name of {rule} too")?;
                "Give one of both another name, as by /* name: other */."
            }
        };
        one.note(alloc, mend)?;
        Ok(one)
    }
}
