//! What is said of files: each thing with its place, and all that is said in a run.

use crate::category::{Categories, Category, Choice};
use crate::place::{Place, Spot};
use std::alloc::{AllocError, Global};
use std::io::{self, Write};

/// How bad something is.
#[derive(Clone, Copy, Drop, PartialEq, Eq)]
pub enum Severity {
    /// The run fails by it.
    Error,
    /// It deserves a look.
    Warning,
    /// It is accepted.
    Note,
}

impl Severity {
    /// Its word.
    pub fn word(self) -> &'static str {
        match self {
            Severity::Error => "error",
            Severity::Warning => "warning",
            Severity::Note => "note",
        }
    }
}

/// What helps.
#[derive(Drop)]
pub struct Note {
    /// The place in the file, where it is another one than that of what it helps with.
    pub spot: Option<Spot>,
    /// The text.
    pub text: Vec<u8>,
}

/// What is said of a place of a file, of a whole file, or of something else.
pub struct Diagnostic {
    /// How bad it is.
    pub severity: Severity,
    /// The category of a warning, where it has one.
    pub category: Option<Category>,
    /// The code of a fault, as `G7`, where it has one.
    pub code: Option<&'static str>,
    /// The path of the file, where it is about one that was read.
    pub file: Option<String>,
    /// The place in the file.
    pub spot: Option<Spot>,
    /// What stands at the place, where the excerpt alone shows it: nothing where the message does.
    pub subject: Vec<u8>,
    /// What is said.
    pub message: Vec<u8>,
    /// The line of the place as it is shown, with a caret below it.
    pub excerpt: Vec<u8>,
    /// What helps.
    pub notes: Vec<Note>,
}

impl Drop for Diagnostic {
    // A call in each owner, which keeps their proofs short.
    fn drop(self) {
        let Diagnostic {
            severity: _,
            category: _,
            code: _,
            file: _,
            spot: _,
            subject: _,
            message: _,
            excerpt: _,
            notes: _,
        } = self;
    }
}

impl Diagnostic {
    /// An error at a place of a file, or about the whole file, of which nothing is said yet.
    pub fn new(
        alloc: Global,
        file: Option<&str>,
        spot: Option<Spot>,
    ) -> Result<Diagnostic, AllocError> {
        let file = match file {
            Some(path) => Some(String::from_str(alloc, path)?),
            None => None,
        };
        Ok(Diagnostic {
            severity: Severity::Error,
            category: None,
            code: None,
            file,
            spot,
            subject: Vec::new(alloc),
            message: Vec::new(alloc),
            excerpt: Vec::new(alloc),
            notes: Vec::new(alloc),
        })
    }

    /// An error at a place, which shows the text there, and a caret where one is wanted.
    pub fn at(alloc: Global, place: Place<'_>, caret: bool) -> io::Result<Diagnostic> {
        let mut one = Diagnostic::new(alloc, Some(place.path), Some(place.spot()))?;
        place.put_text(&mut one.excerpt, caret)?;
        Ok(one)
    }

    /// Says more.
    pub fn say(&mut self, text: &str) -> Result<(), AllocError> {
        self.message.extend_from_slice(text.as_bytes())?;
        Ok(())
    }

    /// Adds a text that helps.
    pub fn help(&mut self, text: Vec<u8>) -> Result<(), AllocError> {
        self.notes.push(Note { spot: None, text })?;
        Ok(())
    }

    /// Adds a text that helps.
    pub fn note(&mut self, alloc: Global, text: &str) -> Result<(), AllocError> {
        self.help(Vec::from_slice(alloc, text.as_bytes())?)
    }

    /// Writes it for people, after the name of the program where it is about no file.
    pub fn put<W: Write>(&self, out: &mut W, program: &str) -> io::Result<()> {
        let (front, severity) = (
            self.file.as_ref().map_or(program, String::as_str),
            self.severity.word(),
        );
        match self.spot {
            Some(spot) => write!(out, "{front}:{spot}: {severity}: ")?,
            None => write!(out, "{front}: {severity}: ")?,
        }
        if let Some(code) = self.code {
            write!(out, "{code}: ")?;
        }
        out.write_all(&self.message)?;
        out.write_all(b"\n")?;
        out.write_all(&self.excerpt)?;
        for note in &self.notes {
            out.write_all(b"  ")?;
            out.write_all(&note.text)?;
            out.write_all(b"\n")?;
        }
        Ok(())
    }
}

/// All that is said, in its order.
#[derive(Drop)]
pub struct Diagnostics {
    /// Each of it.
    pub all: Vec<Diagnostic>,
}

impl Diagnostics {
    /// Nothing is said yet.
    pub fn new(alloc: Global) -> Diagnostics {
        Diagnostics {
            all: Vec::new(alloc),
        }
    }

    /// Adds something.
    pub fn add(&mut self, one: Diagnostic) -> Result<(), AllocError> {
        self.all.push(one)?;
        Ok(())
    }

    /// Adds all that was said elsewhere.
    pub fn take(&mut self, more: Diagnostics) -> Result<(), AllocError> {
        let Diagnostics { all } = more;
        for one in all {
            self.all.push(one)?;
        }
        Ok(())
    }

    /// Says how bad all is that was said after so many.
    pub fn judge(&mut self, before: usize, severity: Severity) {
        for place in before..self.all.len() {
            if let Some(one) = self.all.get_mut(place) {
                one.severity = severity;
            }
        }
    }

    /// Makes errors of all after so many but notes whose category makes a run fail, and says
    /// whether there are some.
    pub fn judge_by(&mut self, before: usize, choice: Choice) -> bool {
        let mut fails = false;
        for place in before..self.all.len() {
            if let Some(one) = self.all.get_mut(place) {
                let is_meant = one.category.is_some_and(|it| choice.fails_by(it));
                if is_meant && one.severity != Severity::Note {
                    one.severity = Severity::Error;
                    fails = true;
                }
            }
        }
        fails
    }

    /// All of it but what is of a category that isn't one of these.
    pub fn only(self, alloc: Global, shown: Categories) -> Result<Diagnostics, AllocError> {
        let Diagnostics { all } = self;
        let mut kept = Diagnostics::new(alloc);
        for one in all {
            if one.category.is_none_or(|it| shown.has(it)) {
                kept.add(one)?;
            }
        }
        Ok(kept)
    }

    /// Writes all of it for people, after the name of the program what is about no file.
    pub fn put<W: Write>(&self, out: &mut W, program: &str) -> io::Result<()> {
        for one in &self.all {
            one.put(out, program)?;
        }
        Ok(())
    }
}
