//! Parses from the files that a command is given.

use crate::language::{Language, LanguageFiles};
use crate::parse::Parse;
use std::io::{self, Write};
use std::rt::Files;
use yfiles::reading::Limited;
use yfiles::same::is_among;

/// The files of a parse.
#[derive(Drop)]
pub struct Source<'a, F> {
    /// What opens files.
    pub rt: &'a F,
    /// The files of its language.
    pub files: LanguageFiles<'a>,
    /// The input.
    pub input: Limited<'a>,
}

impl<F: Files + AllocGlobal> Source<'_, F> {
    /// A parse at its start. Where a file is refused, that is written, and the exit status is the
    /// answer: 1 for a fault of a file, 3 for too many states, and for a file that can't be read.
    pub fn open<E: Write>(&self, errors: &mut E) -> io::Result<Result<Parse, u8>> {
        let language = match Language::open(self.rt, self.files, errors)? {
            Ok(language) => language,
            Err(status) => return Ok(Err(status)),
        };
        let (rt, grammar) = (self.rt, self.files.grammar);
        match language.read(rt, self.input)? {
            Ok(input) => Parse::new(rt.alloc(), language, input).map(Ok),
            Err(fault) => fault.put(rt, errors, grammar, &language.opened).map(Err),
        }
    }

    /// Whether a path means one of the files, which then isn't written over. A tokens file isn't
    /// guarded: tokens may be written over those that they come from.
    pub fn guards(&self, path: &str) -> io::Result<bool> {
        let grammar = self.files.grammar.path;
        match self.files.spec {
            Some(spec) => is_among(self.rt, path, &[grammar, spec, self.input.path]),
            None => is_among(self.rt, path, &[grammar]),
        }
    }
}
