//! A file of messages whose inputs are read.

use crate::claims::Claims;
use crate::file::{Cut, Part, is_comment, parts_of};
use crate::inputs::Inputs;
use crate::refusal::Source;
use crate::slots::{Slot, slots_of};
use std::alloc::Global;
use std::io::{self, ErrorKind};
use std::rt::Files;
use yexplain::reads::{Made, grammar_of};
use yfiles::diagnostic::Diagnostics;
use yfiles::reading::Limited;
use yinput::language::Language;
use yinput::spec::read_lexer;
use ysymbols::let_go;
use ytables::Tables;

/// A file of messages: its bytes, its parts, and what its inputs claim.
pub struct Messages {
    /// The bytes.
    pub bytes: Vec<u8>,
    /// The parts.
    pub(crate) parts: Vec<Part>,
    /// The inputs.
    pub(crate) claims: Claims,
}

impl Drop for Messages {
    // A call in each owner, which keeps their proofs short.
    fn drop(self) {
        let_go!(self: Messages { bytes, parts, claims });
    }
}

/// Whether all inputs of a file are tokens of these tables.
fn has_tokens_alone(alloc: Global, tables: &Tables, source: &[u8]) -> io::Result<bool> {
    let Ok(parts) = parts_of(alloc, source) else {
        return Ok(false);
    };
    for part in &parts {
        for line in &part.lines {
            let line = line.of(source);
            if !is_comment(line) && Inputs::of_tokens(tables).read(alloc, line)?.is_err() {
                return Ok(false);
            }
        }
    }
    Ok(true)
}

impl Messages {
    /// A file of these bytes, by its path, whose inputs are read so.
    /// Where it can't be read, what is wrong is said, and the exit status is the answer. Inputs
    /// that aren't errors at their last token are read too.
    pub(crate) fn read(
        alloc: Global,
        inputs: Inputs<'_>,
        path: &str,
        bytes: Vec<u8>,
        told: &mut Diagnostics,
    ) -> io::Result<Result<Messages, u8>> {
        let source = Source {
            path,
            bytes: &bytes,
        };
        let parts = match parts_of(alloc, &bytes) {
            Ok(parts) => parts,
            Err(Cut::NoMessage(line)) => {
                told.add(source.no_message(alloc, line)?)?;
                return Ok(Err(1));
            }
            Err(Cut::Memory) => return Err(io::Error::from(ErrorKind::OutOfMemory)),
        };
        let claims = match Claims::new(alloc, inputs, &bytes, &parts)? {
            Ok(claims) => claims,
            Err(unread) => {
                told.add(source.unread(alloc, grammar_of(inputs.tables), unread)?)?;
                return Ok(Err(1));
            }
        };
        Ok(Ok(Messages {
            bytes,
            parts,
            claims,
        }))
    }

    /// Tells what is wrong with the inputs, and says how many are wrong.
    pub(crate) fn add_wrong(
        &self,
        alloc: Global,
        tables: &Tables,
        path: &str,
        told: &mut Diagnostics,
    ) -> io::Result<usize> {
        let source = Source {
            path,
            bytes: &self.bytes,
        };
        source.add_claims(alloc, told, grammar_of(tables), &self.claims)
    }

    /// A file of these bytes, by its path, whose inputs are read so.
    /// Where something is wrong with it, that is said, and the exit status is the answer.
    fn checked(
        alloc: Global,
        inputs: Inputs<'_>,
        path: &str,
        bytes: Vec<u8>,
        told: &mut Diagnostics,
    ) -> io::Result<Result<Messages, u8>> {
        let messages = match Messages::read(alloc, inputs, path, bytes, told)? {
            Ok(messages) => messages,
            Err(status) => return Ok(Err(status)),
        };
        match messages.add_wrong(alloc, inputs.tables, path, told)? {
            0 => Ok(Ok(messages)),
            _ => Ok(Err(1)),
        }
    }

    /// Opens a file, whose inputs are read so. Where something is wrong with it, that is said, and
    /// the exit status is the answer.
    pub(crate) fn open<F: Files + AllocGlobal>(
        rt: &F,
        inputs: Inputs<'_>,
        file: Limited<'_>,
        told: &mut Diagnostics,
    ) -> io::Result<Result<Messages, u8>> {
        let bytes = match file.bytes_or_status(rt, true, told)? {
            Ok(bytes) => bytes,
            Err(status) => return Ok(Err(status)),
        };
        Messages::checked(rt.alloc(), inputs, file.path, bytes, told)
    }

    /// A file of these bytes likewise, whose inputs are read so, or are all tokens.
    fn either(
        alloc: Global,
        inputs: Inputs<'_>,
        path: &str,
        bytes: Vec<u8>,
        told: &mut Diagnostics,
    ) -> io::Result<Result<Messages, u8>> {
        let inputs = if !inputs.noted && has_tokens_alone(alloc, inputs.tables, &bytes)? {
            Inputs::of_tokens(inputs.tables)
        } else {
            inputs
        };
        Messages::checked(alloc, inputs, path, bytes, told)
    }

    /// Opens a file likewise, whose inputs are those of a language, or are all tokens.
    pub fn open_for<F: Files + AllocGlobal>(
        rt: &F,
        language: &Language,
        file: Limited<'_>,
        told: &mut Diagnostics,
    ) -> io::Result<Result<Messages, u8>> {
        let bytes = match file.bytes_or_status(rt, true, told)? {
            Ok(bytes) => bytes,
            Err(status) => return Ok(Err(status)),
        };
        let inputs = Inputs::of_language(language);
        Messages::either(rt.alloc(), inputs, file.path, bytes, told)
    }

    /// A file of these bytes likewise, by its path, for the tables of a grammar file. Its inputs
    /// are cut by the SPEC at a path, where there is one, or are all tokens; without it, those of
    /// texts stand below them.
    pub fn by_spec<F: Files + AllocGlobal>(
        rt: &F,
        (grammar, tables): (&str, &Tables),
        spec: Option<&str>,
        (path, bytes): (&str, Vec<u8>),
        told: &mut Diagnostics,
    ) -> io::Result<Result<Messages, u8>> {
        let lexer = match spec {
            None => None,
            Some(spec) => match read_lexer(rt, tables, spec)? {
                Ok(lexer) => Some(lexer),
                Err(fault) => return fault.tell_of(rt, told, grammar, tables).map(Err),
            },
        };
        let lent = lexer.as_ref();
        let inputs = Inputs::cut_by(tables, lent);
        Messages::either(rt.alloc(), inputs, path, bytes, told)
    }

    /// How many parts the file has; some may be comments alone.
    pub fn len(&self) -> usize {
        self.parts.len()
    }

    /// The message of a part, where it has one.
    pub fn message(&self, part: usize) -> Option<&[u8]> {
        let span = self.parts.get(part)?.message?;
        Some(span.of(&self.bytes))
    }

    /// The first input of a part, as the file has it; one of comments alone has none.
    pub fn input(&self, part: usize) -> Option<&[u8]> {
        for span in &self.parts.get(part)?.lines {
            let line = span.of(&self.bytes);
            if !is_comment(line) {
                return Some(line);
            }
        }
        None
    }

    /// The part whose message a state has, where it has one.
    pub fn part_of(&self, state: usize) -> Option<usize> {
        let claim = self.claims.all.get(self.claims.owner(state)?)?;
        Some(claim.part)
    }

    /// The message of a state, where it has one.
    pub fn of(&self, state: usize) -> Option<&[u8]> {
        self.message(self.part_of(state)?)
    }

    /// The pieces of the message of a state, where it has one.
    pub fn slots(&self, alloc: Global, state: usize) -> Made<Option<Vec<Slot<'_>>>> {
        match self.of(state) {
            Some(message) => slots_of(alloc, message).map(Some),
            None => Ok(None),
        }
    }
}
