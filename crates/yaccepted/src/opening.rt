//! A grammar file that is open, with the numbers of conflicts that it expects.

use crate::comments::Numbers;
use crate::expected::Expectation;
use crate::refusal::wrong_comment;
use std::alloc::Global;
use std::io;
use std::rt::Files;
use yfaults::opening::{Opened, grammar_bytes};
use yfiles::diagnostic::Diagnostics;
use yfiles::reading::undone;
use yfrontend::import::{Dialect, Foreign, Read, open_grammar};
use yfrontend::notes::Source;

/// A grammar file, and whether the numbers that its comments expect are read.
#[derive(Clone, Copy)]
pub struct File<'a> {
    /// Its path.
    pub path: &'a str,
    /// How it is read.
    pub dialect: Dialect,
    /// Whether its comments are read. Directives of a file of bison always are.
    pub comments: bool,
}

/// A grammar file that is open, and what it expects.
#[derive(Drop)]
pub struct Counted {
    /// The tables, and where things stand in the file.
    pub opened: Opened,
    /// The numbers of conflicts that it expects.
    pub expected: Expectation,
    /// Its bytes.
    pub bytes: Vec<u8>,
}

/// What the directives of a file of bison expect.
fn directives_of(foreign: &Foreign) -> Expectation {
    let numbers = Numbers {
        shift_reduce: foreign.imported.shift_reduce,
        reduce_reduce: foreign.imported.reduce_reduce,
    };
    Expectation::Directives(numbers, foreign.counts)
}

/// What the comments of a file of yacc expect; where one is refused, that is said, and the exit
/// status is the answer.
fn comments_of(
    alloc: Global,
    told: &mut Diagnostics,
    source: Source<'_>,
    are_read: bool,
) -> io::Result<Result<Expectation, u8>> {
    if !are_read {
        return Ok(Ok(Expectation::Open));
    }
    match Numbers::of(source.bytes) {
        Ok(numbers) => Ok(Ok(Expectation::Comments(numbers))),
        Err(wrong) => {
            told.add(wrong_comment(alloc, source, wrong)?)?;
            Ok(Err(1))
        }
    }
}

/// Opens a grammar file. Where it is refused, that is said, and the exit status is the answer.
pub fn open_counted<F: Files + AllocGlobal>(
    rt: &F,
    file: File<'_>,
    told: &mut Diagnostics,
) -> io::Result<Result<Counted, u8>> {
    match grammar_bytes(rt, file.path) {
        Ok(bytes) => open_bytes(rt.alloc(), file, bytes, told),
        Err(error) => undone(rt.alloc(), told, ("read", file.path), error).map(Err),
    }
}

/// Opens a grammar file of these bytes. Where it is refused, that is said, and the exit status is
/// the answer.
pub fn open_bytes(
    alloc: Global,
    file: File<'_>,
    bytes: Vec<u8>,
    told: &mut Diagnostics,
) -> io::Result<Result<Counted, u8>> {
    let source = Source {
        path: file.path,
        bytes: &bytes,
    };
    let (opened, expected) = match open_grammar(alloc, told, source, file.dialect)? {
        Ok(Read::Plain(opened)) => match comments_of(alloc, told, source, file.comments)? {
            Ok(expected) => (opened, expected),
            Err(status) => return Ok(Err(status)),
        },
        Ok(Read::Foreign(foreign)) => {
            let expected = directives_of(&foreign);
            let Foreign { opened, .. } = foreign;
            (opened, expected)
        }
        Err(status) => return Ok(Err(status)),
    };
    Ok(Ok(Counted {
        opened,
        expected,
        bytes,
    }))
}
