//! Grammar files of yacc and of bison.

use crate::spelled::Spelled;
use std::alloc::Global;
use std::io::{self, Write};
use std::mem;
use std::rt::Files;
use yexplain::reads::{Made, body_of, grammar_of, set};
use yfaults::opening::{Opened, grammar_bytes};
use yfiles::diagnostic::Diagnostics;
use yfiles::reading::undone;
use yfrontend::import::{Dialect, Foreign, Read, open_grammar};
use yfrontend::notes::Source;
use ysymbols::Grammar;

/// A grammar file.
#[derive(Clone, Copy)]
pub struct GrammarFile<'a> {
    /// Its path.
    pub path: &'a str,
    /// How it is read.
    pub dialect: Dialect,
}

/// A grammar file that is open: the text that `yacc` reads, and what that comes to.
#[derive(Drop)]
pub struct GrammarText {
    /// The bytes; of a file of bison, those that it becomes.
    pub bytes: Vec<u8>,
    /// The tables, and where things stand in the text.
    pub opened: Opened,
    /// What its tokens are called by the file.
    pub spelled: Spelled,
}

/// The text of an import with the grammar that it is, and what the file calls its tokens.
fn text_of(alloc: Global, source: &[u8], foreign: Foreign) -> Made<GrammarText> {
    let Foreign {
        mut imported,
        opened,
        ..
    } = foreign;
    let grammar = grammar_of(&opened.tables);
    // tokens are called by the strings of the file
    let texts = imported.spelling.texts(alloc, source, grammar)?;
    let bytes = mem::replace(&mut imported.text, Vec::new(alloc));
    Ok(GrammarText {
        bytes,
        opened,
        spelled: Spelled { texts },
    })
}

/// Opens a grammar file with its text. Where it is refused, that is said, and the exit status is
/// the answer.
pub fn open_told<F: Files + AllocGlobal>(
    rt: &F,
    file: GrammarFile<'_>,
    told: &mut Diagnostics,
) -> io::Result<Result<GrammarText, u8>> {
    let (alloc, path) = (rt.alloc(), file.path);
    let bytes = match grammar_bytes(rt, path) {
        Ok(bytes) => bytes,
        Err(error) => return undone(alloc, told, ("read", path), error).map(Err),
    };
    let source = Source {
        path,
        bytes: &bytes,
    };
    match open_grammar(alloc, told, source, file.dialect)? {
        Ok(Read::Plain(opened)) => Ok(Ok(GrammarText {
            bytes,
            opened,
            spelled: Spelled {
                texts: Vec::new(alloc),
            },
        })),
        Ok(Read::Foreign(foreign)) => Ok(Ok(text_of(alloc, &bytes, foreign)?)),
        Err(status) => Ok(Err(status)),
    }
}

/// Opens a grammar file with its text. What is said of it is written; where it is refused, the exit
/// status is the answer.
pub fn open_with_text<F: Files + AllocGlobal, E: Write>(
    rt: &F,
    file: GrammarFile<'_>,
    errors: &mut E,
) -> io::Result<Result<GrammarText, u8>> {
    let mut told = Diagnostics::new(rt.alloc());
    let opened = open_told(rt, file, &mut told)?;
    told.put(errors, "ydebug")?;
    Ok(opened)
}

/// Opens a grammar file likewise, without its text.
pub fn open_file<F: Files + AllocGlobal, E: Write>(
    rt: &F,
    file: GrammarFile<'_>,
    errors: &mut E,
) -> io::Result<Result<Opened, u8>> {
    match open_with_text(rt, file, errors)? {
        Ok(text) => {
            let GrammarText { opened, .. } = text;
            Ok(Ok(opened))
        }
        Err(status) => Ok(Err(status)),
    }
}

/// Which symbols stand in the body of a rule.
pub fn used_in(alloc: Global, grammar: &Grammar) -> Made<Vec<bool>> {
    let mut used = vec![in alloc; false; grammar.symbols()]?;
    for rule in 0..grammar.rules() {
        for symbol in body_of(grammar, rule) {
            set(&mut used, *symbol, true);
        }
    }
    Ok(used)
}
