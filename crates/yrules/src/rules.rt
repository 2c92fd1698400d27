//! `ydebug rules`.

use crate::comments::comments_of;
use crate::given::given_in;
use crate::header::put_header;
use crate::list::put_list;
use crate::module::put_module;
use crate::names::{Names, names_of};
use crate::refusal::Trouble;
use crate::sheet::{Sheet, tokens_of};
use crate::stems::stems_of;
use std::alloc::Global;
use std::io::{self, ErrorKind, Write};
use std::rt::Files;
use yexplain::reads::grammar_of;
use yfaults::opening::Opened;
use yfiles::output::Output;
use yfiles::same::refused_outputs;
use yfiles::writing::put_file;
use yinput::grammars::{GrammarFile, GrammarText, open_with_text};
use yview::digest::digest_of;

/// What is asked for: the names of the rules of a grammar file, in a header, in a module, or where
/// neither is wanted, in a list.
#[derive(Clone, Copy)]
pub struct Asked<'a> {
    /// The grammar file.
    pub grammar: GrammarFile<'a>,
    /// The path of the header in C.
    pub header: Option<&'a str>,
    /// The path of the module in Python.
    pub python: Option<&'a str>,
}

/// The names of the rules of a text that is open.
fn named(alloc: Global, bytes: &[u8], opened: &Opened) -> Result<Names, Trouble> {
    let (grammar, sites) = (grammar_of(&opened.tables), opened.lines.sites.as_slice());
    let comments = comments_of(alloc, bytes, sites)?;
    let given = given_in(alloc, &comments)?;
    let stems = stems_of(alloc, grammar, sites, &given)?;
    names_of(alloc, grammar, &stems)
}

/// Writes what is asked for of a grammar whose rules have names: both texts are made before any is
/// written.
fn put_named<F: Files + AllocGlobal, W: Write, E: Write>(
    rt: &F,
    asked: Asked<'_>,
    opened: &Opened,
    names: &Names,
    out: &mut W,
    errors: &mut E,
) -> io::Result<u8> {
    let alloc = rt.alloc();
    let Opened { tables, lines } = opened;
    let grammar = grammar_of(tables);
    let tokens = tokens_of(alloc, grammar)?;
    let sheet = Sheet {
        grammar,
        lines,
        names,
        tokens: &tokens,
        digest: digest_of(alloc, tables)?,
    };
    if asked.header.is_none() && asked.python.is_none() {
        put_list(alloc, out, asked.grammar.path, sheet)?;
        return Ok(0);
    }
    let (mut header, mut module) = (Output::new(alloc), Output::new(alloc));
    put_header(&mut header, sheet);
    put_module(&mut module, sheet);
    let (header, module) = (header.into_bytes()?, module.into_bytes()?);
    match put_file(rt, asked.header, &header, errors)? {
        0 => put_file(rt, asked.python, &module, errors),
        status => Ok(status),
    }
}

/// Writes what is asked for, and gives the exit status: 0; 1 where the file or a name in it is
/// refused; 2 where an output is the file itself, or both are one; 3 where a file can't be read or
/// written, memory runs out, or there are too many states.
pub fn run_rules<F: Files + AllocGlobal, W: Write, E: Write>(
    rt: &F,
    asked: Asked<'_>,
    out: &mut W,
    errors: &mut E,
) -> io::Result<u8> {
    let outputs = [asked.header, asked.python];
    if let Some(status) = refused_outputs(rt, &outputs, &[asked.grammar.path], errors)? {
        return Ok(status);
    }
    let text = match open_with_text(rt, asked.grammar, errors)? {
        Ok(text) => text,
        Err(status) => return Ok(status),
    };
    let GrammarText { bytes, opened, .. } = &text;
    match named(rt.alloc(), bytes, opened) {
        Ok(names) => put_named(rt, asked, opened, &names, out, errors),
        Err(Trouble::Refused(refusal)) => {
            let file = (asked.grammar.path, bytes.as_slice());
            let one = refusal.diagnostic(rt.alloc(), file, &opened.lines)?;
            one.put(errors, "ydebug")?;
            Ok(1)
        }
        Err(Trouble::Memory) => Err(io::Error::from(ErrorKind::OutOfMemory)),
    }
}
