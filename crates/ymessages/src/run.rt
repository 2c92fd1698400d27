//! `ydebug errors`.

use crate::data::data_of;
use crate::inputs::Inputs;
use crate::messages::Messages;
use crate::update::{New, Update, confirm_all};
use std::alloc::Global;
use std::fs;
use std::io::{self, Write};
use std::rt::Files;
use yerrors::confirm::Confirmed;
use yerrors::errors::Errors;
use yexplain::reads::{Made, grammar_of};
use yexplain::text::{Name, Names};
use yfaults::opening::Opened;
use yfiles::diagnostic::Diagnostics;
use yfiles::reading::Limited;
use yfiles::same::refused_outputs;
use yfiles::writing::put_file;
use yinput::language::{Language, LanguageFiles};
use ylalr::END;
use ylex::writer::Writer;
use yparse::Session;
use ysearch::trial::empty_session;
use ysymbols::{Grammar, let_go};
use yview::page::Page;

/// What is asked for: the errors of a grammar, or a file of messages for them.
#[derive(Clone, Copy)]
pub struct Asked<'a> {
    /// The files of their language.
    pub files: LanguageFiles<'a>,
    /// The file of messages.
    pub messages: Option<Limited<'a>>,
    /// Whether each state in which an error is detected is to have a message.
    pub complete: bool,
    /// Whether the file is to be written anew.
    pub update: bool,
    /// Whether each state gets a block of its own.
    pub alone: bool,
    /// The file to which the messages are to be written as data.
    pub table: Option<&'a str>,
}

/// A file of messages with what is found for it.
struct Found {
    session: Session,
    messages: Messages,
    errors: Errors,
    /// Those by inputs for whose tokens texts are found, where some have none.
    told: Option<Errors>,
    writer: Option<Writer>,
}

impl Drop for Found {
    // A call in each owner, which keeps their proofs short.
    fn drop(self) {
        let_go!(self: Found { session, messages, errors, told, writer });
    }
}

/// Tokens that inputs can't have, where they are texts.
#[derive(Drop)]
struct Lacking {
    /// Those that no line of the SPEC gives.
    absent: Vec<bool>,
    /// Those and the ones for which no text is found.
    untold: Vec<bool>,
}

/// The tokens that inputs can't have.
fn lacking_in(alloc: Global, grammar: &Grammar, writer: Option<&Writer>) -> Made<Lacking> {
    let (mut absent, mut untold) = (Vec::new(alloc), Vec::new(alloc));
    if let Some(writer) = writer {
        for token in 0..grammar.symbols() {
            absent.push(token != END && !writer.lexer.gives(token))?;
            untold.push(token != END && !writer.tells(token))?;
        }
    }
    Ok(Lacking { absent, untold })
}

impl Found {
    /// What is found for a file, by the tables of a language.
    fn new(alloc: Global, language: Language, messages: Messages) -> io::Result<Found> {
        let (opened, writer) = language.into_writing(alloc)?;
        let Opened { tables, lines: _ } = opened;
        let lacking = lacking_in(alloc, grammar_of(&tables), writer.as_ref())?;
        let mut session = empty_session(alloc, tables);
        let errors = Errors::new(alloc, &mut session, &lacking.absent)?;
        let told = if lacking.absent == lacking.untold {
            None
        } else {
            Some(Errors::new(alloc, &mut session, &lacking.untold)?)
        };
        Ok(Found {
            session,
            messages,
            errors,
            told,
            writer,
        })
    }

    /// What a file of a path is written with, by what is confirmed of its inputs, and whether each
    /// state that is new gets a block of its own.
    fn update<'a>(
        &'a self,
        alloc: Global,
        (path, alone): (&'a str, bool),
        confirmed: &'a [Option<Confirmed>],
    ) -> Update<'a> {
        Update {
            alloc,
            path,
            tables: self.session.tables(),
            errors: &self.errors,
            told: self.told.as_ref(),
            messages: &self.messages,
            confirmed,
            writer: self.writer.as_ref(),
            alone,
        }
    }

    /// Writes the file anew, and says which states are new.
    fn put<W: Write>(
        &mut self,
        alloc: Global,
        (path, alone): (&str, bool),
        out: &mut W,
    ) -> io::Result<New> {
        let confirmed = confirm_all(alloc, &mut self.session, &self.messages)?;
        let update = self.update(alloc, (path, alone), &confirmed);
        let mut page = Page::new(&mut *out, false);
        let new = update.put(&mut page);
        page.checked()?;
        new
    }

    /// Writes the states that have no message, each with an input for it, and says how many they
    /// are.
    fn put_missing<E: Write>(
        &self,
        alloc: Global,
        path: &str,
        errors: &mut E,
    ) -> io::Result<usize> {
        let update = self.update(alloc, (path, true), &[]);
        let mut count: usize = 0;
        for state in 0..self.errors.outcomes.len() {
            if let Some(confirmed) = update.new_list(state) {
                put_silent(update, errors, state, confirmed)?;
                count = count.saturating_add(1);
            }
        }
        Ok(count)
    }
}

/// Writes that a state has no message, with an input for it, or that no text is found for one.
fn put_silent<E: Write>(
    update: Update<'_>,
    errors: &mut E,
    state: usize,
    confirmed: &Confirmed,
) -> io::Result<()> {
    let path = update.path;
    write!(errors, "{path}: state {state} has no message")?;
    if let Some(line) = update.line(confirmed)? {
        errors.write_all(b": ")?;
        errors.write_all(&line)?;
    } else {
        let grammar = grammar_of(update.tables);
        let names = Names(grammar, &confirmed.tokens);
        let last = Name(grammar, confirmed.last);
        write!(errors, ", and no text is found for{names} {last}")?;
    }
    writeln!(errors)
}

/// A number and what is counted.
fn put_count<W: Write>(out: &mut W, count: usize, one: &str, many: &str) -> io::Result<()> {
    let what = if count == 1 { one } else { many };
    write!(out, "{count} {what}")
}

/// Writes how many inputs a file has, as the front of a line.
fn put_inputs<W: Write>(out: &mut W, path: &str, messages: &Messages) -> io::Result<()> {
    write!(out, "{path}: ")?;
    put_count(out, messages.claims.all.len(), "input", "inputs")
}

/// The messages that are asked for: those of the file; of one that is to be written anew, also
/// where inputs are wrong or there is no such file; none where errors are to be listed. Where they
/// can't be read, that is said, and the exit status is the answer.
fn read_messages<F: Files + AllocGlobal>(
    rt: &F,
    asked: &Asked<'_>,
    language: &Language,
    told: &mut Diagnostics,
) -> io::Result<Result<Messages, u8>> {
    let inputs = Inputs::of_language(language);
    let (path, bytes) = match asked.messages {
        None => (asked.files.grammar.path, Vec::new(rt.alloc())),
        Some(file) if !asked.update => return Messages::open(rt, inputs, file, told),
        Some(file) if fs::metadata(rt, file.path).is_err() => (file.path, Vec::new(rt.alloc())),
        Some(file) => match file.bytes_or_status(rt, true, told)? {
            Ok(bytes) => (file.path, bytes),
            Err(status) => return Ok(Err(status)),
        },
    };
    Messages::read(rt.alloc(), inputs, path, bytes, told)
}

/// Writes what an update of a file comes to: its inputs, those that are wrong, and the states that
/// are new.
fn put_renewed<W: Write>(
    out: &mut W,
    path: &str,
    messages: &Messages,
    wrong: usize,
    new: New,
) -> io::Result<()> {
    put_inputs(out, path, messages)?;
    write!(out, ", {wrong} wrong; ")?;
    put_count(out, new.told, "new state", "new states")?;
    if new.untold > 0 {
        write!(out, "; ")?;
        put_count(
            out,
            new.untold,
            "state without a text",
            "states without a text",
        )?;
    }
    writeln!(out)
}

/// Writes a file anew that is read, and gives the exit status.
fn rewrite<F: Files + AllocGlobal, W: Write, E: Write>(
    rt: &F,
    (grammar, path, alone): (&str, &str, bool),
    (language, messages): (Language, Messages),
    out: &mut W,
    errors: &mut E,
) -> io::Result<u8> {
    let alloc = rt.alloc();
    let mut told = Diagnostics::new(alloc);
    let wrong = messages.add_wrong(alloc, &language.opened.tables, path, &mut told)?;
    told.put(errors, "ydebug")?;
    let mut found = Found::new(alloc, language, messages)?;
    let mut text = Vec::new(alloc);
    let new = found.put(alloc, (grammar, alone), &mut text)?;
    let status = put_file(rt, Some(path), &text, errors)?;
    if status > 0 {
        return Ok(status);
    }
    put_renewed(out, path, &found.messages, wrong, new)?;
    Ok(if wrong > 0 { 1 } else { 0 })
}

/// Says that nothing is wrong with a file, or which states have no message where each is to have
/// one, and gives the exit status. The messages are written as data first, if that is asked for.
fn check<F: Files + AllocGlobal, W: Write, E: Write>(
    rt: &F,
    asked: &Asked<'_>,
    file: Limited<'_>,
    (language, messages): (Language, Messages),
    out: &mut W,
    errors: &mut E,
) -> io::Result<u8> {
    let alloc = rt.alloc();
    let mut line = Vec::new(alloc);
    put_inputs(&mut line, file.path, &messages)?;
    let (tables, spelled) = (&language.opened.tables, &language.spelled);
    let data = match asked.table {
        Some(_) => data_of(alloc, tables, spelled, &messages)?,
        None => Vec::new(alloc),
    };
    if asked.complete {
        let found = Found::new(alloc, language, messages)?;
        if found.put_missing(alloc, file.path, errors)? > 0 {
            return Ok(1);
        }
    }
    let status = put_file(rt, asked.table, &data, errors)?;
    if status == 0 {
        out.write_all(&line)?;
        writeln!(out, "{}", if asked.complete { ", complete" } else { "" })?;
    }
    Ok(status)
}

/// The exit status where what is written would be a file that is read.
fn refused<F: Files + AllocGlobal, E: Write>(
    rt: &F,
    asked: &Asked<'_>,
    errors: &mut E,
) -> io::Result<Option<u8>> {
    let grammar = asked.files.grammar.path;
    let spec = asked.files.spec.unwrap_or(grammar);
    match asked.messages {
        Some(file) if asked.update => {
            refused_outputs(rt, &[Some(file.path)], &[grammar, spec], errors)
        }
        Some(file) => refused_outputs(rt, &[asked.table], &[grammar, spec, file.path], errors),
        None => refused_outputs(rt, &[asked.table], &[grammar, spec], errors),
    }
}

/// Writes what is asked for by a language that is open, and gives the exit status.
fn run_open<F: Files + AllocGlobal, W: Write, E: Write>(
    rt: &F,
    asked: &Asked<'_>,
    language: Language,
    out: &mut W,
    errors: &mut E,
) -> io::Result<u8> {
    let mut told = Diagnostics::new(rt.alloc());
    let messages = read_messages(rt, asked, &language, &mut told)?;
    told.put(errors, "ydebug")?;
    let messages = match messages {
        Ok(messages) => messages,
        Err(status) => return Ok(status),
    };
    let grammar = asked.files.grammar.path;
    let read = (language, messages);
    match asked.messages {
        // a file of messages that has no message yet
        None => {
            let mut found = Found::new(rt.alloc(), read.0, read.1)?;
            found
                .put(rt.alloc(), (grammar, asked.alone), out)
                .map(|_| 0)
        }
        Some(file) if asked.update => {
            let way = (grammar, file.path, asked.alone);
            rewrite(rt, way, read, out, errors)
        }
        Some(file) => check(rt, asked, file, read, out, errors),
    }
}

/// Writes what is asked for, and gives the exit status: 0; 1 where the grammar, the SPEC or the
/// file of messages is refused, one of its inputs is wrong, or a state has no message and is to
/// have one; 2 where a file that is read would be written over; 3 where a file can't be read or
/// written, memory runs out, or there are too many states.
pub fn run_errors<F: Files + AllocGlobal, W: Write, E: Write>(
    rt: &F,
    asked: &Asked<'_>,
    out: &mut W,
    errors: &mut E,
) -> io::Result<u8> {
    match refused(rt, asked, errors)? {
        Some(status) => Ok(status),
        None => match Language::open(rt, asked.files, errors)? {
            Ok(language) => run_open(rt, asked, language, out, errors),
            Err(status) => Ok(status),
        },
    }
}
