//! What is done with what a run is given: what its words ask for.

use crate::asked::{Asked, SessionAsked, asked_in};
use crate::begin::run_init;
use crate::ending::{Ended, Refused};
use crate::forms::{Form, command_of, form_of};
use crate::given::Given;
use crate::near::{put_near_form, put_refused};
use crate::testing::run_test;
use clap::ArgMatches;
use clap::error::ErrorKind;
use std::alloc::{AllocError, Global};
use std::io::{self, Read, Write};
use std::rt::Files;
use ydebugger::{Beginning, debug};
use yfiles::breaking::Breaking;
use yfiles::diagnostic::Diagnostics;
use yfiles::reading::{LONGEST_INPUT, Limited};
use yfrontend::import::run_import;
use yhtml::page::run_page;
use yinput::source::Source;
use ymessages::run::run_errors;
use yrules::rules::run_rules;
use ysentences::run::run_sentences;

/// What the command line of a form makes of words. Help or the version that they ask for is written,
/// and what is wrong with them.
fn matches_by<'a, W: Write, E: Write>(
    alloc: Global,
    form: Form,
    words: &'a [&'a str],
    (out, errors): (&mut W, &mut E),
) -> Result<ArgMatches<'a>, Refused> {
    let command = command_of(alloc, form.name(), form)?;
    let error = match command.try_get_matches_from(words) {
        Ok(matches) => return Ok(matches),
        Err(error) => error,
    };
    let text = format!(in alloc; "{error}")?;
    match error.kind() {
        ErrorKind::DisplayHelp | ErrorKind::DisplayVersion => {}
        ErrorKind::OutOfMemory => return Err(Refused::Memory),
        _ if words.len() == 1 && matches!(form, Form::Debug) => return Err(Refused::Arguments),
        _ => {
            put_refused(errors, form, text.as_str())?;
            return Err(Refused::Said);
        }
    }
    match out.write_all(text.as_bytes()).and_then(|()| out.flush()) {
        Err(error) if error.kind() == io::ErrorKind::BrokenPipe => Err(Refused::Unread),
        _ => Err(Refused::Helped),
    }
}

/// The words of a form after the name of the program with it, for the help text.
fn named<'a>(alloc: Global, form: Form, words: &[&'a str]) -> Result<Vec<&'a str>, AllocError> {
    let mut named = Vec::with_capacity(alloc, words.len())?;
    named.push(form.name())?;
    named.extend_from_slice(words)?;
    Ok(named)
}

/// What a session begins with.
fn beginning_of<'x>(script: &'x [u8], journal: Option<&'x str>) -> Beginning<'x> {
    Beginning { script, journal }
}

impl<F: Files + AllocGlobal + Clone + Drop, R: Read + Drop, E: Write> Given<'_, F, R, E> {
    /// The commands of a script; none without one. Where it can't be read, that is said, and the
    /// exit status is the answer.
    fn script_of(&mut self, path: Option<&str>) -> io::Result<Result<Vec<u8>, u8>> {
        let (alloc, most) = (self.rt.alloc(), LONGEST_INPUT);
        let Some(path) = path else {
            return Ok(Ok(Vec::new(alloc)));
        };
        let mut told = Diagnostics::new(alloc);
        let read = Limited { path, most }.bytes_or_status(self.rt, false, &mut told)?;
        told.put(&mut self.errors, "ydebug")?;
        Ok(read)
    }

    /// A session.
    fn run_session<W: Write>(&mut self, asked: SessionAsked<'_>, out: &mut W) -> io::Result<u8> {
        let script = match self.script_of(asked.script)? {
            Ok(script) => script,
            Err(status) => return Ok(status),
        };
        let (rt, files, input) = (self.rt, asked.files, asked.input);
        let source = Source { rt, files, input };
        match source.open(&mut self.errors)? {
            Ok(parse) => {
                let beginning = beginning_of(&script, asked.journal);
                let (mut setting, reader) = (self.setting, &mut self.input);
                if !asked.stops {
                    setting.lines = None;
                }
                debug(&source, setting, parse, beginning, reader, out)?;
                Ok(0)
            }
            Err(status) => {
                // Why there is no session is said; memory may have run out, and a hint is no more.
                let _ = put_near_form(rt, &mut self.errors, files.grammar.path);
                Ok(status)
            }
        }
    }

    /// Does what is asked for, and gives the exit status.
    fn answer<W: Write>(&mut self, asked: Asked<'_>, out: &mut W) -> io::Result<u8> {
        let rt = self.rt;
        match asked {
            Asked::Session(asked) => self.run_session(asked, out),
            Asked::Conflicts(asked) => self.run_conflicts(&asked, out),
            Asked::Check(asked) => self.run_check(&asked, out),
            Asked::Errors(asked) => run_errors(rt, &asked, out, &mut self.errors),
            Asked::Sentences(asked) => run_sentences(rt, asked, out, &mut self.errors),
            Asked::Cover(asked) => self.run_cover(&asked, out),
            Asked::Test(asked) => run_test(rt, asked, out, &mut self.errors),
            Asked::Page(files, input, asked) => {
                let source = Source { rt, files, input };
                run_page(&source, asked, out, &mut self.errors)
            }
            Asked::Import(asked) => run_import(rt, asked, out, &mut self.errors),
            Asked::Tokens(files, input) => self.run_tokens(files, input, out),
            Asked::Sketch(file) => self.run_sketch(file, out),
            Asked::Rules(asked) => run_rules(rt, asked, out, &mut self.errors),
            Asked::Table(asked) => self.run_table(asked),
            Asked::Init(name) => run_init(rt, name, out, &mut self.errors),
        }
    }

    /// Does what the words of a form ask for.
    fn obey_form<W: Write>(&mut self, form: Form, words: &[&str], out: &mut W) -> Ended {
        let alloc = self.rt.alloc();
        let matches = matches_by(alloc, form, words, (out, &mut self.errors))?;
        let asked = asked_in(form, &matches)?;
        let columns = if asked.is_for_people() {
            self.setting.columns
        } else {
            None
        };
        let mut out = Breaking::new(alloc, out, columns);
        let status = self.answer(asked, &mut out)?;
        out.flush()?;
        Ok(status)
    }

    /// Does what words ask for, of which the first is the name of the program.
    pub fn obey<W: Write>(&mut self, words: &[&str], out: &mut W) -> Ended {
        let form = form_of(words.get(1));
        let first = if matches!(form, Form::Debug) { 1 } else { 2 };
        let given = words.get(first..).unwrap_or(&[]);
        let words = named(self.rt.alloc(), form, given)?;
        let obeyed = self.obey_form(form, &words, out);
        if let (Err(Refused::Said), Form::Debug, Some(first)) = (&obeyed, form, given.first()) {
            put_near_form(self.rt, &mut self.errors, first)?;
        }
        obeyed
    }
}
