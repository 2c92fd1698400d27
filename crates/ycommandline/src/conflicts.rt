//! `ydebug conflicts`: the report on conflicts, and whether they are accepted.

use crate::given::Given;
use crate::values::NO_FOLDER;
use std::alloc::Global;
use std::io::{self, Read, Write};
use std::rt::Files;
use yaccepted::expected::{Counts, numbers_in};
use yaccepted::judged::{self, Judged, Telling, judge};
use yaccepted::opening::{Counted, File, open_counted};
use ydiagnostics::format::{Format, NO_FORM, form_of};
use ydiagnostics::report::{self as machine, run_report};
use yfaults::opening::Opened;
use yfiles::category::Choice;
use yfiles::diagnostic::{Diagnostics, Severity};
use yfiles::same::refused_outputs;
use yinput::grammars::GrammarFile;
use ylists::saving::are_refused;
use yreports::report::{self, LIST_NAME, put_conflicts};

/// What is asked for: the conflicts of a grammar file, where to keep the lists, and which conflicts
/// are accepted.
#[derive(Clone, Copy)]
pub struct Asked<'a> {
    /// The grammar file.
    pub grammar: GrammarFile<'a>,
    /// Whether each conflict is explained whole.
    pub all: bool,
    /// The folder in which each list becomes a tokens file.
    pub save: Option<&'a str>,
    /// Whether a conflict that isn't accepted, or a warning, makes the status 1.
    pub strict: bool,
    /// Which conflicts and warnings are shown, and which make it 1.
    pub choice: Choice,
    /// How many conflicts are accepted: `N`, or `N,M`.
    pub expect: Option<&'a str>,
    /// The path of the list of accepted conflicts.
    pub accept: Option<&'a str>,
    /// Whether that is written anew.
    pub update: bool,
    /// The form of what is said; without it, it is for people.
    pub format: Option<&'a str>,
}

/// What is wrong with options.
pub fn wrong_in(asked: &Asked<'_>) -> Option<&'static str> {
    let Asked {
        save,
        expect,
        accept,
        update,
        format,
        ..
    } = *asked;
    if save == Some("") {
        Some(NO_FOLDER)
    } else if update && accept.is_none() {
        Some("--update wants --accept FILE")
    } else if expect.is_some() && counts_in(asked).is_none() {
        Some("--expect wants a number of conflicts, or two with a comma between")
    } else if form_of(format).is_none() {
        Some(NO_FORM)
    } else if save.is_some() && form_of(format) != Some(Format::Text) {
        Some("--save wants --format text")
    } else {
        None
    }
}

/// The numbers of conflicts that are accepted.
fn counts_in(asked: &Asked<'_>) -> Option<Counts> {
    numbers_in(asked.expect?)
}

/// Writes what a list of accepted conflicts comes to, where there is one, and on `errors` which
/// conflicts it hasn't, and which the grammar hasn't. It says whether one of these makes the status
/// 1.
fn put_listed<W: Write, E: Write>(
    alloc: Global,
    asked: &Asked<'_>,
    judged: &Judged,
    out: &mut W,
    errors: &mut E,
) -> io::Result<bool> {
    let (Some(listed), Some(path)) = (&judged.listed, asked.accept) else {
        return Ok(false);
    };
    listed.put(out, path)?;
    let mut told = Diagnostics::new(alloc);
    let telling = Telling {
        paths: (asked.grammar.path, path),
        severity: Severity::Error,
        is_whole: false,
    };
    listed.add_told(alloc, &mut told, telling)?;
    let mut told = told.only(alloc, asked.choice.shown)?;
    told.put(errors, "ydebug")?;
    Ok(told.judge_by(0, asked.choice))
}

/// Which conflicts are accepted.
fn accepted_by<'a>(asked: &Asked<'a>) -> judged::Asked<'a> {
    judged::Asked {
        grammar: asked.grammar.path,
        expect: counts_in(asked),
        accept: asked.accept,
        update: asked.update,
    }
}

impl<F: Files + AllocGlobal + Clone + Drop, R: Read, E: Write> Given<'_, F, R, E> {
    /// Writes the report, and gives the exit status.
    fn put_report<W: Write>(
        &mut self,
        asked: &Asked<'_>,
        opened: Opened,
        judged: &Judged,
        out: &mut W,
    ) -> io::Result<u8> {
        let rt = self.rt;
        let report = report::Asked {
            grammar: asked.grammar.path,
            save: asked.save,
            is_whole: asked.all || asked.save.is_some(),
            choice: asked.choice,
            is_open: judged.is_accepted().is_none(),
        };
        let status = put_conflicts(rt, out, &mut self.errors, report, opened)?;
        let is_new = put_listed(rt.alloc(), asked, judged, out, &mut self.errors)?;
        Ok(if is_new { status.max(1) } else { status })
    }

    /// Judges the conflicts of a grammar, after what was told of its files, writes the report, and
    /// gives the exit status.
    fn put_counted<W: Write>(
        &mut self,
        asked: &Asked<'_>,
        (counted, told): (Counted, Diagnostics),
        out: &mut W,
    ) -> io::Result<u8> {
        let mut told = told;
        let judged = judge(self.rt, accepted_by(asked), &counted, &mut told)?;
        let mut told = told.only(self.rt.alloc(), asked.choice.shown)?;
        told.put(&mut self.errors, "ydebug")?;
        let judged = match judged {
            Ok(judged) => judged,
            Err(status) => return Ok(status),
        };
        let by = match judged.expected {
            Some(false) => asked.choice,
            _ => asked.choice.without_conflicts(),
        };
        let is_surprised = told.judge_by(0, by);
        let Counted { opened, .. } = counted;
        let status = self.put_report(asked, opened, &judged, out)?;
        Ok(if is_surprised { status.max(1) } else { status })
    }

    /// Writes what is said of conflicts, and gives the exit status.
    fn put_by<W: Write>(
        &mut self,
        asked: &Asked<'_>,
        format: Format,
        out: &mut W,
    ) -> io::Result<u8> {
        let GrammarFile { path, dialect } = asked.grammar;
        let file = File {
            path,
            dialect,
            comments: asked.strict && asked.expect.is_none(),
        };
        if format == Format::Text {
            let mut told = Diagnostics::new(self.rt.alloc());
            return match open_counted(self.rt, file, &mut told)? {
                Ok(counted) => self.put_counted(asked, (counted, told), out),
                Err(status) => {
                    let told = told.only(self.rt.alloc(), asked.choice.shown)?;
                    told.put(&mut self.errors, "ydebug")?;
                    Ok(status)
                }
            };
        }
        let asked = machine::Asked {
            file,
            accepted: accepted_by(asked),
            choice: asked.choice,
            format,
        };
        run_report(self.rt, asked, out)
    }

    /// Whether what would be written is a file that is read: that is written on `errors`.
    fn is_refused(&mut self, asked: &Asked<'_>) -> io::Result<bool> {
        let grammar = asked.grammar.path;
        let output = if asked.update { asked.accept } else { None };
        if refused_outputs(self.rt, &[output], &[grammar], &mut self.errors)?.is_some() {
            return Ok(true);
        }
        let inputs = [grammar, asked.accept.unwrap_or(grammar)];
        match asked.save {
            Some(folder) => are_refused(self.rt, folder, LIST_NAME, &inputs, &mut self.errors),
            None => Ok(false),
        }
    }

    /// Writes what is asked for, and gives the exit status: 0; 1 where the grammar or the list of
    /// accepted conflicts is refused, or with `strict` a conflict isn't accepted or there is a
    /// warning; 2 where a file that is read would be written over; 3 where a file can't be read or
    /// written, memory runs out, or there are too many states.
    pub fn run_conflicts<W: Write>(&mut self, asked: &Asked<'_>, out: &mut W) -> io::Result<u8> {
        if self.is_refused(asked)? {
            return Ok(2);
        }
        let format = form_of(asked.format).unwrap_or(Format::Text);
        self.put_by(asked, format, out)
    }
}
