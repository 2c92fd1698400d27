//! What is wrong with a file, and what deserves a look, as an editor shows it.

use crate::document::{Document, Fault};
use crate::members::Members;
use serde_json::Value;
use std::alloc::{AllocError, Global};
use std::rt::Files;
use std::{io, str};
use ydiagnostics::begun::begun_of;
use yexplain::text::Escaped;
use yfaults::opening::Opened;
use yfiles::category::Category;
use yfiles::diagnostic::{Diagnostic, Diagnostics, Severity};
use yfiles::place::Spot;
use yforeign::lexeme::Kind;

/// A text; bytes that are no UTF-8 are shown as hexadecimal digits.
fn text_of(alloc: Global, bytes: &[u8]) -> Result<String, AllocError> {
    match str::from_utf8(bytes) {
        Ok(text) => String::from_str(alloc, text),
        Err(_) => {
            let shown = Escaped(bytes);
            format!(in alloc; "{shown}")
        }
    }
}

/// The number of how bad something is.
fn severity_of(severity: Severity) -> usize {
    match severity {
        Severity::Error => 1,
        Severity::Warning => 2,
        Severity::Note => 3,
    }
}

/// The code of what is said, where it has one, with the page of codes, and how it is shown.
fn with_code(alloc: Global, one: &Diagnostic, page: Option<&str>) -> Result<Members, AllocError> {
    let mut tags = Vec::new(alloc);
    if matches!(one.category, Some(Category::Other | Category::Precedence)) {
        tags.push(Value::from(1usize))?;
    }
    let told = Members::new(alloc).with("tags", Ok(Value::Array(tags)));
    Ok(match (one.code, one.category) {
        (Some(code), _) => {
            let told = told.with_text("code", code);
            match page {
                Some(page) => {
                    let href = Members::new(alloc).with_text("href", page);
                    told.with("codeDescription", href.done())
                }
                None => told,
            }
        }
        (None, Some(category)) => told.with_text("code", category.name()),
        (None, None) => told,
    })
}

impl Document {
    /// The part of the file that stands at a place: the lexeme that begins there, the byte there, or
    /// the whole line, where there is no column.
    fn part_at(&self, spot: Option<Spot>) -> (usize, usize) {
        let Some(Spot { line, column }) = spot else {
            return (0, 0);
        };
        let (start, end) = self.line(line.saturating_sub(1));
        let Some(column) = column else {
            return (start, end);
        };
        let from = start.saturating_add(column.saturating_sub(1)).min(end);
        // an action without an end is shown where it begins
        for lexeme in &self.index.lexemes {
            let is_open = lexeme.kind == Kind::Braced && lexeme.span.to == self.text.len();
            if lexeme.span.from == from && !is_open {
                return (from, lexeme.span.to);
            }
        }
        (from, from.saturating_add(1).min(end))
    }

    /// What stands at other places, for one thing that is said.
    fn related(&self, alloc: Global, one: &Diagnostic) -> Result<Value, AllocError> {
        let mut related = Vec::new(alloc);
        for note in &one.notes {
            if note.spot.is_some() {
                let (from, to) = self.part_at(note.spot);
                let message = Value::from(text_of(alloc, &note.text)?);
                let place = Members::new(alloc)
                    .with("message", Ok(message))
                    .with("location", self.location(alloc, from, to));
                related.push(place.done()?)?;
            }
        }
        Ok(Value::Array(related))
    }

    /// What is said, with what helps.
    fn message(&self, alloc: Global, one: &Diagnostic) -> Result<String, AllocError> {
        let mut message = String::new(alloc);
        if !one.subject.is_empty() {
            message.push_str(&text_of(alloc, &one.subject)?)?;
            message.push_str(": ")?;
        }
        message.push_str(&text_of(alloc, &one.message)?)?;
        for note in &one.notes {
            if note.spot.is_none() {
                message.push_str("\n")?;
                message.push_str(&text_of(alloc, &note.text)?)?;
            }
        }
        Ok(message)
    }

    /// One thing that is said of the file.
    fn told(&self, alloc: Global, one: &Diagnostic) -> Result<Value, AllocError> {
        let (from, to) = self.part_at(one.spot);
        let page = match &self.page {
            Some(page) => Some(page.as_str()),
            None => None,
        };
        let message = self.message(alloc, one)?;
        with_code(alloc, one, page)?
            .with("message", Ok(Value::from(message)))
            .with("range", self.range(alloc, from, to))
            .with("severity", Ok(Value::from(severity_of(one.severity))))
            .with("relatedInformation", self.related(alloc, one))
            .with_text("source", "ydebug")
            .done()
    }

    /// All that is said of the file, and its faults.
    fn said(
        &self,
        alloc: Global,
        told: &Diagnostics,
    ) -> Result<(Vec<Value>, Vec<Fault>), AllocError> {
        let (mut all, mut faults) = (Vec::new(alloc), Vec::new(alloc));
        for one in &told.all {
            all.push(self.told(alloc, one)?)?;
            if let Some(code) = one.code {
                let ((from, to), text) = (self.part_at(one.spot), self.message(alloc, one)?);
                let text = format!(in alloc; "{code} {text}\n")?;
                faults.push(Fault { text, from, to })?;
            }
        }
        Ok((all, faults))
    }

    /// Keeps the tables of a text that was read, where it had some.
    fn keep(&mut self) {
        if let Some(begun) = self.begun.take() {
            let opened = begun.into_opened();
            if opened.is_some() {
                self.opened = opened;
            }
        }
    }

    /// Reads the file, and gives what is said of it; of one with conflicts only where these stand,
    /// until they are explained.
    pub fn begin<F: Files + AllocGlobal>(&mut self, rt: &F) -> io::Result<Value> {
        let alloc = rt.alloc();
        self.keep();
        self.is_new = false;
        let bytes = Vec::from_slice(alloc, &self.text)?;
        let begun = begun_of(rt, &self.uri, bytes)?;
        let brief = begun.brief(alloc, &self.uri)?;
        self.begun = Some(begun);
        if brief.all.is_empty() {
            return self.explain(alloc);
        }
        self.choices = Vec::new(alloc);
        let (all, faults) = self.said(alloc, &brief)?;
        self.faults = faults;
        Ok(Value::Array(all))
    }

    /// What is said of the file that was read, which `ydebug conflicts` says of the same bytes. Its
    /// tables are kept, where it has some.
    pub fn explain(&mut self, alloc: Global) -> io::Result<Value> {
        let Some(begun) = self.begun.take() else {
            return Ok(Value::Array(Vec::new(alloc)));
        };
        let mut told = begun.explained(alloc, &self.uri)?;
        let (all, faults) = self.said(alloc, &told.told)?;
        self.faults = faults;
        self.choices = match &told.conflicts {
            Some(conflicts) => self.choices_of(alloc, &conflicts.causes)?,
            None => Vec::new(alloc),
        };
        let opened = told.opened.take();
        if opened.is_some() {
            self.opened = opened;
        }
        Ok(Value::Array(all))
    }

    /// The tables of the last text that had some.
    pub fn tables(&self) -> Option<&Opened> {
        let begun = match &self.begun {
            Some(begun) => begun.opened(),
            None => None,
        };
        begun.or(self.opened.as_ref())
    }
}
