//! What is said of a place, as programs read it.

use crate::events::Events;
use std::alloc::Global;
use std::str;
use yexplain::reads::Made;
use yexplain::text::Escaped;
use yfiles::diagnostic::{Diagnostic, Diagnostics};
use yfiles::output::Output;
use yfiles::place::Spot;
use ysymbols::let_go;

/// What is said of a place.
pub struct DiagnosticSheet {
    /// The path of the file, where it is about one.
    file: Option<String>,
    /// The line.
    line: Option<usize>,
    /// The column.
    column: Option<usize>,
    /// `error`, `warning` or `note`.
    severity: &'static str,
    /// The category of a warning, where it has one.
    category: Option<&'static str>,
    /// What is said.
    message: String,
    /// What helps.
    notes: Vec<String>,
    /// The place of each note.
    spots: Vec<Option<Spot>>,
}

impl Drop for DiagnosticSheet {
    // A call in each owner, which keeps their proofs short.
    fn drop(self) {
        let_go!(self: DiagnosticSheet {
            file, line, column, severity, category, message, notes, spots
        });
    }
}

impl DiagnosticSheet {
    /// Adds it to a document.
    pub fn add_to(&self, events: &mut Events) {
        events.begin();
        events.text_if("file", &self.file);
        events.number_if("line", self.line);
        events.number_if("column", self.column);
        events.word("severity", self.severity);
        events.word_if("category", self.category);
        events.text("message", &self.message);
        events.texts("notes", &self.notes);
        events.end();
    }
}

/// The line and the column of a place, as far as they are known.
pub fn place_of(spot: Option<Spot>) -> (Option<usize>, Option<usize>) {
    match spot {
        Some(spot) => (Some(spot.line), spot.column),
        None => (None, None),
    }
}

/// The place at a line and a column, where the line is known.
pub fn spot_at(line: Option<usize>, column: Option<usize>) -> Option<Spot> {
    match line {
        Some(line) => Some(Spot { line, column }),
        None => None,
    }
}

/// A text; bytes that are no UTF-8 are shown as hexadecimal digits.
fn text_of(alloc: Global, bytes: &[u8]) -> Made<String> {
    match str::from_utf8(bytes) {
        Ok(text) => String::from_str(alloc, text),
        Err(_) => {
            let shown = Escaped(bytes);
            format!(in alloc; "{shown}")
        }
    }
}

impl DiagnosticSheet {
    /// Begins what is said with the code and with what the excerpt alone shows of the place.
    fn begin(&mut self, alloc: Global, one: &Diagnostic) -> Made<()> {
        if let Some(code) = one.code {
            self.message.push_str(code)?;
            self.message.push_str(": ")?;
        }
        if !one.subject.is_empty() {
            let subject = text_of(alloc, &one.subject)?;
            self.message.push_str(&subject)?;
            self.message.push_str(": ")?;
        }
        Ok(())
    }

    /// What is said. Of a message of several lines the first says what, and the others help.
    fn of(alloc: Global, one: &Diagnostic) -> Made<DiagnosticSheet> {
        let (line, column) = place_of(one.spot);
        let mut sheet = DiagnosticSheet {
            file: None,
            line,
            column,
            severity: one.severity.word(),
            category: match one.category {
                Some(category) => Some(category.name()),
                None => None,
            },
            message: String::new(alloc),
            notes: Vec::new(alloc),
            spots: Vec::new(alloc),
        };
        if let Some(path) = &one.file {
            sheet.file = Some(String::from_str(alloc, path)?);
        }
        sheet.begin(alloc, one)?;
        for (number, line) in one.message.split(|byte| *byte == b'\n').enumerate() {
            let text = text_of(alloc, line)?;
            if number == 0 {
                sheet.message.push_str(&text)?;
            } else {
                sheet.notes.push(text)?;
                sheet.spots.push(one.spot)?;
            }
        }
        for note in &one.notes {
            sheet.notes.push(text_of(alloc, &note.text)?)?;
            sheet.spots.push(note.spot.or(one.spot))?;
        }
        Ok(sheet)
    }

    /// Writes the file and a place of it, as the front of a line.
    fn put_front(&self, out: &mut Output, spot: Option<Spot>) {
        out.put(self.file.as_ref().map_or("ydebug", String::as_str));
        out.put(":");
        if let Some(spot) = spot {
            out.show(spot);
            out.put(":");
        }
        out.put(" ");
    }

    /// Writes it as gcc does, with the option that shows its category, and a line for each note.
    pub fn put(&self, out: &mut Output) {
        self.put_front(out, spot_at(self.line, self.column));
        out.put(self.severity);
        out.put(": ");
        out.put(&self.message);
        if let Some(name) = self.category {
            out.put(" [-W");
            out.put(name);
            out.put("]");
        }
        out.line("");
        for (number, note) in self.notes.iter().enumerate() {
            self.put_front(out, self.spots.get(number).copied().flatten());
            out.put("note: ");
            out.line(note);
        }
    }
}

/// All that is said.
pub fn sheets_of(alloc: Global, told: &Diagnostics) -> Made<Vec<DiagnosticSheet>> {
    let mut sheets = Vec::with_capacity(alloc, told.all.len())?;
    for one in &told.all {
        sheets.push(DiagnosticSheet::of(alloc, one)?)?;
    }
    Ok(sheets)
}
