//! All that is said, as lines or as one document.

use crate::causes::CauseSheet;
use crate::common::CommonSheet;
use crate::events::Events;
use crate::format::Format;
use crate::inputs::InputSheet;
use crate::kinds::KindSheet;
use crate::sheet::{DiagnosticSheet, sheets_of};
use std::alloc::Global;
use std::io::{self, Write};
use yfiles::diagnostic::Diagnostics;
use yfiles::output::Output;
use ysymbols::let_go;

/// The version of the document.
const VERSION: usize = 1;

/// The conflicts of a grammar.
pub struct ConflictSheet {
    /// How many there are of each sort.
    pub shift_reduce: usize,
    pub reduce_reduce: usize,
    /// How many cells have one.
    pub cells: usize,
    /// Whether all are accepted; none where nothing says which are.
    pub accepted: Option<bool>,
    /// The kinds.
    pub kinds: Vec<KindSheet>,
    /// How many cells belong to none of them.
    pub others: usize,
    /// The kinds of one state between the same rivals that are settled in one way.
    pub causes: Vec<CauseSheet>,
    /// What they have in common, where that was sought.
    pub common: Option<CommonSheet>,
}

impl Drop for ConflictSheet {
    // A call in each owner, which keeps their proofs short.
    fn drop(self) {
        let_go!(self: ConflictSheet {
            shift_reduce, reduce_reduce, cells, accepted, kinds, others, causes, common
        });
    }
}

impl ConflictSheet {
    /// Adds it to a document.
    fn add_to(&self, events: &mut Events) {
        events.begin();
        events.number("shift_reduce", self.shift_reduce);
        events.number("reduce_reduce", self.reduce_reduce);
        events.number("cells", self.cells);
        match self.accepted {
            Some(accepted) => events.flag("accepted", accepted),
            None => events.nothing("accepted"),
        }
        events.begin_list("kinds");
        for kind in &self.kinds {
            kind.add_to(events);
        }
        events.end_list();
        events.number("others", self.others);
        events.begin_list("causes");
        for cause in &self.causes {
            cause.add_to(events);
        }
        events.end_list();
        match &self.common {
            Some(common) => {
                events.key("common");
                common.add_to(events);
            }
            None => events.nothing("common"),
        }
        events.end();
    }
}

/// All that is said.
#[derive(Clone, Copy)]
pub struct Said<'a> {
    /// The form of the command line.
    pub form: &'static str,
    /// The path of the grammar file.
    pub grammar: &'a str,
    /// The exit status.
    pub status: u8,
    /// What is said of places.
    pub told: &'a Diagnostics,
    /// The conflicts, where they were asked for and the grammar is open.
    pub conflicts: Option<&'a ConflictSheet>,
    /// The verdicts, likewise.
    pub inputs: Option<&'a [InputSheet]>,
}

impl Said<'_> {
    /// All of it, as one document with what is said of places.
    fn events(self, alloc: Global, sheets: &[DiagnosticSheet]) -> Events {
        let mut events = Events::new(alloc);
        events.begin();
        events.number("version", VERSION);
        events.word("form", self.form);
        events.text("grammar", self.grammar);
        events.number("status", usize::from(self.status));
        events.begin_list("diagnostics");
        for sheet in sheets {
            sheet.add_to(&mut events);
        }
        events.end_list();
        match self.conflicts {
            Some(conflicts) => {
                events.key("conflicts");
                conflicts.add_to(&mut events);
            }
            None => events.nothing("conflicts"),
        }
        match self.inputs {
            Some(inputs) => {
                events.begin_list("inputs");
                for input in inputs {
                    input.add_to(&mut events);
                }
                events.end_list();
            }
            None => events.nothing("inputs"),
        }
        events.end();
        events
    }

    /// Writes it, and gives the exit status.
    pub fn put<W: Write>(self, alloc: Global, out: &mut W, format: Format) -> io::Result<u8> {
        let sheets = sheets_of(alloc, self.told)?;
        if format == Format::Json {
            let json = self.events(alloc, &sheets).bytes()?;
            out.write_all(&json)?;
            out.write_all(b"\n")?;
            return Ok(self.status);
        }
        let mut text = Output::new(alloc);
        for sheet in &sheets {
            sheet.put(&mut text);
            text.hand_on(out);
        }
        text.finish(out)?;
        Ok(self.status)
    }
}
