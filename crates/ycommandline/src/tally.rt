//! What tests come to.

use std::alloc::{AllocError, Global};
use std::io::{self, Write};
use yexplain::distinct::Distinct;
use yexplain::reads::{Made, set};
use yinput::language::Input;
use yinput::verdict::Verdict;
use ymessages::messaged::Messaged;
use ymessages::messages::Messages;
use ysentences::walk::{put_counts, walk_all};
use ytables::Tables;

/// The first line of a text.
fn first_line(text: &[u8]) -> &[u8] {
    let newline = text.iter().position(|b| *b == b'\n');
    text.get(..newline.unwrap_or(text.len())).unwrap_or(text)
}

/// Messages that no input met: their first lines, each once, with the parts that begin so.
#[derive(Drop)]
struct Unmet<'a> {
    lines: Distinct<&'a [u8]>,
    parts: Vec<Vec<usize>>,
}

impl<'a> Unmet<'a> {
    /// Each message was met.
    fn new(alloc: Global) -> Unmet<'a> {
        Unmet {
            lines: Distinct::new(alloc),
            parts: Vec::new(alloc),
        }
    }

    /// The message of a part, which begins with this line, was not met.
    fn add(&mut self, alloc: Global, part: usize, line: &'a [u8]) -> Made<()> {
        let (number, is_new) = self.lines.add(line)?;
        if is_new {
            self.parts.push(Vec::new(alloc))?;
        }
        if let Some(parts) = self.parts.get_mut(number) {
            parts.push(part)?;
        }
        Ok(())
    }

    /// Writes each line, and below it the first input of each part.
    fn put<W: Write>(&self, out: &mut W, messages: &Messages) -> io::Result<()> {
        for (number, line) in self.lines.all().iter().enumerate() {
            out.write_all(b"not met: ")?;
            out.write_all(line)?;
            out.write_all(b"\n")?;
            for part in self.parts.get(number).map_or(&[][..], Vec::as_slice) {
                out.write_all(b"    ")?;
                out.write_all(messages.input(*part).unwrap_or(b""))?;
                out.write_all(b"\n")?;
            }
        }
        Ok(())
    }
}

/// What tests come to, up to one of them.
#[derive(Drop)]
pub struct Tally {
    /// How many passed.
    pub passed: usize,
    /// How many failed.
    pub failed: usize,
    /// The greatest exit status of all.
    pub status: u8,
    /// Which messages an input met, by the numbers of their parts in the file.
    met: Vec<bool>,
    /// The inputs that are to be accepted.
    pub good: Vec<Input>,
}

impl Tally {
    /// Nothing was tested yet, with these messages.
    pub fn new(alloc: Global, told: &Messaged) -> Result<Tally, AllocError> {
        let parts = match &told.messages {
            Some(messages) => messages.len(),
            None => 0,
        };
        Ok(Tally {
            passed: 0,
            failed: 0,
            status: 0,
            met: vec![in alloc; false; parts]?,
            good: Vec::new(alloc),
        })
    }

    /// A test passed, or failed and has this exit status.
    pub fn count(&mut self, failed: Option<u8>) {
        match failed {
            None => self.passed = self.passed.saturating_add(1),
            Some(status) => {
                self.failed = self.failed.saturating_add(1);
                self.status = self.status.max(status);
            }
        }
    }

    /// An input has this verdict, so it meets the message of its state.
    pub fn meet(&mut self, told: &Messaged, verdict: &Verdict) {
        if let (Some(messages), Verdict::Rejected(rejection)) = (&told.messages, verdict) {
            if let Some(part) = messages.part_of(rejection.state) {
                set(&mut self.met, part, true);
            }
        }
    }

    /// Writes how many messages were met, where there are some, and what others say, with the first
    /// input of each that says it.
    pub fn put_messages<W: Write>(
        &self,
        alloc: Global,
        out: &mut W,
        told: &Messaged,
    ) -> io::Result<()> {
        let Some(messages) = &told.messages else {
            return Ok(());
        };
        let (mut all, mut met): (usize, usize) = (0, 0);
        let mut unmet = Unmet::new(alloc);
        for (part, is_met) in self.met.iter().enumerate() {
            let Some(message) = messages.message(part) else {
                continue;
            };
            all = all.saturating_add(1);
            if *is_met {
                met = met.saturating_add(1);
            } else {
                unmet.add(alloc, part, first_line(message))?;
            }
        }
        writeln!(out, "messages {met} of {all}")?;
        unmet.put(out, messages)
    }

    /// Writes what the inputs that are to be accepted use of tables, and how many tests passed.
    pub fn put_end<W: Write>(&self, alloc: Global, out: &mut W, tables: Tables) -> io::Result<()> {
        let walked = walk_all(alloc, tables, &self.good)?;
        put_counts(out, &walked.uses)?;
        let Tally { passed, failed, .. } = self;
        writeln!(out, "{passed} passed, {failed} failed")
    }
}
