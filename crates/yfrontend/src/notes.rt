//! What is said of an import.

use crate::compared::Counts;
use std::alloc::Global;
use std::io::{self, Write};
use yfiles::category::Category;
use yfiles::diagnostic::{Diagnostic, Diagnostics, Severity};
use yfiles::place::{Place, Spot};
use yforeign::lexeme::Span;
use yimport::import::Imported;
use yimport::note::{Effect, How, Reason};
use yimport::symbols::Expected;

/// The most bytes of the file that a line shows.
const MOST_SHOWN: usize = 40;

/// A grammar file: its path and its bytes.
#[derive(Clone, Copy)]
pub struct Source<'a> {
    /// The path.
    pub path: &'a str,
    /// The bytes.
    pub bytes: &'a [u8],
}

impl Source<'_> {
    /// Where a part begins.
    pub fn spot(self, span: Span) -> Spot {
        let Source {
            path,
            bytes: source,
        } = self;
        let at = span.from;
        Place { path, source, at }.spot()
    }
}

/// The bytes of a place as they are shown: those of its first line, and dots for more.
pub fn shown(source: &[u8], from: usize, to: usize) -> (&[u8], &'static str) {
    let text = source.get(from..to).unwrap_or(&[]);
    let line = text
        .iter()
        .position(|b| *b == b'\n' || *b == b'\r')
        .unwrap_or(text.len());
    let end = line.min(MOST_SHOWN);
    let dots = if end < text.len() { ".." } else { "" };
    (text.get(..end).unwrap_or(text), dots)
}

/// What is said of a place of a file: it begins with what stands there.
pub fn at_place(
    alloc: Global,
    path: &str,
    spot: Spot,
    (text, dots): (&[u8], &str),
) -> io::Result<Diagnostic> {
    let mut one = Diagnostic::new(alloc, Some(path), Some(spot))?;
    if !text.is_empty() {
        one.message.write_all(text)?;
        one.say(dots)?;
        one.say(": ")?;
    }
    Ok(one)
}

/// What is said of a part of a file, likewise.
pub fn at_span(alloc: Global, source: Source<'_>, span: Span) -> io::Result<Diagnostic> {
    let text = shown(source.bytes, span.from, span.to);
    at_place(alloc, source.path, source.spot(span), text)
}

/// Says how something is changed.
fn say_how(one: &mut Diagnostic, texts: &[u8], how: How) -> io::Result<()> {
    let words = match how {
        How::Out => "taken out",
        How::ToMark => "moved in front of the first %%",
        How::ToEnd => "moved to the end of its body",
        How::Becomes(from, to) => {
            let (text, dots) = shown(texts, from, to);
            one.say("becomes ")?;
            one.message.write_all(text)?;
            dots
        }
    };
    Ok(one.say(words)?)
}

/// Which changes are told.
#[derive(Clone, Copy, PartialEq, Eq)]
pub enum Telling {
    /// All of them.
    All,
    /// Those by which the language or a conflict can change.
    Weighty,
}

/// Tells the changes, and whether conflicts stay with them.
pub fn add_notes(
    alloc: Global,
    told: &mut Diagnostics,
    source: Source<'_>,
    imported: &Imported,
    telling: Telling,
    conflicts_stay: bool,
) -> io::Result<()> {
    for note in &imported.notes {
        let effect = note.reason.effect();
        if telling == Telling::All || !matches!(effect, Effect::None) {
            let mut one = at_span(alloc, source, note.span)?;
            one.severity = Severity::Warning;
            // as bison has it for what is changed
            one.category = Some(match note.reason {
                Reason::MadeName | Reason::MadeSign => Category::DanglingAlias,
                Reason::Barren => Category::Other,
                _ => Category::Yacc,
            });
            say_how(&mut one, &imported.texts, note.how)?;
            let (why, effect) = (note.reason.text(), effect.text(conflicts_stay));
            write!(one.message, "; {why}; {effect}")?;
            told.add(one)?;
        }
    }
    Ok(())
}

/// Tells where the conflicts that a file expects aren't those that bison would count.
pub fn add_expected(
    alloc: Global,
    told: &mut Diagnostics,
    source: Source<'_>,
    imported: &Imported,
    counts: Counts,
) -> io::Result<()> {
    let (shifts, reduces) = (imported.shift_reduce, imported.reduce_reduce);
    let (sr, rr) = (Category::ConflictsSr, Category::ConflictsRr);
    for (expected, word, kind, found, category) in [
        (shifts, "%expect", "shift/reduce", counts.shift_reduce, sr),
        (
            reduces,
            "%expect-rr",
            "reduce/reduce",
            counts.reduce_reduce,
            rr,
        ),
    ] {
        let Some(Expected { span, number }) = expected else {
            continue;
        };
        if number != found {
            let spot = Some(source.spot(span));
            let mut one = Diagnostic::new(alloc, Some(source.path), spot)?;
            one.severity = Severity::Warning;
            one.category = Some(category);
            write!(
                one.message,
                "{word} {number}: {kind} conflicts, as bison counts them: {found}"
            )?;
            told.add(one)?;
        }
    }
    Ok(())
}
