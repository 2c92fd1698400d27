//! Grammar files opened.

use std::alloc::Global;
use yexplain::lines::{Lines, Spots, spots_of};
use yexplain::reads::Made;
use yfaults::opening::{Opened, Trouble};
use ygrammar::{Grammar, Mapped, Mark, read_mapped};
use yimport::pieces::Pieces;
use ylalr::build;
use ytables::resolve;

/// The file of which a text was made: its bytes, and what the text has of it.
#[derive(Clone, Copy)]
pub struct Origin<'a> {
    /// The bytes.
    pub bytes: &'a [u8],
    /// What the text has of them.
    pub pieces: &'a Pieces,
}

/// Where the rules and symbols of a text stand in the file that a person has: that of which it was
/// made, or the text itself. Where the file has no column for a lexeme, it has none.
fn lines_of(
    alloc: Global,
    source: &[u8],
    origin: Option<Origin<'_>>,
    marks: &[Mark<'_>],
    grammar: &Grammar,
) -> Made<Lines> {
    let mut spots = spots_of(alloc, source, marks)?;
    if let Some(origin) = origin {
        let mut counted = Spots::new(origin.bytes);
        for (place, spot) in spots.iter_mut().enumerate() {
            let at = match marks.get(place) {
                Some(mark) => origin.pieces.original_place(mark.placed.at),
                None => None,
            };
            spot.column = match at {
                Some(at) => Some(counted.reach(at).1),
                None => None,
            };
        }
    }
    Lines::new(alloc, marks, &spots, grammar)
}

/// The tables of the grammar that the bytes mean, and where things stand in them, or in the file of
/// which they were made.
pub fn open_bytes<'a>(
    alloc: Global,
    source: &'a [u8],
    origin: Option<Origin<'a>>,
) -> Result<Opened, Trouble<'a>> {
    let Mapped {
        grammar,
        marks,
        barren,
    } = match read_mapped(alloc, source) {
        Ok(mapped) => mapped,
        Err(placed) => return Err(Trouble::of_text(alloc, placed)),
    };
    let grammar = match grammar {
        Ok(grammar) => grammar,
        Err(placed) => return Err(Trouble::of_fault(placed, marks, barren)),
    };
    let Ok(lines) = lines_of(alloc, source, origin, &marks, &grammar) else {
        return Err(Trouble::Memory);
    };
    let automaton = build(alloc, grammar)?;
    match resolve(alloc, automaton) {
        Ok(tables) => Ok(Opened { tables, lines }),
        Err(_) => Err(Trouble::Memory),
    }
}
