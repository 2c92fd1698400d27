//! What a text has of the file that became it, and where.

use std::alloc::Global;

/// A part of the file that the text has, too, or the first byte of what stands in place of one.
#[derive(Clone, Copy, Drop)]
pub struct Piece {
    /// How many bytes of the text stand before it.
    pub text: usize,
    /// How many bytes of the file do.
    pub file: usize,
    /// How many bytes it has.
    pub length: usize,
}

/// All parts, in the order of the text, which is that of the file; the last one is the end of both.
#[derive(Drop)]
pub struct Pieces {
    /// Each begins after the one before it.
    pub all: Vec<Piece>,
}

impl Pieces {
    /// None.
    pub fn new(alloc: Global) -> Pieces {
        Pieces {
            all: Vec::new(alloc),
        }
    }

    /// The place in the file of what stands at a place of the text; `None` where the file hasn't
    /// it, or has it elsewhere.
    pub fn original_place(&self, at: usize) -> Option<usize> {
        let next = match self.all.binary_search_by_key(&at, |piece| piece.text) {
            Ok(here) => here.saturating_add(1),
            Err(next) => next,
        };
        let piece = self.all.get(next.checked_sub(1)?)?;
        let past = at.saturating_sub(piece.text);
        (past < piece.length).then_some(piece.file.saturating_add(past))
    }
}
