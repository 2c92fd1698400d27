//! The text that tokens were read from.

use yfiles::place::Place;
use ysymbols::let_go;

/// A text from which tokens were read.
pub struct Text {
    /// Its path.
    pub path: String,
    /// Its bytes.
    pub bytes: Vec<u8>,
    /// How many of them stand before each token.
    pub places: Vec<usize>,
    /// How many of them stand before what follows each token.
    pub ends: Vec<usize>,
}

impl Drop for Text {
    // A call in each owner, which keeps their proofs short.
    fn drop(self) {
        let_go!(self: Text { path, bytes, places, ends });
    }
}

impl Text {
    /// How many bytes stand before a token, counted from 1; before what follows the last one for any
    /// other number.
    pub fn at(&self, number: usize) -> usize {
        match self.places.get(number.wrapping_sub(1)) {
            Some(at) => *at,
            None => self.ends.last().copied().unwrap_or(0),
        }
    }

    /// The bytes of a token, counted from 1; none for any other number.
    pub fn word(&self, number: usize) -> &[u8] {
        let index = number.wrapping_sub(1);
        let (Some(at), Some(end)) = (self.places.get(index), self.ends.get(index)) else {
            return &[];
        };
        self.bytes.get(*at..*end).unwrap_or(&[])
    }

    /// The place of a token, counted from 1; the end of the last one for any other number.
    pub fn place(&self, number: usize) -> Place<'_> {
        Place {
            path: &self.path,
            source: &self.bytes,
            at: self.at(number),
        }
    }
}
