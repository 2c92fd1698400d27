//! Sets of tokens, side by side in one list of words.

use std::alloc::Global;
use yexplain::reads::{Made, set};
use ysymbols::Sym;

/// The tokens of one word.
const BITS: usize = 64;

/// Sets of tokens, each known by the place where it begins.
#[derive(Drop)]
pub struct Sets {
    words: Vec<u64>,
    /// How many words a set has.
    pub width: usize,
}

/// What is taken of a set: those of its tokens that another one has too, where one is named.
#[derive(Clone, Copy, Drop)]
pub struct Source {
    /// The set.
    pub at: usize,
    /// The other one.
    pub mask: Option<usize>,
}

/// What is known: the tokens of a set, and of another one, where one is named.
#[derive(Clone, Copy, Drop)]
pub struct Known {
    /// The set.
    pub at: usize,
    /// The other one.
    pub other: Option<usize>,
}

impl Source {
    /// All of a set.
    pub fn all(at: usize) -> Source {
        Source { at, mask: None }
    }
}

impl Sets {
    /// No sets yet, of so many tokens.
    pub fn new(alloc: Global, tokens: usize) -> Sets {
        Sets {
            words: Vec::new(alloc),
            width: (tokens / BITS).saturating_add(1),
        }
    }

    /// A word of a set.
    fn word(&self, at: usize, index: usize) -> u64 {
        let place = at.saturating_add(index);
        self.words.get(place).copied().unwrap_or(0)
    }

    /// Whether a set has a token.
    pub fn has(&self, at: usize, token: Sym) -> bool {
        (self.word(at, token / BITS) >> (token % BITS)) & 1 == 1
    }

    /// Adds a token to a set.
    pub fn add(&mut self, at: usize, token: Sym) {
        let word = self.word(at, token / BITS) | (1u64 << (token % BITS));
        set(&mut self.words, at.saturating_add(token / BITS), word);
    }

    /// Makes an empty set.
    pub fn make(&mut self) -> Made<usize> {
        let at = self.words.len();
        for _ in 0..self.width {
            self.words.push(0)?;
        }
        Ok(at)
    }

    /// Makes a set of what is taken of another and isn't known; none for nothing.
    pub fn make_of(&mut self, source: Source, known: Known) -> Made<Option<usize>> {
        let (at, mut all) = (self.words.len(), 0);
        for index in 0..self.width {
            let mut word = self.word(source.at, index) & !self.word(known.at, index);
            if let Some(mask) = source.mask {
                word &= self.word(mask, index);
            }
            if let Some(other) = known.other {
                word &= !self.word(other, index);
            }
            all |= word;
            self.words.push(word)?;
        }
        if all == 0 {
            self.words.truncate(at);
            return Ok(None);
        }
        Ok(Some(at))
    }

    /// Adds a set to another.
    pub fn join(&mut self, at: usize, to: usize) {
        for index in 0..self.width {
            let word = self.word(at, index) | self.word(to, index);
            set(&mut self.words, to.saturating_add(index), word);
        }
    }

    /// Takes out of a set what another has, and says whether something is left.
    pub fn take_out(&mut self, at: usize, other: usize) -> bool {
        let mut all = 0;
        for index in 0..self.width {
            let word = self.word(at, index) & !self.word(other, index);
            set(&mut self.words, at.saturating_add(index), word);
            all |= word;
        }
        all != 0
    }
}
