//! A configuration as callers see it.

ghost use Rattle.std.specs.Prelude.{◌≡◌, ◌<◌, ◌^◌, length, slice_index, slice_index_or};
ghost use Rattle.ymachine.specs.Content.{configuration_in};
ghost use Rattle.ymachine.specs.Machine.{symbols};
ghost use Rattle.ymachine.specs.Parts.{content_of};
ghost use Rattle.ymachine.specs.View.{configuration_by};

use crate::machine::Mode;
use crate::parts::Parts;
use crate::rest::{left_at, left_len};
use ysymbols::Sym;

/// A configuration: its stack, the upcoming tokens, the recovery counter, the errors reported, and
/// the mode.
#[derive(Clone, Copy)]
pub struct View<'a> {
    parts: &'a Parts,
    tokens: &'a [Sym],
}

impl<'a> View<'a> {
    #[tactic(auto, unfolding(crate::specs::View::configuration_by))]
    pub(crate) fn new(parts: &'a Parts, tokens: &'a [Sym]) -> Self
        ensures { configuration_by result
            ≡ configuration_in tokens.entry.now (content_of parts.entry.now) }
    {
        View { parts, tokens }
    }

    /// How many symbols the stack has.
    #[tactic(auto, unfolding(crate::specs::View::configuration_by))]
    pub fn stack_len(&self) -> usize
        ensures value { result ≡ length (configuration_by self.now).stack }
        ensures few { result < 2 ^ 63 }
    {
        self.parts.stack.len()
    }

    /// The symbol of the stack at this index, counted from 0 at the bottom.
    #[tactic(auto, unfolding(crate::specs::View::configuration_by))]
    pub fn stack(&self, index: usize) -> Sym
        requires { index < length (configuration_by self.now).stack }
        ensures { result ≡ slice_index (symbols (configuration_by self.now).stack) index }
    {
        self.parts.stack[index].symbol
    }

    /// How many upcoming tokens there are.
    #[tactic(auto, unfolding(crate::specs::View::configuration_by))]
    pub fn rest_len(&self) -> usize
        ensures { result ≡ length (configuration_by self.now).rest }
    {
        left_len(self.tokens, &self.parts.rest)
    }

    /// The upcoming token at this index, counted from 0, and its place among the tokens first
    /// read, counted from 1; 0 for one that was inserted.
    #[tactic(auto, unfolding(crate::specs::View::configuration_by))]
    pub fn rest(&self, index: usize) -> (Sym, usize)
        requires { index < length (configuration_by self.now).rest }
        ensures { result ≡ slice_index_or (configuration_by self.now).rest index (0, 0) }
    {
        left_at(self.tokens, &self.parts.rest, index)
    }

    /// The recovery counter, 0 to 3.
    #[tactic(auto, unfolding(crate::specs::View::configuration_by))]
    pub fn counter(&self) -> usize
        ensures { result ≡ (configuration_by self.now).counter }
    {
        self.parts.counter
    }

    /// How many errors were reported.
    #[tactic(auto, unfolding(crate::specs::View::configuration_by))]
    pub fn errors(&self) -> usize
        ensures { result ≡ (configuration_by self.now).errors }
    {
        self.parts.errors
    }

    /// What the parse is doing.
    #[tactic(auto, unfolding(crate::specs::View::configuration_by))]
    pub fn mode(&self) -> Mode
        ensures { result ≡ (configuration_by self.now).mode }
    {
        self.parts.mode
    }
}
