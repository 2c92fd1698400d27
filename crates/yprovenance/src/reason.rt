//! What gives a token to an item as a lookahead.

use ylalr::Item;

/// An item in a state.
#[derive(Clone, Copy, Debug, Drop, PartialEq, Eq)]
pub struct Place {
    /// The number of the state.
    pub state: usize,
    /// The item.
    pub item: Item,
}

/// Why an item in a state has a token as a lookahead.
#[derive(Clone, Copy, Debug, Drop, PartialEq, Eq)]
pub enum Cause {
    /// It is the item before the whole input, and the token is the end of the input.
    Starts,
    /// This item of the same state has the left side after its dot, and what stands after that can
    /// begin with the token.
    Begins(Item),
    /// The item before it in the chain has the left side after its dot, in the same state, and what
    /// stands after that is nullable: so it gives what comes after itself.
    Passes,
    /// The item before it in the chain is the same with its dot one symbol earlier, in a state whose
    /// goto over this symbol is the state of this one.
    Moves,
}

/// A part of a chain: an item in a state, and why it has the token.
#[derive(Clone, Copy, Debug, Drop, PartialEq, Eq)]
pub struct Reason {
    /// The item and its state.
    pub place: Place,
    /// Why it has the token.
    pub cause: Cause,
}
