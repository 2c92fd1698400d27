//! The arrays of a C parser, by tables. No call prints anything: what is made here are numbers.
//!
//! A call whose result is named `_well_formed` or `_guide` is made only for its clause: the
//! grammar is well formed, or the states are right and a pair of functions agrees with the
//! automaton.
#![tactic(auto)]

mod cells;
mod code;
mod comb;
mod entry;
mod finder;
mod layout;
mod lists;
mod numbers;
mod packing;
mod policy;
mod rules;
mod sets;
mod sizes;
mod slots;
mod symbols;
mod targets;
mod translate;
mod usual;

pub use code::{Code, code_of};
pub use comb::Comb;
pub use numbers::Numbers;
pub use policy::Policy;
