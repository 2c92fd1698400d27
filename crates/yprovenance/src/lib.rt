//! What could be done in a cell of tables, and why a token is a lookahead there.
//!
//! `candidates` gives what could be done in a cell, one candidate after another, `shift` its shift,
//! and `settled` what is done among candidates of one's own. No call of these takes memory.
//!
//! `reasons` gives the chain of items that gives a token to an item, from the first that has it to
//! the one that was asked for (Aho, Sethi, Ullman, section 4.7). A search goes back from the item
//! that was asked for, over the items that would give to it (`search`), and keeps each place that it
//! comes to once (`trail`). States that lead to a state are listed once for an automaton (`before`).
//! What stands after a left side is looked at symbol by symbol (`front`). `leads` finds the items of
//! a state that lead to a symbol by the closure.
//!
//! A call whose result is named `_well_formed`, `_guide` or `_states` is made only for its clause:
//! the grammar is well formed, or the states are right and a pair of functions agrees with the
//! automaton.
#![tactic(auto)]

mod before;
mod candidates;
mod climb;
mod front;
mod leads;
mod reason;
mod reasons;
mod search;
mod settled;
mod shift;
mod trail;

pub use candidates::{Candidate, candidate_at, next_rule, standing_in};
pub use leads::leading;
pub use reason::{Cause, Place, Reason};
pub use reasons::Reasons;
pub use settled::{Rival, settle};
pub use shift::shift_at;
