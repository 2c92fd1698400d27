//! The states in which an error can be detected, each with a shortest list of tokens whose last one
//! is detected there.
//!
//! `sets` has sets of tokens, `ways` what the tables say of the ways between states. `rows` says of
//! a state, of a nonterminal in a state and of a rest of a rule there which tokens can be ahead
//! after how many tokens, the fewest first; `search` and `spread` find all of that. `confirm` puts
//! a list into a session, and `errors` writes lists out and has those that pass.
#![tactic(auto)]

pub mod confirm;
pub mod errors;
mod rows;
mod search;
mod sets;
mod spread;
mod ways;
