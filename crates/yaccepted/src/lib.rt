//! Conflicts that are accepted: numbers of them that are expected, and lists of those that are
//! known.
//!
//! `comments` finds the numbers that a grammar file's comments expect, and `expected` compares
//! numbers with what is counted. `items` writes items so that no number of a state or a rule stands
//! in them, and `found` has the conflicts of tables as such texts. `list` reads a list of them,
//! `refusal` says what is wrong with one, and `written` writes one anew. `opening` opens a grammar
//! file with what it expects, and `judged` says whether all conflicts are accepted.
#![tactic(auto)]

mod comments;
pub mod conflict;
pub mod expected;
mod found;
mod items;
pub mod judged;
mod list;
pub mod opening;
mod refusal;
mod written;
