//! Changes of a grammar's rules that settle conflicts, each tried, and what conflicts come from.
//!
//! `idioms` has forms of rules that are known to make conflicts (nonterminals with the same rules:
//! `alike`), `ahead` the second token of lookahead. `rewriting` changes rules, `changed_text` writes
//! a changed grammar as a text, and `changed` reads it anew and makes its tables. `language` has all
//! sentences of a few tokens, by which two grammars are compared, and `cover` those of the rules that
//! one of them lacks. `candidates` has the changes that may settle a conflict, `mending` tries them,
//! and `words` says what came of it.
#![tactic(auto)]

pub mod ahead;
mod alike;
mod candidates;
pub mod changed;
pub mod changed_text;
mod cover;
pub mod idioms;
pub mod language;
pub mod mending;
pub mod rewriting;
pub mod words;
