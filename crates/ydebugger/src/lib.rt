//! The debugger: command lines in, what a person wants to see of a parse out.
//!
//! `lines` reads a line, `words` finds a word in a table by a beginning of it and suggests another,
//! `verb` has the commands, `help` their help, `condition` is what a run stops at, `travel` has
//! moves, `breaks` the conditions that are kept, and `refusal` says why a line isn't followed.
//! `moves` and `edits` change a parse, `views`, `text`, `history` and `explain` show it, `saving` has
//! its input with the edits, `reload` makes it anew from its files, `journal` from the commands that
//! led there, `screen` stops at the end of a screen, and `desk` is the loop over command lines. What
//! is done to a parse goes through the calls of `Session` alone.
#![tactic(auto)]

mod breaks;
mod condition;
mod desk;
mod edits;
mod explain;
mod help;
mod history;
mod journal;
mod lines;
mod moves;
mod refusal;
mod reload;
mod saving;
mod screen;
mod text;
mod travel;
mod verb;
mod views;
pub mod words;

pub use desk::{Beginning, Setting, debug};
