//! What is written of conflicts in short, and of lists of tokens: as texts for people, and as files.
//!
//! `kinds` has the conflicts in short, `list_text` a list of tokens that gets to one, and `saving`
//! keeps lists as files.
#![tactic(auto)]

pub mod kinds;
pub mod list_text;
pub mod saving;
