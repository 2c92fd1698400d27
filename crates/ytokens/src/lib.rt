//! Tokens files: words between blanks, and the tokens that they name.
#![tactic(auto)]

pub mod token_words;
pub mod tokens;

pub use tokens::{TokenFault, Tokens, read_tokens};
