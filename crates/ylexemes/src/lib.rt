//! The lexemes of grammar files and tokens files: bytes, literals, kept texts, percent words, and
//! what stands at the front of some bytes.
#![tactic(auto)]

pub mod bytes;
pub mod front;
pub mod kept;
pub mod kind;
pub mod literal;
pub mod part;
pub mod percent;
