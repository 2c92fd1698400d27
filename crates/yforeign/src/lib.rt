//! Grammar files of bison and byacc: their lexemes with places and lines, these in groups, and
//! what the names and strings of a file are.
#![tactic(auto)]

pub mod directive;
pub mod groups;
pub mod lexeme;
pub mod lexer;
pub mod numbers;
pub mod quoted;
pub mod runs;
mod signs;
pub mod survey;
