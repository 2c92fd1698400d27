//! Texts as tokens: a SPEC says how the tokens of a grammar look, and a lexer cuts a text by it.
//!
//! `spec` reads the lines of a SPEC, `fault` has what is wrong with them, `spelled` the texts of
//! tokens that always look the same, `lexer` compiles expressions and cuts texts, and `sketch`
//! writes a SPEC for a grammar. `sample` makes a short text of an expression's tree, and `writer`
//! texts for lists of tokens, each tried with the lexer.
#![tactic(auto)]

pub mod fault;
pub mod lexer;
mod sample;
pub mod sketch;
pub mod spec;
pub mod spelled;
pub mod writer;
