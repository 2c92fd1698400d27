//! A grammar and its inputs, opened in one place: grammar files of yacc and of bison, tokens files,
//! and texts that a SPEC cuts; what is wrong with an input, and the verdict on one.
//!
//! `spelled` has what people call tokens. `grammars` opens grammar files, `spec` what cuts texts,
//! and `language` both; a language reads inputs. `text` has the text that tokens were cut from,
//! `fault` why there are none. `source` opens parses, and `parse` is one. `course` is a parse
//! by states alone, `expected` has the tokens that can come over these, `verdict` what comes of an
//! input, and `verdict_text` writes that for people and as plain lines. `reported` has all errors of an
//! input that the grammar recovers from, one after another.
#![tactic(auto)]

mod course;
pub mod expected;
pub mod fault;
pub mod grammars;
pub mod language;
mod parse;
pub mod reported;
pub mod source;
pub mod spec;
pub mod spelled;
pub mod text;
pub mod verdict;
pub mod verdict_text;

pub use parse::{Parse, session_of};
