//! The generator: the tables of a grammar file, its texts, and all that `yacc` does except its exit.
//! The words of both programs, and what both say of these and of a grammar file, stand here too.
#![tactic(auto)]

pub mod arguments;
pub mod generate;
pub mod generator;
pub mod message;
pub mod source;
