//! The syntax of grammar files: a file cut into lexemes up to its first fault, its tree, and its
//! source map: where each of its lexemes stands, and what it is there for.
#![tactic(auto)]

pub mod fault;
pub mod lexer;
pub mod map;
pub mod recogniser;
pub mod role;
mod roles;
pub mod tree;
pub mod tree_builder;

pub use map::{Mark, map_of};
pub use role::Role;
