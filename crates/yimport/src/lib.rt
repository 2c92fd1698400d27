//! A grammar file that `yacc` reads, made of one for bison or byacc, with what is changed.
#![tactic(auto)]

mod applied;
mod barren;
mod bodies;
mod declarations;
mod edits;
pub mod import;
pub mod left_out;
mod listings;
mod loners;
pub mod note;
pub mod numbers;
pub mod pieces;
pub mod refusal;
pub mod spelling;
pub mod symbols;
mod typed;
