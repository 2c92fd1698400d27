//! Rows of bits, lists and marks; rows packed over one list of cells; and rows that give what they
//! have along links, until none grows.
#![tactic(auto)]

pub mod links;
pub mod list;
pub mod marks;
pub mod order;
pub mod packed;
pub mod rows;
mod slots;
pub mod spread;
pub mod waiting;
