//! Words for people: reads of grammars and tables by any number, where rules and symbols stand in
//! their file, what a cell could say, and why it says what it says.
#![tactic(auto)]

pub mod advice;
pub mod distinct;
mod hints;
pub mod lines;
pub mod mends;
mod question;
pub mod reads;
pub mod rivals;
pub mod sources;
pub mod supposed;
pub mod text;
pub mod why;
