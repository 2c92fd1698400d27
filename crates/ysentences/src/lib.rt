//! What inputs use of tables: the rules that are reduced, the states that come on top, and the
//! filled cells by which steps go. Few and short sentences that use every rule, state or filled
//! cell, lists of tokens that are near to them, and some that are drawn at random.
//!
//! `cells` numbers the filled cells, `uses` makes steps and keeps what they use, and `elements`
//! writes rules, states and cells for people. `walk` goes through whole parses, and writes what
//! they used and what none did.
//!
//! `contexts` has the shortest sentence with each rule, and `seek` the sentences that come to a
//! cell. `trial` tries each in a session and sees what its steps use, and `choice` keeps those that
//! use something new. `near` changes sentences, `draw` draws them, `sheet` writes them, and `run`
//! is the command.
#![tactic(auto)]

mod cells;
mod choice;
mod contexts;
mod draw;
pub mod elements;
mod near;
pub mod run;
mod seek;
mod sheet;
mod trial;
mod uses;
pub mod walk;
