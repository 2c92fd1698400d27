//! What is sought in tables: shortest sentences, ways and ends; the conflicts of a grammar, and
//! lists of tokens that get to them, each tried in a session; how many steps all of that may take.
//!
//! `lists` has lists by number, `queue` what waits with its length, `budget` the steps of a run.
//! `shortest` has the shortest sentences of symbols, `moves` the shortest ways to states, and
//! `completion` the shortest ends of sentences over stacks. `trial` has a list in a session.
//! `groups` has the conflicts by their kinds, `search` the search for a list and how many steps a
//! run may take, `needs` what has to hold in a state, `others` further lists for one cell, and
//! `finding` the lists that pass.
#![tactic(auto)]

pub mod budget;
pub mod completion;
pub mod finding;
pub mod groups;
pub mod lists;
pub mod moves;
mod needs;
pub mod others;
pub mod queue;
pub mod search;
pub mod shortest;
pub mod trial;
