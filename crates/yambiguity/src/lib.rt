//! Whole sentences for the rivals of a conflict, and sentences with two trees: the grammar is
//! ambiguous. Each was checked to be derived by its rival.
//!
//! `stacks` has the stacks of parses that make any choice, `choice` a conflict's cell and rivals,
//! `scene` what parses do that come to it. `pairs` seeks two parses over the same symbols that come
//! to one stack, `alone` one parse until the conflict's token. `forks` parses a sentence in all
//! ways. `trees` has the trees that such parses make, `leaves` those of shortest sentences. `walker`
//! checks a tree by its rules alone, and `answer` makes all of it the answer for a conflict.
#![tactic(auto)]

pub mod alone;
pub mod answer;
pub mod choice;
pub mod forks;
pub mod leaves;
pub mod pairs;
pub mod scene;
pub mod stacks;
pub mod trees;
pub mod walker;
