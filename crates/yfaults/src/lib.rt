//! Faults that help: what each code says, how to mend it, and the place that it is about.
#![tactic(auto)]

mod coming;
mod grammar_fault;
pub mod nearest;
pub mod opening;
mod words;
