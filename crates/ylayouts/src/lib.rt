//! What bison shows of a grammar beside its parser, laid out as bison lays it out:
//! counterexamples for its conflicts, its automaton as a graph, and the report on it.
//!
//! `manner` says how symbols are written. `items` has what is drawn of a derivation, `drawing`
//! draws it, and `examples` tells an example for each conflict. `layout` has the numbers of states
//! and rules and what states do; `graph` draws them. A report is written to a `sheet`, which is a
//! text or a page; `spare` has what no sentence needs, `rules` the part of a report on rules and
//! symbols, `states` the part on states, and `report` all of it.
#![tactic(auto)]

mod drawing;
pub mod examples;
pub mod graph;
mod items;
pub mod layout;
pub mod manner;
pub mod report;
mod rules;
mod sheet;
pub mod spare;
mod states;
