//! The tables of an automaton: cells, their conflicts, and the report and the table as texts.
//!
//! A call whose result is named `_well_formed` or `_guide` is made only for its clause: the
//! grammar is well formed, or the states are right and a pair of functions agrees with the
//! automaton.
#![tactic(auto)]

mod cell;
mod class;
mod dots;
mod fault;
mod gotos;
mod report;
mod row;
mod table;
mod tables;
mod tallies;

pub use cell::{Action, Cell, Conflict, Tally};
pub use class::{Class, Standing, standing_between};
pub use dots::{is_ready, next_symbol};
pub use fault::TableFault;
pub use tables::{Counts, Tables, resolve};
pub use tallies::level_of;
pub use ylink::Link;
