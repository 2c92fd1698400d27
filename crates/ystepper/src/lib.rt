//! The stepper: sessions served between links, and all that `ystep` does except its exit.
#![tactic(auto)]

mod command;
mod ending;
pub mod fault;
mod line_buffer;
pub mod programs;
pub mod reply;
pub mod run;
pub mod stepper;
