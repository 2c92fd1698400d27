//! The generator, the sessions of the stepper, and all that each program does except its exit. The
//! words of the programs stand here too.
#![tactic(auto)]

pub use ygenerate::{arguments, generate, generator, source};
pub use ystepper::{fault, programs, run, stepper};
