//! What deserves a warning in a grammar file of byacc or bison, as values.
//!
//! `kinds` has the kinds of warnings, by bison's names, and which of them are shown; `finding` what
//! can be found. `bodies` cuts the bodies of a file. `declared` seeks in declarations, and
//! `deprecated` among their words; `values` and `expects` seek in bodies; `walk` has the states
//! that bison comes to, over which `useless` and `levels` seek.
#![tactic(auto)]

pub mod bodies;
pub mod declared;
mod deprecated;
pub mod expects;
pub mod finding;
pub mod kinds;
pub mod levels;
pub mod useless;
pub mod values;
pub mod walk;
