//! Grammar files opened: those of yacc, and those of bison or byacc, which are imported
//! (`ydebug import`), with what is said of them.
#![tactic(auto)]

mod cell_text;
pub mod compared;
pub mod import;
pub mod notes;
pub mod opening;
mod peer;
