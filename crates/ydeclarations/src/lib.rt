//! What the declarations of a grammar file say: what stands in the file, list by list, and the
//! precedences and numbers that the listings give to its tokens.
#![tactic(auto)]

pub mod given;
pub mod identifiers;
pub mod mistake;
pub mod outline;
