//! Text through a link. A link is a reader or a writer that says whether a call of it failed;
//! words, pieces, and lines by their numbers go through it. A writer through a buffer offers its
//! device nothing twice.
#![tactic(auto)]

pub mod buffered;
pub mod lines;
pub mod link;
pub mod pieces;
pub mod put;

pub use buffered::{Buffer, Buffered};
pub use link::Link;
