//! What a person is shown of a grammar, its tables and a parse by them.
//!
//! `page` is where text goes, with the column that it has come to, and `reading` asks a parse for
//! what stands there and answers for any number. `digest` is the number by which a table is known.
//! The other rooms write one view each.
#![tactic(auto)]

pub mod derivation;
pub mod digest;
pub mod grammar_view;
pub mod page;
pub mod place_view;
pub mod reading;
pub mod state_view;
pub mod step_line;
pub mod symbol_view;
pub mod tree_text;

pub use page::{Page, Paint};
