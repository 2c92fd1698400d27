//! The machine of the definitions over tables: its words, steps forward and back with their past,
//! a parse in place, and one that keeps whole snapshots.
#![tactic(auto)]

mod journal;
mod kinds;
pub mod machine;
mod parts;
mod place;
mod rest;
mod reversible;
mod snapshot;
pub mod tables;
mod tree_view;
mod view;
mod walk;

pub use journal::Journal;
pub use parts::PlaceChange;
pub use place::PlaceParser;
pub use reversible::Reversible;
pub use snapshot::{SnapshotChange, SnapshotParser};
pub use tree_view::{TreeNode, TreeView};
pub use view::View;
