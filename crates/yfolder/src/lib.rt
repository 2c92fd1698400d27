//! A folder: files by their paths. A program's folder is the one of the file system; two texts in
//! memory are one of which all is known.
#![tactic(auto)]

pub mod disk;
pub mod folder;
pub mod texts;

pub use disk::Disk;
pub use folder::Folder;
pub use texts::{Text, Texts};
