//! Files that a person names: read up to a limit, and written so that none is left cut off; and
//! what is said of them.
//!
//! `place` counts lines and columns, and shows the text of a place. `category` has the names of
//! warnings, and `diagnostic` what is said, as values, and writes it for people. `reading` reads
//! files and says which are too long, `same` tells whether an output is an input or another output.
//! `output` has a text in memory, which remembers its first fault, so that no writer asks after a
//! piece; `writing` writes a text beside its file and renames it when it is complete. `steady` has a
//! writer whose failure doesn't end the work, `breaking` one that breaks lines at words, and
//! `arguments` the arguments of a program.
#![tactic(auto)]

pub mod arguments;
pub mod breaking;
pub mod category;
pub mod diagnostic;
pub mod output;
pub mod place;
pub mod reading;
pub mod same;
pub mod steady;
pub mod writing;
