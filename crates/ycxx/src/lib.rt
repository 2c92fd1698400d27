//! The texts of a parser in C++: a class with bison's names, its header, and the file of its
//! places. They read the same arrays as a parser in C, and share with it what `yskeleton` has: the
//! tables, the actions, and which tokens could come where an error is.
//!
//! `front`, `class`, `values`, `errors`, `machine` and `places` have the fixed texts; `cxx` says
//! what a parser is made of and how such texts are written, `values` writes what is done with
//! values of several types, `kinds` the kinds of symbols and how tokens are made, `params` the
//! parameters, `file` the class and the header, and `parser` all.
#![tactic(auto)]

mod class;
mod cxx;
mod errors;
mod file;
mod front;
mod kinds;
mod machine;
mod params;
mod parser;
mod places;
mod values;

pub use cxx::Cxx;
