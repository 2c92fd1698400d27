//! The forms of `ydebug`'s command line, over any files and streams: the program runs them over
//! those of the system, and the playground over files in memory.
//!
//! `given` has what a run is given, `run` does what its words ask for, and `ending` says how that
//! ends. `ways` says how an argument is given, and `forms` has those of each form; their values are
//! read by `values`, and `asked` says what they come to; `near` has what could be meant by others.
//! `check`, `conflicts`, `cover`, `tokens`, `sketch` and `table` are forms. `begin` is that which
//! makes the folder of a new language, whose texts are in `texts`, and those that are written in C
//! in `sources`. `testing` is that which runs the tests of a language: `inputs` lists the files of
//! their folder, `expected` reads what is expected of an input, `judging` says what came of one,
//! and `tally` counts what passed and which messages were met. The others have a crate each, or two
//! share one. What the forms are given is opened by `yinput`.
#![tactic(auto)]

mod asked;
mod begin;
mod check;
mod conflicts;
mod cover;
mod ending;
mod expected;
mod forms;
mod given;
mod inputs;
mod judging;
mod near;
mod run;
mod sketch;
mod sources;
mod table;
mod tally;
mod testing;
mod texts;
mod tokens;
mod values;
mod ways;

pub use crate::ending::{Ended, Refused, status_of};
pub use crate::given::Given;
pub use ydebugger::Setting;
