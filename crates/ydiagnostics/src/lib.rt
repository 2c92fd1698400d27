//! What `ydebug conflicts` and `ydebug check` say, for editors and other programs: lines as a C
//! compiler writes them, or one document in JSON.
//!
//! `format` has the forms, and `sheet` what is said of a place. `kinds` has the conflicts, `causes`
//! those that are alike, made in a `scene`, with what `sought` finds for them and with the `hints`
//! on them, `told` says them in words, and `common` has what many have in common. `inputs` has the
//! verdicts, `late` says where a parser with default reductions detects errors, and `document`
//! writes all of it, in JSON by the `events` that make it. `report` and `checking` are the runs,
//! and `begun` says what a report says in two steps, for a server.
#![tactic(auto)]

pub mod begun;
pub mod causes;
pub mod checking;
mod common;
mod document;
mod events;
pub mod format;
pub mod hints;
mod inputs;
mod kinds;
pub mod late;
pub mod mends;
pub mod report;
mod scene;
mod sheet;
mod sought;
mod told;
