//! Files of messages: blocks of wrong inputs, each with a message for the states in which their
//! errors are detected.
//!
//! `file` cuts a file into its parts, `inputs` reads a line as tokens or as a text, `claims` says
//! which state each input claims, and `messages` is a file whose inputs are read. `refusal` says
//! what is wrong with one. `slots` are the pieces of a message; `filling` writes one with what
//! stands for its `$0`, `$1` and `$expected`, and `data` all of them as data. `written` is an
//! input as a line, `sheet` what is written of a state, and `update` a whole file. `run` is
//! `ydebug errors`. `messaged` is a language with its messages, for who checks inputs.
#![tactic(auto)]

mod claims;
mod data;
mod file;
pub mod filling;
mod inputs;
pub mod messaged;
pub mod messages;
mod refusal;
pub mod run;
mod sheet;
pub mod slots;
mod update;
mod written;
