//! A server for editors: the Language Server Protocol over a reader and a writer.
//!
//! `frame` reads messages and writes answers, `wire` has what stands in them, `members` makes their
//! objects, `document` is the text of a file with its lines and places, `index` where its symbols
//! stand. `places` answers where something stands, `outline` what a file has, `hover` what something
//! is, `complete` what could be written, `actions` both for the references of actions, `colours`
//! what lexemes are, `rename` and `mend` how a file is changed, with `copy` and `empty`, `checked`
//! what is wrong with it. `ahead` is what came after a request, `server` has the open files,
//! `capabilities` what it says of itself at first, `serve` the loop over messages.
#![tactic(auto)]

mod actions;
mod ahead;
mod capabilities;
mod checked;
mod colours;
mod complete;
mod copy;
mod document;
mod empty;
mod frame;
mod hover;
mod index;
mod members;
mod mend;
mod outline;
mod places;
mod rename;
pub mod serve;
mod server;
mod wire;
