//! Names for the rules of a grammar, for programs that parse by its table.
//!
//! `comments` finds the comments among the rules of an open file, `given` the names that they give,
//! `stems` has what each alternative is called, `names` the names of all rules, and `refusal` why
//! there are none. `list`, `header` and `module` write a `sheet` of all of it, and `rules` is the
//! command.
#![tactic(auto)]

mod comments;
mod given;
mod header;
mod list;
mod module;
mod names;
mod refusal;
pub mod rules;
mod sheet;
mod stems;
