//! How the arguments of a form are given.

use clap::{Arg, ArgAction};
use std::alloc::{AllocError, Global};

/// How an argument is given.
#[derive(Clone, Copy)]
pub enum Way {
    /// A file, by its place, which help calls so.
    File(&'static str),
    /// Files, by their places: one or more.
    Files,
    /// An option without a value.
    Flag,
    /// Such an option, and another name for it.
    Flagged(&'static str),
    /// An option with a value, which help calls so.
    Value(&'static str),
    /// Such an option, which is required.
    Wanted(&'static str),
    /// Such an option, and another name that it has had.
    Renamed(&'static str, &'static str),
    /// A name that an option has had, which may be given again; help doesn't show it.
    Old,
    /// A letter with a value, which help calls so.
    Letter(char, &'static str),
    /// A letter without a value.
    LetterFlag(char),
    /// A letter with a value, which may be given again.
    Letters(char, &'static str),
    /// An option that may have a value after an equals sign, and may be given again.
    Optional(&'static str),
}

/// An argument: its name, how it is given, and what help says of it.
pub type Argument = (&'static str, Way, &'static str);

/// An argument as clap has it.
pub fn argument<'a>(alloc: Global, (name, way, help): Argument) -> Result<Arg<'a>, AllocError> {
    let arg = Arg::new(alloc, name).action(ArgAction::Set).help(help);
    Ok(match way {
        Way::File(shown) => arg.required(true).value_name(shown),
        Way::Files => arg.required(true).num_args(1..),
        Way::Flag => arg.long(name).action(ArgAction::SetTrue),
        Way::Flagged(other) => arg.long(name).alias(other)?.action(ArgAction::SetTrue),
        Way::Value(shown) => arg.long(name).value_name(shown),
        Way::Wanted(shown) => arg.long(name).value_name(shown).required(true),
        Way::Renamed(shown, old) => arg.long(name).value_name(shown).alias(old)?,
        Way::Old => arg.long(name).action(ArgAction::Append).hide(true),
        Way::Letter(letter, shown) => arg.short(letter).value_name(shown),
        Way::LetterFlag(letter) => arg.short(letter).action(ArgAction::SetTrue),
        Way::Letters(letter, shown) => {
            let arg = arg.short(letter).value_name(shown);
            arg.action(ArgAction::Append)
        }
        Way::Optional(shown) => {
            let arg = arg.long(name).value_name(shown).action(ArgAction::Append);
            let arg = arg.num_args(0..=1).require_equals(true);
            arg.default_missing_value("")
        }
    })
}
