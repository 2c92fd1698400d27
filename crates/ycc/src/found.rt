//! The option that a letter or a long name is.

use crate::options::{COUNT, Known, Whose, option_at};

/// The option of a letter in a call as bison, or in any other call.
pub fn option_of(letter: char, is_bison: bool) -> Option<Known> {
    for number in 0..COUNT {
        let Some(known) = option_at(number) else {
            break;
        };
        let is_there = match known.2 {
            Whose::All => true,
            Whose::Bison => is_bison,
            Whose::Byacc => !is_bison,
        };
        if known.0 == Some(letter) && is_there {
            return Some(known);
        }
    }
    None
}

/// What a long name is.
#[derive(Clone, Copy, Drop)]
pub enum Found {
    /// That of an option, or the beginning of names of one alone.
    One(Known),
    /// The beginning of several options' names.
    Several,
    /// That of none.
    None,
}

/// The option of a long name, or of the beginning of one.
pub fn option_named(name: &str) -> Found {
    let mut found = Found::None;
    for number in 0..COUNT {
        let Some(known) = option_at(number) else {
            break;
        };
        for it in known.1.split(' ') {
            if it == name {
                return Found::One(known);
            }
            if name.is_empty() || !it.starts_with(name) {
                continue;
            }
            found = match found {
                Found::None => Found::One(known),
                Found::One(other) if other.1 == known.1 => found,
                _ => Found::Several,
            };
        }
    }
    found
}
