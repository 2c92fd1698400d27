//! The names that comments give to alternatives, as `/* name: add */` does.

use crate::comments::Comment;
use crate::refusal::{Refusal, Trouble, Why};
use std::alloc::Global;
use yskeleton::is_c_name;

/// A name that a comment gives to an alternative.
#[derive(Clone, Copy)]
pub struct Given<'a> {
    /// The alternative, as roles count these.
    pub alternative: usize,
    /// How many bytes of the file stand before the name.
    pub at: usize,
    /// The name.
    pub name: &'a [u8],
}

/// What stands after `name:` in a comment, with the signs that end it.
fn told_in(text: &[u8]) -> Option<&[u8]> {
    let text = text.strip_prefix(b"/*")?.trim_ascii_start();
    let text = text.strip_prefix(b"name")?.trim_ascii_start();
    Some(text.strip_prefix(b":")?.trim_ascii_start())
}

/// The names that comments give, in the order of their alternatives.
pub fn given_in<'a>(alloc: Global, comments: &[Comment<'a>]) -> Result<Vec<Given<'a>>, Trouble> {
    let mut names: Vec<Given<'a>> = Vec::new(alloc);
    let mut last = None;
    for comment in comments {
        let Some(told) = told_in(comment.text) else {
            continue;
        };
        let alternative = comment.alternative;
        let front = comment.text.len().saturating_sub(told.len());
        let at = comment.at.saturating_add(front);
        let name = told.strip_suffix(b"*/").unwrap_or(told).trim_ascii_end();
        if !is_c_name(name) {
            let why = Why::NoName;
            return Err(Trouble::Refused(Refusal { at, why }));
        }
        if last == Some(alternative) {
            let why = Why::Second;
            return Err(Trouble::Refused(Refusal { at, why }));
        }
        last = Some(alternative);
        names.push(Given {
            alternative,
            at,
            name,
        })?;
    }
    Ok(names)
}

/// The name that is given to an alternative, where one is.
pub fn given_to<'a>(names: &[Given<'a>], alternative: usize) -> Option<Given<'a>> {
    let place = names.binary_search_by_key(&alternative, |given| given.alternative);
    names.get(place.ok()?).copied()
}
