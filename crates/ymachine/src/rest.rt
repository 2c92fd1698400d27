//! The upcoming tokens of a parse: those inserted, and those first read that were not taken.

ghost use Rattle.std.specs.Prelude.{◌≡◌, ◌<◌, ◌≤◌, ◌^◌, length, slice_index_or};
ghost use Rattle.std.specs.Prelude.{IfOk, OnOk, vec_len, vec_capacity};
ghost use Rattle.ymachine.specs.Rest.{rest_in, rest_left, ahead, is_left, place_left};
ghost use Rattle.ymachine.specs.Rest.{without_first};
ghost use Rattle.ymachine.specs.Rest.{with_first_back};
ghost use Rattle.ymachine.specs.Rest.{with_insertion, without_insertion, first_rest};

use std::alloc::{AllocError, Global};
use ylalr::END;
use ysymbols::Sym;

/// The upcoming tokens of a parse.
#[derive(Drop)]
pub struct Remaining {
    /// The tokens inserted and not taken, the next one last.
    pub(crate) inserted: Vec<Sym>,
    /// How many of the tokens first read were taken.
    pub(crate) at: usize,
    /// How many insertions stand; there is room for as many tokens.
    pub(crate) edits: usize,
}

/// All tokens first read are upcoming.
pub(crate) fn first_rest(alloc: Global) -> Remaining
    ensures { rest_in result ≡ first_rest }
{
    Remaining {
        inserted: Vec::new(alloc),
        at: 0,
        edits: 0,
    }
}

/// A copy. It fails only when memory runs out.
pub(crate) fn copy_of(rest: &Remaining) -> Result<Remaining, AllocError>
    ensures { IfOk result (λ copy. rest_in copy ≡ rest_in rest.now) }
{
    Ok(Remaining {
        inserted: rest.inserted.clone()?,
        at: rest.at,
        edits: rest.edits,
    })
}

/// The token ahead, or the end.
pub(crate) fn token_ahead(tokens: &[Sym], rest: &Remaining) -> Sym
    ensures { result ≡ ahead tokens.now (rest_in rest.now) }
{
    let len = rest.inserted.len();
    if len == 0 {
        tokens.get(rest.at).copied().unwrap_or(END)
    } else {
        rest.inserted[len - 1]
    }
}

/// Whether there is an upcoming token.
pub(crate) fn is_left(tokens: &[Sym], rest: &Remaining) -> bool
    ensures { result ≡ is_left tokens.now (rest_in rest.now) }
{
    0 < rest.inserted.len() || rest.at < tokens.len()
}

/// How many upcoming tokens there are.
pub(crate) fn left_len(tokens: &[Sym], rest: &Remaining) -> usize
    ensures { result ≡ length (rest_left tokens.now (rest_in rest.now)) }
{
    rest.inserted.len() + tokens.len().saturating_sub(rest.at)
}

/// The upcoming token at this index, counted from 0, and its place.
pub(crate) fn left_at(tokens: &[Sym], rest: &Remaining, index: usize) -> (Sym, usize)
    requires { index < length (rest_left tokens.now (rest_in rest.now)) }
    ensures { result ≡ slice_index_or (rest_left tokens.now (rest_in rest.now)) index (0, 0) }
{
    let len = rest.inserted.len();
    if index < len {
        return (rest.inserted[len - 1 - index], 0);
    }
    let at = rest.at + (index - len);
    (tokens[at], at + 1)
}

/// The place of the first upcoming token, counted from 1; 0 for one that was inserted.
pub(crate) fn place_left(rest: &Remaining) -> usize
    requires { rest.now.at < 2 ^ 63 }
    ensures { result ≡ place_left (rest_in rest.now) }
{
    if rest.inserted.len() == 0 {
        rest.at + 1
    } else {
        0
    }
}

/// The first upcoming token is taken.
pub(crate) fn take(rest: &mut Remaining)
    requires { rest.old.at < 2 ^ 63 }
    ensures rest { rest_in rest.new ≡ without_first (rest_in rest.old) }
    ensures capacity { vec_capacity rest.old.inserted ≤ vec_capacity rest.new.inserted }
{
    if rest.inserted.len() == 0 {
        rest.at += 1;
        return;
    }
    rest.inserted.pop();
}

/// A token that was taken from this place comes back. It takes no memory.
pub(crate) fn give_back(rest: &mut Remaining, place: usize, token: Sym)
    requires { length (with_first_back place token (rest_in rest.old)).inserted
        ≤ vec_capacity rest.old.inserted }
    ensures rest { rest_in rest.new ≡ with_first_back place token (rest_in rest.old) }
    ensures capacity { vec_capacity rest.old.inserted ≤ vec_capacity rest.new.inserted }
{
    if place == 0 {
        rest.inserted.push(token).unwrap();
        return;
    }
    rest.at = rest.at.saturating_sub(1);
}

/// Makes room for one insertion more, and for all inserted tokens to come back.
pub(crate) fn make_room(rest: &mut Remaining) -> Result<(), AllocError>
    requires few { vec_len rest.old.inserted ≤ rest.old.edits }
    requires edits { rest.old.edits < 2 ^ 63 }
    ensures rest { rest_in rest.new ≡ rest_in rest.old }
    ensures capacity { vec_capacity rest.old.inserted ≤ vec_capacity rest.new.inserted }
    ensures room { OnOk result (rest.new.edits < vec_capacity rest.new.inserted) }
{
    rest.inserted.reserve(rest.edits + 1 - rest.inserted.len())
}

/// This token becomes the first upcoming one.
pub(crate) fn insert(rest: &mut Remaining, token: Sym)
    requires room { rest.old.edits < vec_capacity rest.old.inserted }
    requires few { vec_len rest.old.inserted ≤ rest.old.edits }
    ensures rest { rest_in rest.new ≡ with_insertion token (rest_in rest.old) }
    ensures capacity { vec_capacity rest.old.inserted ≤ vec_capacity rest.new.inserted }
{
    rest.inserted.push(token).unwrap();
    rest.edits += 1;
}

/// An insertion is undone.
pub(crate) fn uninsert(rest: &mut Remaining)
    ensures rest { rest_in rest.new ≡ without_insertion (rest_in rest.old) }
    ensures capacity { vec_capacity rest.old.inserted ≤ vec_capacity rest.new.inserted }
{
    rest.inserted.pop();
    rest.edits = rest.edits.saturating_sub(1);
}
