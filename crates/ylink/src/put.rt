//! Text through a link: all of it is sent, or only its beginning where the link failed.

ghost use Rattle.std.specs.Prelude.{List, ℕ, ◌++◌, is_some, flat_map};
ghost use Rattle.ylink.specs.Sends.{Sends};

use crate::link::Link;
use std::io::Write;

/// Writes the text. `None` where the link failed: then only a beginning of it was written.
pub fn put<W: Write>(link: &mut Link<W>, text: &[u8]) -> Option<()>
    ensures { Sends W.contents link.old link.new (is_some result) text.now }
{
    let mut at = 0;
    while at < text.len() {
        at += link.write(&text[at..])?;
    }
    Some(())
}

/// Writes the pieces, one after another. `None` where the link failed: then only a beginning of
/// them was written.
pub fn put_all<W: Write>(link: &mut Link<W>, pieces: &[&[u8]]) -> Option<()>
    ensures { Sends W.contents link.old link.new (is_some result) (flat_map
        (λ piece. piece.now) pieces.now) }
{
    for piece in pieces {
        put(link, piece)?;
    }
    Some(())
}
