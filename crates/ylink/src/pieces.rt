//! Texts in pieces: words and numbers, one after another.

ghost use Rattle.std.specs.Prelude.{is_some, flat_map};
ghost use Rattle.ylink.specs.Pieces.{text_of};
ghost use Rattle.ylink.specs.Sends.{Sends};

use crate::link::Link;
use crate::put::put;
use std::io::Write;

/// A piece of a text: words as they are, or a number in decimal digits.
#[derive(Clone, Copy, Debug)]
pub enum Piece<'a> {
    Words(&'a [u8]),
    Number(usize),
}

/// The end of a line.
pub const END: Piece<'static> = Piece::Words(b"\n");

fn put_piece<W: Write>(link: &mut Link<W>, piece: &Piece) -> Option<()>
    ensures { Sends W.contents link.old link.new (is_some result) (text_of piece.now) }
{
    match *piece {
        Piece::Words(words) => put(link, words),
        Piece::Number(number) => put(link, itoa::Buffer::new().format(number).as_bytes()),
    }
}

/// Writes the pieces, one after another. `None` where the link failed: then only a beginning of
/// their text was written.
pub fn put_pieces<W: Write>(link: &mut Link<W>, pieces: &[Piece]) -> Option<()>
    ensures { Sends W.contents link.old link.new (is_some result) (flat_map text_of pieces.now) }
{
    for piece in pieces {
        put_piece(link, piece)?;
    }
    Some(())
}
