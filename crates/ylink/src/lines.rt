//! Lists of lines: a line is written by its number, a list of them by one loop.

ghost use Rattle.std.specs.Prelude.{ℕ, ◌≡◌, ◌+◌, ◌<◌, ◌≤◌, ◌++◌, List, is_some, flat_map};
ghost use Rattle.std.specs.List.{range_with_len};
ghost use Rattle.ylink.specs.Pieces.{text_of};
ghost use Rattle.ylink.specs.Sends.{Sends};

use crate::link::Link;
use crate::pieces::{Piece, put_pieces};
use std::io::Write;

/// Lines, each with a number.
///
/// What a line says may depend on a context, a value that no program has: the contract then holds
/// for each context. Most lines need none.
pub trait Lines {
    /// The contexts of the lines.
    ghost Context: { Self → Type 0 } = { λ _. Unit {0} };

    /// There is a line of this number.
    ghost has: { Self → ℕ → Type 0 };

    /// The text of a line, by its number.
    ghost line: { (it : Self) → Context it → ℕ → List ℕ };

    /// Writes a line. `None` where the link failed: then only a beginning of it was written.
    fn put_line<W: Write>(&self, link: &mut Link<W>, number: usize) -> Option<()>
        requires { has self.now number }
        ensures { (u : Context self.now)
            → Sends W.contents link.old link.new (is_some result) (line self.now u number) };
}

/// Writes the lines of these numbers, from `first` to the one before `end`. `None` where the link
/// failed: then only a beginning of them was written.
pub fn put_lines<W: Write, L: Lines>(
    link: &mut Link<W>,
    lines: &L,
    first: usize,
    end: usize,
) -> Option<()>
    requires { (k : ℕ) → first ≤ k → k < end → L.has lines.now k }
    ensures { (u : L.Context lines.now) (n : ℕ) → first + n ≡ end
        → Sends W.contents link.old link.new (is_some result)
        (flat_map (L.line lines.now u) (range_with_len first n)) }
{
    for number in first..end {
        lines.put_line(link, number)?;
    }
    Some(())
}

/// Writes a title, and then the lines of the numbers below `count`. `None` where the link failed:
/// then only a beginning of them was written.
pub fn put_list<W: Write, L: Lines>(
    link: &mut Link<W>,
    title: &[Piece],
    lines: &L,
    count: usize,
) -> Option<()>
    requires { (k : ℕ) → k < count → L.has lines.now k }
    ensures { (u : L.Context lines.now) (n : ℕ) → count ≡ n
        → Sends W.contents link.old link.new (is_some result)
        (flat_map text_of title.now ++ flat_map (L.line lines.now u) (range_with_len 0 n)) }
{
    put_pieces(link, title)?;
    put_lines(link, lines, 0, count)
}
