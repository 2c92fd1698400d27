//! Actions as C or C++: the values and places that they name are those of the stack.

use crate::references::{Dialect, Piece, Reference, Whose, piece_at};
use crate::scene::{Member, Scene};
use yfiles::output::Output;
use yparts::options::Values;
use yparts::parts;

/// Writes a value that an action names; nothing of one that is misused. In C++ a symbol has it, and
/// it may be of several types.
fn put_value<'a>(out: &mut Output, scene: &Scene<'a>, value: Reference<'a>) {
    let Ok((place, member)) = scene.locate(value) else {
        return;
    };
    let options = &scene.style.options;
    if let Some(place) = place {
        out.put(if options.class.moves {
            "YY_MOVE (yyvsp["
        } else {
            "(yyvsp["
        });
        out.signed(place);
        out.put(if options.is_cxx() { "].value" } else { "]" });
    } else {
        out.put_pieces(&[b"(", scene.value.as_bytes()]);
    }
    match member {
        Member::Whole => out.put(")"),
        Member::Tag(tag) if options.values == Values::Variant => {
            out.put_pieces(&[b".as < ", tag, b" > ())"]);
        }
        Member::Tag(tag) => out.put_pieces(&[b".", tag, b")"]),
        Member::Symbol(prefix, name) => out.put_pieces(&[b".", prefix, name, b")"]),
    }
}

impl<'a> Scene<'a> {
    /// Whether what code names is there for it: outside of rules only the left side is.
    pub fn has(&self, piece: Piece<'a>) -> bool {
        self.is_strict
            || match piece {
                Piece::Text => true,
                Piece::Value(value) => value.whose == Whose::Left,
                Piece::Place(whose) => whose == Whose::Left,
            }
    }
}

/// Writes an action as C, in which nothing is misused.
pub fn put_action<'a>(
    out: &mut Output,
    text: parts::Piece<'a>,
    scene: &Scene<'a>,
    dialect: Dialect,
) {
    let mut rest = text.text;
    for _ in text.text {
        let Some((piece, front, after)) = piece_at(rest, dialect) else {
            break;
        };
        match piece {
            Piece::Text => out.put_bytes(front),
            piece if !scene.has(piece) => out.put_bytes(front),
            Piece::Value(value) => put_value(out, scene, value),
            Piece::Place(whose) => match scene.place(whose) {
                Ok(Some(place)) => {
                    let (front, end) = match scene.style.options.is_cxx() {
                        true => ("(yyvsp[", "].location)"),
                        false => ("(yylsp[", "])"),
                    };
                    out.put(front);
                    out.signed(place);
                    out.put(end);
                }
                Ok(None) => out.put_pieces(&[b"(", scene.location.as_bytes(), b")"]),
                Err(_) => {}
            },
        }
        rest = after;
    }
}
