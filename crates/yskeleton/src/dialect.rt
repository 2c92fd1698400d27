//! Whether a file is bison's for what stands in its code: byacc doesn't take it, or the parser that
//! it makes doesn't compile.

use crate::references::{Dialect, Piece, Whose, piece_at};
use crate::style::{names_place, uses_places};
use ylexemes::bytes::is_name_byte;
use yparts::parts::{Named, Parts, Taker, Target};

/// What bison's code may name.
const ALL: Dialect = Dialect {
    names: true,
    places: true,
};

/// Whether code names a value by one of these names.
fn names_value(code: &[u8], names: &[Named<'_>]) -> bool {
    let mut rest = code;
    // each piece has a byte at least
    for _ in code {
        let Some((piece, _, after)) = piece_at(rest, ALL) else {
            break;
        };
        rest = after;
        if let Piece::Value(value) = piece {
            for named in names {
                if value.whose == Whose::Named(named.name) {
                    return true;
                }
            }
        }
    }
    false
}

/// Whether a line of code defines a macro of this name.
fn defines(line: &[u8], name: &[u8]) -> bool {
    let Some(rest) = line.trim_ascii().strip_prefix(b"#") else {
        return false;
    };
    let Some(rest) = rest.trim_ascii().strip_prefix(b"define") else {
        return false;
    };
    match rest.trim_ascii().strip_prefix(name) {
        Some(after) => after.first().map_or(true, |b| !is_name_byte(*b)),
        None => false,
    }
}

/// Whether a parameter of `yylex` is a macro of the file: byacc declares the parameter by it, bison
/// hands it over and declares nothing.
fn has_macro(parts: &Parts<'_>) -> bool {
    for param in &parts.params {
        if param.taker == Taker::Parse {
            continue;
        }
        for block in &parts.blocks {
            for line in block.piece.text.split(|b| *b == b'\n') {
                if defines(line, param.name) {
                    return true;
                }
            }
        }
    }
    false
}

/// Whether what a file has is bison's: a directive or another sign that byacc doesn't take, a
/// union's name, places or values by names in code where no directive asks for them, a place in the
/// action before the first token, or a macro for a parameter.
pub fn is_of_bison(parts: &Parts<'_>) -> bool {
    let options = &parts.options;
    if options.is_bison || options.union_name.is_some() {
        return true;
    }
    if !options.locations && uses_places(parts, ALL) {
        return true;
    }
    for block in &parts.blocks {
        if block.target == Target::Initial && names_place(block.piece.text, ALL) {
            return true;
        }
    }
    for action in &parts.actions {
        let names = (&*parts).names_in(action.body);
        if names_value(action.piece.text, names) {
            return true;
        }
    }
    has_macro(parts)
}
