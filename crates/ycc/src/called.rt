//! What symbols are called in their file.

use std::alloc::Global;
use yexplain::reads::{Made, name_of};
use yfiles::output::Output;
use yskeleton::Skeleton;
use ysymbols::Sym;

/// Literals by their names, and as files have them.
const ESCAPES: [(&[u8], &[u8]); 9] = [
    (b"'\\007'", b"'\\a'"),
    (b"'\\010'", b"'\\b'"),
    (b"'\\011'", b"'\\t'"),
    (b"'\\012'", b"'\\n'"),
    (b"'\\013'", b"'\\v'"),
    (b"'\\014'", b"'\\f'"),
    (b"'\\015'", b"'\\r'"),
    (b"'\\047'", b"'\\''"),
    (b"'\\134'", b"'\\\\'"),
];

/// What stands in a file for a literal that has three digits as its name.
fn escape_in(name: &[u8]) -> Option<&'static [u8]> {
    for (digits, escape) in &ESCAPES {
        if *digits == name {
            return Some(*escape);
        }
    }
    None
}

/// Writes what a symbol is called in the file; that of an action within a body as bison calls it,
/// where bison's names are wanted.
fn put_called(out: &mut Output, skeleton: &Skeleton<'_>, symbol: Sym, is_bison: bool) {
    let name = name_of(skeleton.grammar, symbol);
    let label = skeleton.parts.looks_of(symbol).label;
    match (label, name.strip_prefix(b"$$")) {
        (Some([b'_', b'(', text @ .., b')']), _) => out.put_bytes(text.trim_ascii()),
        (Some(label), _) => out.put_bytes(label),
        (None, Some(number)) if is_bison => {
            let has_value = skeleton.has_inner_value(symbol);
            out.put(if has_value { "@" } else { "$@" });
            out.put_bytes(number);
        }
        (None, _) => {
            let end = if is_bison && symbol == 0 {
                skeleton.own_end()
            } else {
                None
            };
            out.put_bytes(end.or(escape_in(name)).unwrap_or(name));
        }
    }
}

/// What all symbols are called in the file, in bison's way or in byacc's.
pub fn called_by(alloc: Global, skeleton: &Skeleton<'_>, is_bison: bool) -> Made<Vec<Vec<u8>>> {
    let mut all = Vec::new(alloc);
    for symbol in 0..skeleton.grammar.symbols() {
        let mut out = Output::new(alloc);
        put_called(&mut out, skeleton, symbol, is_bison);
        all.push(out.into_bytes()?)?;
    }
    Ok(all)
}
