//! Values that are used in vain or never set, and rules that don't say that they are empty.

use crate::bodies::{Body, Cut, Entry};
use crate::finding::{Finding, Seen, What, warning};
use crate::kinds::Kind;
use yexplain::reads::{Made, is_set, set};
use ylalr::ERROR;
use yparts::parts::{Deed, Whose as Meant};
use yskeleton::{Dialect, Piece, Whose, piece_at};

/// Which values of a body actions use, the left side's at 0, and which actions set their own.
#[derive(Drop)]
struct Uses {
    used: Vec<bool>,
    sets: Vec<bool>,
}

/// Notes what an action uses, which stands at a place of its body or at its end.
fn note_uses<'a>(
    seen: &Seen<'a>,
    body: &Body<'a>,
    uses: &mut Uses,
    (text, own): (&'a [u8], Option<usize>),
) {
    let is_bison = seen.parts.options.is_bison;
    let dialect = Dialect {
        names: is_bison,
        places: true,
    };
    let mut rest = text;
    for _ in text {
        let Some((piece, _, after)) = piece_at(rest, dialect) else {
            break;
        };
        rest = after;
        let Piece::Value(value) = piece else {
            continue;
        };
        let place = match value.whose {
            Whose::Left => Some(0),
            Whose::Symbol(number) => usize::try_from(number).ok().filter(|place| *place > 0),
            Whose::Named(name) => body.place_of(seen, name),
        };
        match (place, own) {
            (Some(0), Some(own)) => set(&mut uses.sets, own, true),
            (Some(place), _) => set(&mut uses.used, place, true),
            (None, _) => {}
        }
    }
}

/// What the actions of a body use.
fn uses_of<'a>(seen: &Seen<'a>, body: &Body<'a>, cut: &Cut<'a>) -> Made<Uses> {
    let places = cut.entries.len().saturating_add(1);
    let mut uses = Uses {
        used: vec![in seen.alloc; false; places]?,
        sets: vec![in seen.alloc; false; places]?,
    };
    for (number, entry) in cut.entries.iter().enumerate() {
        let own = Some(number.saturating_add(1));
        note_uses(seen, body, &mut uses, (entry.action, own));
    }
    if let Some(text) = cut.last {
        note_uses(seen, body, &mut uses, (text, None));
    }
    Ok(uses)
}

/// Whether a value has code that is run where it is thrown away. Code for all symbols isn't for that
/// of `error`, nor for that of an action within a body that is neither set nor used.
fn is_destroyed(seen: &Seen<'_>, entry: &Entry<'_>, is_value: bool) -> bool {
    let is_any = is_value && entry.symbol != Some(ERROR);
    for care in &seen.parts.cares {
        let is_meant = match care.whose {
            Meant::Symbol(symbol) => entry.symbol == Some(symbol),
            Meant::Tag(tag) => entry.tag == Some(tag),
            Meant::Tagged => entry.tag.is_some() && is_any,
            Meant::Untagged => entry.tag.is_none() && is_any,
        };
        if care.deed == Deed::Destroy && is_meant {
            return true;
        }
    }
    false
}

/// Finds the values of a body that are used in vain or never set.
fn find_values<'a>(
    seen: &Seen<'a>,
    body: &Body<'a>,
    cut: &Cut<'a>,
    found: &mut Vec<Finding<'a>>,
) -> Made<()> {
    let uses = uses_of(seen, body, cut)?;
    let left = Entry {
        at: body.at,
        symbol: Some(body.left),
        action: b"",
        tag: seen.parts.tag_of(body.left),
    };
    let is_left_set = is_set(&uses.used, 0);
    if cut.last.is_some() && !is_left_set && is_destroyed(seen, &left, true) {
        found.push(warning(Kind::Other, body.at, What::Unset))?;
    }
    for (number, entry) in cut.entries.iter().enumerate() {
        let place = number.saturating_add(1);
        let is_used = is_set(&uses.used, place);
        let sets = is_set(&uses.sets, place);
        let is_inner = !entry.action.is_empty();
        let is_kept = is_destroyed(seen, entry, !is_inner || sets || is_used);
        let kind = if is_kept {
            Kind::Other
        } else {
            Kind::MidruleValues
        };
        if is_inner && !sets && (is_kept || is_used) {
            found.push(warning(kind, entry.at, What::Unset))?;
        }
        let is_default = cut.last.is_none() && place == 1;
        if !is_used && !is_default && (is_kept || (is_inner && sets)) {
            found.push(warning(kind, entry.at, What::Unused(place)))?;
        }
    }
    Ok(())
}

/// Finds what an action is wanting for in a body without one.
fn find_default<'a>(
    seen: &Seen<'a>,
    body: &Body<'a>,
    cut: &Cut<'a>,
    found: &mut Vec<Finding<'a>>,
) -> Made<()> {
    let Some(left) = seen.parts.tag_of(body.left) else {
        return Ok(());
    };
    let what = match cut.entries.first() {
        Some(first) => What::Clash(left, first.tag.unwrap_or(b"")),
        None => What::NoValue,
    };
    match what {
        What::Clash(left, first) if left == first => Ok(()),
        what => {
            found.push(warning(Kind::Other, body.at, what))?;
            Ok(())
        }
    }
}

/// Finds what is to be said of the values of all bodies.
pub fn find_in_bodies<'a>(
    seen: &Seen<'a>,
    bodies: &[Body<'a>],
    found: &mut Vec<Finding<'a>>,
) -> Made<()> {
    for body in bodies {
        let cut = body.cut(seen)?;
        if cut.last.is_none() {
            find_default(seen, body, &cut, found)?;
        }
        if cut.entries.is_empty() && !cut.says_empty {
            found.push(warning(Kind::EmptyRule, body.at, What::Empty))?;
        }
        find_values(seen, body, &cut, found)?;
    }
    Ok(())
}
