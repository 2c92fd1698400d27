//! What a message is made of: bytes as they stand, and what stands for something else.

use std::alloc::Global;
use yexplain::reads::Made;

/// A piece of a message.
#[derive(Clone, Copy, Drop)]
pub enum Slot<'a> {
    /// Bytes as they stand.
    Text(&'a [u8]),
    /// The token that can't come, as 0, or an entry of the stack, counted from 1 at the top.
    Value(usize),
    /// The tokens that could come.
    Expected,
}

/// Adds bytes, where there are some.
fn push_text<'a>(slots: &mut Vec<Slot<'a>>, text: &'a [u8]) -> Made<()> {
    if !text.is_empty() {
        slots.push(Slot::Text(text))?;
    }
    Ok(())
}

/// Adds what follows a dollar sign.
fn push_piece<'a>(slots: &mut Vec<Slot<'a>>, piece: &'a [u8]) -> Made<()> {
    if let Some(rest) = piece.strip_prefix(b"expected") {
        slots.push(Slot::Expected)?;
        return push_text(slots, rest);
    }
    // two digits at most
    let (mut count, mut number): (usize, usize) = (0, 0);
    for byte in piece {
        if count == 2 || !byte.is_ascii_digit() {
            break;
        }
        let digit = byte.saturating_sub(b'0') as usize;
        number = number.saturating_mul(10).saturating_add(digit);
        count = count.saturating_add(1);
    }
    if count == 0 {
        slots.push(Slot::Text(b"$"))?;
    } else {
        slots.push(Slot::Value(number))?;
    }
    let rest = piece.get(count..).unwrap_or(&[]);
    push_text(slots, rest)
}

/// The pieces of a message, in their order. Two dollar signs are one, and so is one before anything
/// else.
pub fn slots_of<'a>(alloc: Global, message: &'a [u8]) -> Made<Vec<Slot<'a>>> {
    let mut slots = Vec::new(alloc);
    let mut is_plain = true;
    for piece in message.split(|b| *b == b'$') {
        if is_plain {
            push_text(&mut slots, piece)?;
            is_plain = false;
        } else if piece.is_empty() {
            slots.push(Slot::Text(b"$"))?;
            is_plain = true;
        } else {
            push_piece(&mut slots, piece)?;
        }
    }
    Ok(slots)
}
