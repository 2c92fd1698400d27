//! Messages as data, for drivers: what tokens are called, and the pieces of the message of each
//! state that has one.

use crate::messages::Messages;
use crate::slots::Slot;
use std::alloc::Global;
use std::io::{self, Write};
use yexplain::reads::grammar_of;
use yinput::spelled::Spelled;
use ytables::Tables;
use yview::digest::digest_of;

/// Writes some bytes after how many they are; there may be newlines among them.
fn put_counted<W: Write>(out: &mut W, bytes: &[u8]) -> io::Result<()> {
    let length = bytes.len();
    write!(out, "{length} ")?;
    out.write_all(bytes)?;
    writeln!(out)
}

/// Writes the message of a state, where it has one.
fn put_state<W: Write>(
    alloc: Global,
    out: &mut W,
    messages: &Messages,
    state: usize,
) -> io::Result<()> {
    if let Some(slots) = messages.slots(alloc, state)? {
        writeln!(out, "state {state}")?;
        for slot in &slots {
            match *slot {
                Slot::Text(bytes) => {
                    write!(out, "text ")?;
                    put_counted(out, bytes)?;
                }
                Slot::Value(number) => writeln!(out, "value {number}")?,
                Slot::Expected => writeln!(out, "expected")?,
            }
        }
    }
    Ok(())
}

/// The messages of all states as data, with the digest of the table for which they are, and with
/// what tokens are called.
pub fn data_of(
    alloc: Global,
    tables: &Tables,
    spelled: &Spelled,
    messages: &Messages,
) -> io::Result<Vec<u8>> {
    let digest = digest_of(alloc, tables)?;
    let mut text = Vec::new(alloc);
    write!(text, "messages 1\ntable {digest}\n")?;
    for symbol in 0..grammar_of(tables).symbols() {
        // where it isn't its name
        if let Some(called) = spelled.of(symbol) {
            write!(text, "spelled {symbol} ")?;
            put_counted(&mut text, called)?;
        }
    }
    for state in 0..tables.automaton().states() {
        put_state(alloc, &mut text, messages, state)?;
    }
    writeln!(text, "end")?;
    Ok(text)
}
