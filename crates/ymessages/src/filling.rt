//! Messages with what stands for their `$0`, `$1` and so on, and `$expected`.

use crate::slots::{Slot, slots_of};
use std::alloc::Global;
use std::io::{self, Write};
use yinput::language::Input;
use yinput::spelled::Spoken;
use yinput::text::Text;
use yinput::verdict::Rejection;
use yinput::verdict_text::put_list;
use ylalr::END;
use ysymbols::Sym;

/// The most bytes, and the most tokens, of one entry of the stack.
const MOST_BYTES: usize = 80;

const MOST_TOKENS: usize = 20;

/// What a message is filled with: a rejection of an input.
#[derive(Clone, Copy)]
struct Filling<'a> {
    alloc: Global,
    spoken: Spoken<'a>,
    input: &'a Input,
    rejection: &'a Rejection,
}

/// Writes some bytes of a text in one line, and dots where there are more.
fn put_bytes<W: Write>(out: &mut W, bytes: &[u8]) -> io::Result<()> {
    // the first ones, up to the end of a character of UTF-8
    let mut end = MOST_BYTES;
    for _ in 0..3 {
        if bytes.get(end).map_or(false, |b| *b & 0xc0 == 0x80) {
            end = end.saturating_sub(1);
        }
    }
    let shown = bytes.get(..end).unwrap_or(bytes);
    for byte in shown {
        let shown = if *byte < b' ' { b' ' } else { *byte };
        out.write_all(&[shown])?;
    }
    if shown.len() < bytes.len() {
        write!(out, " ..")?;
    }
    Ok(())
}

/// Writes some tokens, and dots where there are more.
fn put_tokens<W: Write>(out: &mut W, spoken: Spoken<'_>, tokens: &[Sym]) -> io::Result<()> {
    let shown = tokens.get(..MOST_TOKENS).unwrap_or(tokens);
    for (index, token) in shown.iter().enumerate() {
        if index > 0 {
            write!(out, " ")?;
        }
        spoken.put(out, *token)?;
    }
    if shown.len() < tokens.len() {
        write!(out, " ..")?;
    }
    Ok(())
}

impl<'a> Filling<'a> {
    /// What stands in the text for the tokens from one place to another; nothing without a text.
    fn bytes(&self, start: usize, end: usize) -> &'a [u8] {
        let input = self.input;
        match &input.text {
            Some(text) if start < end => text_between(text, start, end).trim_ascii(),
            _ => &[],
        }
    }

    /// Writes the tokens of the input from one place to another: as they stand in a text, unless
    /// these are blanks alone, or by what they are called.
    fn put_part<W: Write>(&self, out: &mut W, start: usize, end: usize) -> io::Result<()> {
        let bytes = self.bytes(start, end);
        if bytes.is_empty() {
            let tokens = self.input.tokens.symbols.get(start..end);
            put_tokens(out, self.spoken, tokens.unwrap_or(&[]))
        } else {
            put_bytes(out, bytes)
        }
    }

    /// Where the tokens of an entry begin, counted from the bottom; before the token that can't
    /// come, where there is no such entry.
    fn start(&self, index: usize) -> usize {
        let rejection = self.rejection;
        let start = rejection.starts.get(index).copied();
        start.unwrap_or(rejection.before())
    }

    /// Writes an entry of the stack, counted from 1 at the top; nothing where there is none.
    fn put_entry<W: Write>(&self, out: &mut W, number: usize) -> io::Result<()> {
        let rejection = self.rejection;
        match rejection.starts.len().checked_sub(number) {
            Some(index) if index > 0 => {
                let end = self.start(index.saturating_add(1));
                self.put_part(out, self.start(index), end)
            }
            _ => Ok(()),
        }
    }

    /// Writes a piece of a message.
    fn put<W: Write>(&self, out: &mut W, slot: Slot<'_>) -> io::Result<()> {
        match slot {
            Slot::Text(bytes) => out.write_all(bytes),
            // the token that can't come
            Slot::Value(0) => {
                let Rejection { number, token, .. } = self.rejection;
                if *token == END {
                    return self.spoken.put(out, END);
                }
                self.put_part(out, self.rejection.before(), *number)
            }
            Slot::Value(number) => self.put_entry(out, number),
            // the tokens that could come
            Slot::Expected => {
                let mut list = Vec::new(self.alloc);
                put_list(&mut list, self.spoken, &self.rejection.wanted.can)?;
                out.write_all(list.as_slice().trim_ascii_start())
            }
        }
    }
}

/// The bytes of a text from a token to another, both counted from 0.
fn text_between(text: &Text, start: usize, end: usize) -> &[u8] {
    let from = text.at(start.saturating_add(1));
    let to = text.at(end.saturating_add(1));
    text.bytes.get(from..to).unwrap_or(&[])
}

/// A message about a rejection of an input, with what tokens are called.
pub fn filled<'a>(
    alloc: Global,
    spoken: Spoken<'a>,
    message: &[u8],
    input: &'a Input,
    rejection: &'a Rejection,
) -> io::Result<Vec<u8>> {
    let mut text = Vec::new(alloc);
    let filling = Filling {
        alloc,
        spoken,
        input,
        rejection,
    };
    for slot in &slots_of(alloc, message)? {
        filling.put(&mut text, *slot)?;
    }
    Ok(text)
}
