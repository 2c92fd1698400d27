//! The tokens of a parse around those that its steps take.

use crate::record::Record;
use serde::Serialize;
use std::alloc::Global;
use std::str;
use yexplain::lines::Spots;
use yexplain::reads::Made;
use yinput::Parse;
use yinput::spelled::MOST_OF_WORD;
use yinput::text::Text;
use yparse::Session;
use yparse::machine::StepKind;
use ysymbols::{Sym, let_go};
use yview::reading::upcoming_token;

/// How many tokens before the first position are shown.
const BEFORE: usize = 100;
/// How many upcoming tokens are shown at the last one.
const AFTER: usize = 1_000;

/// How many bytes of a text are shown before the first of these tokens, and after the last place.
const AROUND: usize = 4_000;

/// Some tokens of the input.
#[derive(Serialize)]
pub struct Input {
    /// How many tokens the file has.
    count: usize,
    /// How many were taken at the first position.
    taken: usize,
    /// How many tokens are left out before those that follow.
    skipped: usize,
    symbols: Vec<Sym>,
    /// The line and the column of each of these, and of what follows, and how many bytes each of
    /// them has; none without a text.
    places: Vec<(usize, usize, usize)>,
    /// The text around these tokens, and the line and the column at which it begins.
    text: String,
    from: (usize, usize),
    /// The most bytes of a word that are shown beside its token.
    word: usize,
}

impl Drop for Input {
    // A call in each owner, which keeps their proofs short.
    fn drop(self) {
        let_go!(self: Input { count, taken, skipped, symbols, places, text, from, word });
    }
}

/// The token that a step which stands takes, the first step at 0.
fn taken_at(session: &Session, index: usize) -> Option<Sym> {
    match session.kind_at(index) {
        Some(StepKind::Shift(token) | StepKind::Discard(token)) => Some(token),
        _ => None,
    }
}

/// The lines and columns of some tokens, from the one of a number on, and of what follows them, and
/// how many bytes each of them has.
fn places_of(
    alloc: Global,
    text: &Text,
    first: usize,
    count: usize,
) -> Made<Vec<(usize, usize, usize)>> {
    let mut places = Vec::new(alloc);
    let mut spots = Spots::new(&text.bytes);
    for index in 0..=count {
        let number = first.saturating_add(index);
        let (line, column) = spots.reach(text.at(number));
        places.push((line, column, text.word(number).len()))?;
    }
    Ok(places)
}

/// Whether a place is inside a character of UTF-8.
fn is_inside(bytes: &[u8], at: usize) -> bool {
    bytes.get(at).is_some_and(|byte| byte & 0xc0 == 0x80)
}

/// Where the part of a text begins and ends that is shown around two places: at lines where some
/// are near, and else between characters.
fn part_of(bytes: &[u8], first: usize, last: usize) -> (usize, usize) {
    let mut from = first.saturating_sub(AROUND);
    let before = bytes.get(from..first).unwrap_or(&[]);
    if let (true, Some(newline)) = (from > 0, before.iter().position(|b| *b == b'\n')) {
        from = from.saturating_add(newline).saturating_add(1);
    }
    let mut to = last.saturating_add(AROUND).min(bytes.len());
    let after = bytes.get(last..to).unwrap_or(&[]);
    if let (true, Some(newline)) = (to < bytes.len(), after.iter().rposition(|b| *b == b'\n')) {
        to = last.saturating_add(newline).saturating_add(1);
    }
    // a character has three bytes at most after its first one
    for _ in 0..3 {
        from = from.saturating_add(usize::from(is_inside(bytes, from)));
        to = to.saturating_sub(usize::from(is_inside(bytes, to)));
    }
    (from.min(first), to.max(last))
}

/// These bytes as a text. Where they are no UTF-8, those that aren't ASCII are shown as `?`, one
/// for each, so that places stay.
fn shown(alloc: Global, bytes: &[u8]) -> Made<String> {
    if let Ok(text) = str::from_utf8(bytes) {
        return String::from_str(alloc, text);
    }
    let mut text = String::new(alloc);
    for byte in bytes {
        text.push(if *byte < 128 { char::from(*byte) } else { '?' })?;
    }
    Ok(text)
}

impl Input {
    /// Adds the text that the tokens were read from.
    fn add_text(&mut self, alloc: Global, text: &Text) -> Made<()> {
        let (first, count) = (self.skipped.saturating_add(1), self.symbols.len());
        let bytes = text.bytes.as_slice();
        let (from, to) = part_of(bytes, text.at(first), text.at(first.saturating_add(count)));
        self.places = places_of(alloc, text, first, count)?;
        self.text = shown(alloc, bytes.get(from..to).unwrap_or(&[]))?;
        self.from = Spots::new(bytes).reach(from);
        Ok(())
    }

    /// The tokens around the steps of a record, at the end of which the parse stands.
    pub fn new(alloc: Global, parse: &Parse, record: &Record) -> Made<Input> {
        let session = &parse.session;
        let mut taken: usize = 0;
        for index in 0..record.start.position {
            let is_taken = taken_at(session, index).is_some();
            taken = taken.saturating_add(usize::from(is_taken));
        }
        let skipped = taken.saturating_sub(BEFORE);
        let (mut symbols, mut left) = (Vec::new(alloc), skipped);
        for index in 0..session.position() {
            match taken_at(session, index) {
                Some(token) if left == 0 => symbols.push(token)?,
                Some(_) => left = left.saturating_sub(1),
                None => {}
            }
        }
        for index in 0..session.view().rest_len().min(AFTER) {
            symbols.push(upcoming_token(session, index).0)?;
        }
        let mut input = Input {
            count: parse.tokens,
            taken,
            skipped,
            symbols,
            places: Vec::new(alloc),
            text: String::new(alloc),
            from: (1, 1),
            word: MOST_OF_WORD,
        };
        if let Some(text) = &parse.text {
            input.add_text(alloc, text)?;
        }
        Ok(input)
    }
}
