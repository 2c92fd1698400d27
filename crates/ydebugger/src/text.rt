//! What is shown of the text that tokens were read from.

use crate::condition::number_in;
use crate::refusal::Refusal;
use std::io::Write;
use yexplain::lines::{Spots, newlines};
use yexplain::reads::grammar_of;
use yfiles::place::Place;
use yinput::Parse;
use yinput::text::Text;
use yview::page::Page;
use yview::place_view::{MANY, put_more};
use yview::reading::{name_of, upcoming_token};
use yview::tree_text::{Words, put_word};

/// How many lines are listed before the middle one, and after it.
const AROUND: usize = 5;

/// The place of the first upcoming token that wasn't inserted.
fn place_ahead<'a>(parse: &Parse, text: &'a Text) -> Place<'a> {
    let session = &parse.session;
    let mut numbers = (0..session.view().rest_len()).map(|at| upcoming_token(session, at).1);
    text.place(numbers.find(|number| *number > 0).unwrap_or(0))
}

/// The line of the first upcoming token that wasn't inserted, with a mark under it, where the
/// tokens were read from a text.
pub fn put_ahead<W: Write>(page: &mut Page<W>, parse: &Parse) {
    let Some(text) = &parse.text else {
        return;
    };
    let place = place_ahead(parse, text);
    let (path, spot) = (place.path, place.spot());
    let _ = writeln!(page, "{path}:{spot}");
    // The page remembers a fault.
    let _ = place.put_text(page, true);
}

/// The words of the text that the tokens of a parse were read from; none where there is no text.
pub fn words_of(parse: &Parse) -> Words<'_> {
    match &parse.text {
        Some(text) => Words {
            bytes: &text.bytes,
            places: &text.places,
            ends: &text.ends,
        },
        None => Words {
            bytes: &[],
            places: &[],
            ends: &[],
        },
    }
}

/// An upcoming token: its number, or that it was inserted, and its name; its word and place too,
/// where it was read from a text.
fn put_token<W: Write>(page: &mut Page<W>, parse: &Parse, spots: &mut Spots<'_>, index: usize) {
    let (token, number) = upcoming_token(&parse.session, index);
    let name = name_of(grammar_of(parse.session.tables()), token);
    if number == 0 {
        page.put("      +  ");
        page.put(name);
    } else {
        page.number_to(7, number);
        page.put("  ");
        match &parse.text {
            Some(_) => put_word(page, name, words_of(parse), spots, number),
            None => page.put(name),
        }
    }
    page.end();
}

/// The upcoming tokens, a line for each: the first 1,000 of them.
pub fn put_upcoming<W: Write>(page: &mut Page<W>, parse: &Parse) {
    let count = parse.session.view().rest_len();
    if count == 0 {
        page.line("There is no upcoming token.");
    }
    let mut spots = Spots::new(words_of(parse).bytes);
    for index in 0..count.min(MANY) {
        put_token(page, parse, &mut spots, index);
    }
    put_more(page, count.saturating_sub(MANY), " tokens after");
}

/// The lines of a text around a middle one, each with its number, and a sign before the line of the
/// token ahead.
fn put_around<W: Write>(page: &mut Page<W>, text: &Text, ahead: usize, middle: usize) {
    let (from, to) = (middle.saturating_sub(AROUND), middle.saturating_add(AROUND));
    let (mut number, mut at) = (0_usize, 0_usize);
    for line in text.bytes.split(|b| *b == b'\n') {
        number = number.saturating_add(1);
        if number > to || at >= text.bytes.len() {
            break;
        }
        if number >= from {
            page.put(if number == ahead { " >" } else { "" });
            page.number_to(7, number);
            let source = text.bytes.as_slice();
            // The page remembers a fault.
            let _ = Place {
                path: "",
                source,
                at,
            }
            .put_text(page, false);
            if line.is_empty() {
                page.end();
            }
        }
        at = at.saturating_add(line.len()).saturating_add(1);
    }
}

/// The lines of the text around the token ahead, or around the line of a number.
pub fn list<W: Write>(page: &mut Page<W>, parse: &Parse, words: &str) -> Result<(), Refusal> {
    let Some(text) = &parse.text else {
        page.line("There is no text: the tokens were read as such; upcoming lists them.");
        return Ok(());
    };
    let ahead = place_ahead(parse, text).spot().line;
    let newlines = newlines(&text.bytes);
    let lines = match text.bytes.last() {
        Some(b'\n') => newlines,
        _ => newlines.saturating_add(1),
    };
    let middle = if words.is_empty() {
        ahead
    } else {
        number_in(words, "lines", 1, lines)?
    };
    put_around(page, text, ahead, middle);
    Ok(())
}
