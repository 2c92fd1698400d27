//! Words: the first of a line, numbers, a word's place in a table, and the nearest other word.

use std::alloc::Global;
use yexplain::reads::Made;
use yfaults::nearest::Search;

/// The first word, and what follows it.
pub fn first_word(text: &str) -> (&str, &str) {
    let text = text.trim();
    let word = text.split_whitespace().next().unwrap_or("");
    (word, text.strip_prefix(word).unwrap_or("").trim())
}

/// A number as it is written in digits, at most that of 64 bits.
pub fn number_of(word: &str) -> Option<usize> {
    if word.starts_with('+') {
        return None;
    }
    word.parse::<usize>().ok()
}

/// What a word means in a table.
#[derive(Clone, Copy)]
pub enum Found<T> {
    /// This entry alone.
    One(T),
    /// Several entries begin with it.
    Many,
    /// No entry begins with it.
    Nothing,
}

/// Whether a word can stand for a name that it begins: one with a sign at its end is written
/// whole.
pub fn begins(name: &str, word: &str) -> bool {
    name.starts_with(word) && !name.ends_with('!')
}

/// The entry that a word is, or the one entry that it begins.
pub fn find<T: Copy>(table: &[(&'static str, T)], word: &str) -> Found<T> {
    let mut found = Found::Nothing;
    for (name, entry) in table {
        if *name == word {
            return Found::One(*entry);
        }
        if begins(name, word) {
            found = match found {
                Found::Nothing => Found::One(*entry),
                Found::One(_) | Found::Many => Found::Many,
            };
        }
    }
    found
}

/// The entry of a whole word.
pub fn find_whole<T: Copy>(table: &[(&'static str, T)], word: &str) -> Option<T> {
    for (name, entry) in table {
        if *name == word {
            return Some(*entry);
        }
    }
    None
}

/// The word of a table that is nearest to this one, where one is near.
pub fn near_in<'a, T: Copy>(
    alloc: Global,
    table: &[(&'static str, T)],
    word: &'a str,
) -> Made<Option<&'a str>> {
    let mut search = Search::new(word.as_bytes());
    for (name, _) in table {
        let name: &'static str = *name;
        search.offer(alloc, name.as_bytes())?;
    }
    Ok(search.text())
}
