//! The texts of tokens that always look the same: the expressions of their lines match these alone.

use crate::spec::{Case, Spec, Word, needs_line};
use regex_hir::Hir;
use regex_syntax::{Config, ErrorKind, Parsed, parse};
use std::alloc::{AllocError, Global};
use std::str;
use yexplain::reads::{Made, is_set, name_of, set};
use ysymbols::{Grammar, Sym};

/// The text of each symbol, by its number, where it has one.
pub type Texts = Vec<Option<Vec<u8>>>;

/// The tree of an expression; `None` where it isn't read, as it was when it was compiled.
pub(crate) fn tree_of(alloc: Global, expression: &str) -> Made<Option<Hir>> {
    let config = Config {
        utf8: false,
        ..Config::default()
    };
    match parse(alloc, expression, &config) {
        Ok(parsed) => {
            let Parsed { hir, .. } = parsed;
            Ok(Some(hir))
        }
        Err(error) if error.kind == ErrorKind::OutOfMemory => Err(AllocError),
        Err(_) => Ok(None),
    }
}

/// The text that an expression matches alone, where there is one, and people can read it.
fn plain_text(alloc: Global, expression: &str) -> Made<Option<Vec<u8>>> {
    let Some(Hir::Literal(bytes)) = tree_of(alloc, expression)? else {
        return Ok(None);
    };
    let is_readable = bytes.iter().all(|b| *b >= b' ' && *b != 0x7f);
    if is_readable && str::from_utf8(&bytes).is_ok() {
        Ok(Some(Vec::from_slice(alloc, &bytes)?))
    } else {
        Ok(None)
    }
}

/// The word itself, where it isn't spelled as the token's name is.
fn word_text(alloc: Global, grammar: &Grammar, word: Word) -> Made<Option<Vec<u8>>> {
    if word.case != Case::Small {
        return Ok(None);
    }
    let mut text = Vec::from_slice(alloc, name_of(grammar, word.token))?;
    for b in text.iter_mut() {
        *b = b.to_ascii_lowercase();
    }
    Ok(Some(text))
}

/// What tokens look like, up to a line.
#[derive(Drop)]
struct Seen {
    /// The first text of each.
    texts: Texts,
    /// Whether something else is this token, too.
    others: Vec<bool>,
}

impl Seen {
    /// A line or a word has this text alone; `None` where there is no such text, or where the name
    /// says as much.
    fn add(&mut self, token: Sym, text: Option<Vec<u8>>) {
        match (text, self.texts.get_mut(token)) {
            (Some(text), Some(first)) if first.is_none() => *first = Some(text),
            (Some(_), _) => {}
            (None, _) => set(&mut self.others, token, true),
        }
    }

    /// The text of each token that has no other.
    fn into_texts(self) -> Texts {
        let Seen { mut texts, others } = self;
        for (symbol, text) in texts.iter_mut().enumerate() {
            if is_set(&others, symbol) {
                *text = None;
            }
        }
        texts
    }
}

/// The text of each token all of whose words and lines have one: that of the first. What stands for
/// itself has none, but for a word in small letters whose token has capitals. Whether the text is
/// cut into this token isn't tried.
pub fn plain_texts(alloc: Global, grammar: &Grammar, spec: &Spec<'_>) -> Made<Texts> {
    let mut seen = Seen {
        texts: Vec::new(alloc),
        others: Vec::new(alloc),
    };
    for symbol in 0..grammar.symbols() {
        seen.texts.push(None)?;
        seen.others.push(!needs_line(grammar, symbol))?;
    }
    for word in &spec.words {
        seen.add(word.token, word_text(alloc, grammar, *word)?);
    }
    for rule in &spec.rules {
        if let Some(token) = rule.token {
            seen.add(token, plain_text(alloc, rule.expression)?);
        }
    }
    Ok(seen.into_texts())
}
