//! The text of an input with its edits.

use std::alloc::Global;
use std::io::{self, ErrorKind};
use std::rt::Files;
use yexplain::reads::{Made, grammar_of};
use yinput::Parse;
use yinput::source::Source;
use yinput::spec::read_lexer;
use yinput::text::Text;
use ylex::fault::TextFault;
use ylex::writer::Writer;
use yparse::Session;
use yparse::machine::StepKind;
use ysymbols::Sym;
use yview::reading::upcoming_token;

/// The tokens of the input with its edits, each with its number in the file; 0 for one that was
/// inserted.
fn edited(alloc: Global, session: &Session) -> Made<Vec<(Sym, usize)>> {
    let (mut found, mut inserted, mut next) = (Vec::new(alloc), 0_usize, 1_usize);
    for index in 0..session.position() {
        let Some(kind) = session.kind_at(index) else {
            break;
        };
        let (taken, is_dropped) = match kind {
            StepKind::Insert(_) => {
                inserted = inserted.saturating_add(1);
                continue;
            }
            StepKind::Shift(token) | StepKind::Discard(token) => (token, false),
            StepKind::Drop(token) => (token, true),
            _ => continue,
        };
        let mut number = 0;
        if inserted > 0 {
            inserted = inserted.saturating_sub(1);
        } else {
            number = next;
            next = next.saturating_add(1);
        }
        if !is_dropped {
            found.push((taken, number))?;
        }
    }
    for index in 0..session.view().rest_len() {
        found.push(upcoming_token(session, index))?;
    }
    Ok(found)
}

/// A text on its way to be written.
#[derive(Drop)]
struct Writing<'a> {
    text: &'a Text,
    /// What was written.
    out: Vec<u8>,
    /// The number of the next token of the file.
    next: usize,
    /// Whether the last token was inserted.
    is_apart: bool,
}

impl Writing<'_> {
    /// Writes what stands between the token before a number and that token.
    fn put_gap(&mut self, number: usize) -> Made<bool> {
        let from = match number.checked_sub(2) {
            Some(before) => self.text.ends.get(before).copied().unwrap_or(0),
            None => 0,
        };
        let to = match self.text.places.get(number.saturating_sub(1)) {
            Some(at) => *at,
            None => self.text.bytes.len(),
        };
        let gap = self.text.bytes.get(from..to).unwrap_or(&[]);
        self.out.extend_from_slice(gap)?;
        Ok(gap.is_empty())
    }

    /// Writes a token of the file, after all that stands between it and the last one but the words
    /// of those that were dropped; the end of the text for a number after the last one.
    fn put_own(&mut self, number: usize, separator: &[u8]) -> Made<()> {
        let mut is_close = true;
        for passed in self.next..=number {
            is_close = self.put_gap(passed)? && is_close;
        }
        let word = self.text.word(number);
        if is_close && self.is_apart && !word.is_empty() {
            self.out.extend_from_slice(separator)?;
        }
        self.out.extend_from_slice(word)?;
        self.next = number.saturating_add(1);
        self.is_apart = false;
        Ok(())
    }
}

/// A text of these tokens, by that of the file and by texts for tokens; `None` where one of them has
/// none.
fn written(
    alloc: Global,
    text: &Text,
    tokens: &[(Sym, usize)],
    writer: &Writer,
) -> Made<Option<Vec<u8>>> {
    let separator = match writer.separators.first() {
        Some(separator) => separator.as_slice(),
        None => &[],
    };
    let mut writing = Writing {
        text,
        out: Vec::new(alloc),
        next: 1,
        is_apart: false,
    };
    for (token, number) in tokens {
        if *number > 0 {
            writing.put_own(*number, separator)?;
            continue;
        }
        let Some(sample) = writer.joined(alloc, &[*token], b"")? else {
            return Ok(None);
        };
        if !writing.out.is_empty() {
            writing.out.extend_from_slice(separator)?;
        }
        writing.out.extend_from_slice(&sample)?;
        writing.is_apart = true;
    }
    writing.put_own(text.places.len().saturating_add(1), separator)?;
    let Writing { out, .. } = writing;
    Ok(Some(out))
}

/// The text of a parse with its edits, which is cut into exactly its tokens: this is tried. `None`
/// where none is known.
pub fn edited_text<F: Files + AllocGlobal>(
    source: &Source<'_, F>,
    parse: &Parse,
) -> io::Result<Option<Vec<u8>>> {
    let (alloc, tables) = (source.rt.alloc(), parse.session.tables());
    let (Some(text), Some(spec)) = (&parse.text, source.files.spec) else {
        return Ok(None);
    };
    let Ok(lexer) = read_lexer(source.rt, tables, spec)? else {
        return Ok(None);
    };
    let (grammar, tokens) = (grammar_of(tables), edited(alloc, &parse.session)?);
    let writer = Writer::new(alloc, grammar, lexer)?;
    let Some(made) = written(alloc, text, &tokens, &writer)? else {
        return Ok(None);
    };
    let lexed = match writer.lexer.lex(alloc, grammar, &made) {
        Ok(lexed) => lexed,
        Err(TextFault::Memory) => return Err(io::Error::from(ErrorKind::OutOfMemory)),
        Err(_) => return Ok(None),
    };
    let cuts = lexed.tokens.symbols.as_slice();
    let mut is_same = cuts.len() == tokens.len();
    for (place, (token, _)) in tokens.iter().enumerate() {
        is_same = is_same && cuts.get(place) == Some(token);
    }
    Ok(if is_same { Some(made) } else { None })
}
