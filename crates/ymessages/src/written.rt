//! An input as a line of a file of messages.

use crate::file::is_comment;
use crate::inputs::Inputs;
use std::alloc::Global;
use std::io;
use yexplain::reads::{Made, grammar_of, name_of};
use ylalr::END;
use ylex::writer::Writer;
use ysymbols::{Grammar, Sym};

/// The names of tokens, and of a last one.
fn names_of(alloc: Global, grammar: &Grammar, tokens: &[Sym], last: Sym) -> Made<Vec<u8>> {
    let mut line = Vec::new(alloc);
    for token in tokens {
        line.extend_from_slice(name_of(grammar, *token))?;
        line.push(b' ')?;
    }
    line.extend_from_slice(name_of(grammar, last))?;
    Ok(line)
}

/// A text of tokens and a last one with this separator between them, as a line; before it where it
/// would be a comment. Whether the line is read so is still to be tried.
fn joined(
    alloc: Global,
    writer: &Writer,
    (tokens, last): (&[Sym], Sym),
    separator: &[u8],
) -> Made<Option<Vec<u8>>> {
    let mut all = Vec::from_slice(alloc, tokens)?;
    if last != END {
        all.push(last)?;
    }
    let Some(text) = writer.joined(alloc, &all, separator)? else {
        return Ok(None);
    };
    let mut line = Vec::new(alloc);
    if is_comment(&text) {
        line.extend_from_slice(separator)?;
    }
    line.extend_from_slice(&text)?;
    if last == END {
        let end: &[u8] = if text.is_empty() { b"$end" } else { b" $end" };
        line.extend_from_slice(end)?;
    }
    Ok(Some(line))
}

/// Whether a line is an input of these tokens.
fn is_input(
    alloc: Global,
    inputs: Inputs<'_>,
    line: &[u8],
    (tokens, last): (&[Sym], Sym),
) -> io::Result<bool> {
    let is_blank = line.trim_ascii_end().is_empty();
    if is_blank || is_comment(line) || line.contains(&b'\n') {
        return Ok(false);
    }
    match inputs.read(alloc, line)? {
        Ok(listed) => {
            let (before, ended) = listed.list();
            Ok(before == tokens && ended == last)
        }
        Err(_) => Ok(false),
    }
}

/// The line of an input with these tokens and a last one: their names, or with a writer a text,
/// where one is found.
pub fn line_of(
    alloc: Global,
    inputs: Inputs<'_>,
    writer: Option<&Writer>,
    (tokens, last): (&[Sym], Sym),
) -> io::Result<Option<Vec<u8>>> {
    let list = (tokens, last);
    let Some(writer) = writer else {
        return Ok(Some(names_of(alloc, grammar_of(inputs.tables), tokens, last)?));
    };
    for separator in &writer.separators {
        if let Some(line) = joined(alloc, writer, list, separator)? {
            if is_input(alloc, inputs, &line, list)? {
                return Ok(Some(line));
            }
        }
    }
    Ok(None)
}
