//! Edits of the upcoming tokens, and the tokens as a file.

use crate::history::put_tokens;
use crate::refusal::{Refusal, edit_words};
use crate::saving::edited_text;
use crate::views::View;
use crate::words::first_word;
use std::alloc::Global;
use std::io::{self, ErrorKind, Write};
use std::rt::Files;
use yexplain::reads::Made;
use yfiles::writing::{write_new, write_over};
use yinput::Parse;
use yinput::source::Source;
use yparse::machine::{StepFault, StepKind};
use yview::page::Page;
use yview::step_line::{StepLine, put_made};

/// Writes an edit, or why it wasn't made.
pub fn put_edit<W: Write>(page: &mut Page<W>, parse: &Parse, made: Result<StepKind, StepFault>) {
    let session = &parse.session;
    match made {
        Ok(kind) => put_made(page, session, StepLine::of(session, kind, false)),
        Err(fault) => page.line(edit_words(fault, session.view().mode())),
    }
}

/// The names of the tokens that a text spells: one with a blank in it, or several with blanks
/// between.
fn names_in<'t>(alloc: Global, parse: &Parse, text: &'t str) -> Made<Vec<&'t str>> {
    let mut names = Vec::new(alloc);
    if parse.session.token(text.as_bytes()).is_some() {
        names.push(text)?;
        return Ok(names);
    }
    for name in text.split_whitespace() {
        names.push(name)?;
    }
    Ok(names)
}

/// Undoes so many inserts, and writes that.
fn take_back<W: Write>(page: &mut Page<W>, parse: &mut Parse, made: usize) {
    for _ in 0..made {
        if let Ok(kind) = parse.session.back() {
            put_made(
                page,
                &parse.session,
                StepLine::of(&parse.session, kind, true),
            );
        }
    }
}

/// Puts tokens before the upcoming ones, the first of them first: all of them, or none.
pub fn insert<W: Write>(
    alloc: Global,
    parse: &mut Parse,
    page: &mut Page<W>,
    text: &str,
) -> Made<()> {
    let names = names_in(alloc, parse, text)?;
    for name in &names {
        if parse.session.token(name.as_bytes()).is_none() {
            let parse = &*parse;
            return View { alloc, parse, page }.refuse_name(name, Refusal::NoInput);
        }
    }
    let mut made = 0_usize;
    // the last one goes in first, so that the first one stands before it
    for name in names.iter().rev() {
        match parse.insert(name.as_bytes()) {
            Ok(Some(kind)) => put_edit(page, parse, Ok(kind)),
            Ok(None) => continue,
            Err(fault) => {
                put_edit(page, parse, Err(fault));
                take_back(page, parse, made);
                break;
            }
        }
        made = made.saturating_add(1);
    }
    Ok(())
}

/// Writes the input, edits included, to a file: a text as one, unless its tokens are asked for.
/// Without `over` there must be no such file. Whether a text was found for it.
fn save_input<F: Files + AllocGlobal>(
    source: &Source<'_, F>,
    parse: &Parse,
    (path, as_tokens): (&str, bool),
    over: bool,
) -> io::Result<bool> {
    let rt = source.rt;
    let text = if as_tokens || parse.text.is_none() {
        let mut page = Page::new(Vec::new(rt.alloc()), false);
        put_tokens(&mut page, parse);
        page.checked()?;
        page.into_out()
    } else {
        match edited_text(source, parse)? {
            Some(text) => text,
            None => return Ok(false),
        }
    };
    if over {
        write_over(rt, path, &text)?;
    } else {
        write_new(rt, path, &text)?;
    }
    Ok(true)
}

/// Writes the whole input with its edits to a file that isn't guarded, and says so, or why not.
/// Whether that was done.
pub fn save<F: Files + AllocGlobal, W: Write>(
    source: &Source<'_, F>,
    parse: &Parse,
    page: &mut Page<W>,
    words: &str,
    over: bool,
) -> bool {
    let (path, as_tokens) = match first_word(words) {
        ("--tokens", path) if !path.is_empty() => (path, true),
        _ => (words, false),
    };
    let saved = match source.guards(path) {
        Ok(true) => {
            let _ = writeln!(page, "{path} is an input, and isn't written over.");
            return false;
        }
        Ok(false) => save_input(source, parse, (path, as_tokens), over),
        Err(error) => Err(error),
    };
    let is_saved = matches!(saved, Ok(true));
    let words = match saved {
        Ok(true) if as_tokens || parse.text.is_none() => " has the tokens, edits included.",
        Ok(true) => " has the text, edits included.",
        Ok(false) =>
            " isn't written: no text is known for these tokens; save --tokens FILE writes their names.",
        Err(error) => match error.kind() {
            ErrorKind::AlreadyExists => " is there already; save! writes over it.",
            ErrorKind::OutOfMemory => " isn't written: there is no memory.",
            _ => " can't be written.",
        },
    };
    let _ = writeln!(page, "{path}{words}");
    is_saved
}
