//! `ydebug page`: the page of a parse, written to a file or to standard output.

use crate::cards::cards_by;
use crate::data::Shown;
use crate::frame::{BODY, END, FRONT};
use crate::input::Input;
use crate::moves::MOVES;
use crate::script::SCRIPT;
use crate::shown::SHOWN;
use crate::style::STYLE;
use crate::trees::TREES;
use crate::walk::{MOST_STEPS, Part, Trail, Walked, walk_part};
use std::alloc::Global;
use std::io::{self, Write};
use std::rt::Files;
use yexplain::reads::Made;
use yfiles::same::refused_outputs;
use yfiles::writing::put_output;
use yinput::Parse;
use yinput::source::Source;

/// What is asked for: where the page of a parse goes, the part that it shows, and whether it has
/// the conflicts of the grammar.
#[derive(Clone, Copy)]
pub struct Asked<'a> {
    /// The path to which the page goes; `None` for standard output.
    pub file: Option<&'a str>,
    /// The positions that the page shows.
    pub part: Part,
    /// Whether the page has the conflicts of the grammar.
    pub conflicts: bool,
}

/// The whole page around its data, in which no `<` stands: where one stood in a text, its number
/// does.
fn page_of(alloc: Global, json: &[u8]) -> Made<Vec<u8>> {
    let mut page = Vec::new(alloc);
    for part in [FRONT, STYLE, SCRIPT, SHOWN, TREES, MOVES, BODY] {
        page.extend_from_slice(part.as_bytes())?;
    }
    for (number, piece) in json.split(|byte| *byte == b'<').enumerate() {
        if number > 0 {
            page.extend_from_slice(b"\\u003c")?;
        }
        page.extend_from_slice(piece)?;
    }
    page.extend_from_slice(END.as_bytes())?;
    Ok(page)
}

/// Writes the page of the steps that a parse has made, and gives the exit status.
fn put_steps<F: Files + AllocGlobal, W: Write, E: Write>(
    source: &Source<'_, F>,
    asked: Asked<'_>,
    parse: Parse,
    trail: &Trail,
    out: &mut W,
    errors: &mut E,
) -> io::Result<u8> {
    let alloc = source.rt.alloc();
    let input = Input::new(alloc, &parse, &trail.record)?;
    let opened = parse.into_opened();
    let (opened, cards) = if asked.conflicts {
        let (opened, cards) = cards_by(alloc, opened)?;
        (opened, Some(cards))
    } else {
        (opened, None)
    };
    let shown = Shown {
        files: (source.files.grammar.path, source.input.path),
        opened: &opened,
        input: &input,
        record: &trail.record,
        asked: trail.cells.all(),
        conflicts: cards.as_ref(),
    };
    let page = page_of(alloc, &shown.json(alloc)?)?;
    put_output(source.rt, asked.file, &page, out, errors)
}

/// Writes the page of a parse at its start, and gives the exit status.
fn put_parse<F: Files + AllocGlobal, W: Write, E: Write>(
    source: &Source<'_, F>,
    asked: Asked<'_>,
    parse: Parse,
    out: &mut W,
    errors: &mut E,
) -> io::Result<u8> {
    let mut parse = parse;
    match walk_part(source.rt.alloc(), &mut parse, asked.part)? {
        Walked::Done(trail) => put_steps(source, asked, parse, &trail, out, errors),
        Walked::Long => {
            let from = asked.part.from;
            let to = from.saturating_add(MOST_STEPS);
            writeln!(
                errors,
                "ydebug: there are more than {MOST_STEPS} steps, the most that one page shows; \
                 choose a part with --first and --last, such as --first {from} --last {to}"
            )?;
            Ok(1)
        }
        Walked::Short(end) => {
            let from = asked.part.from;
            writeln!(
                errors,
                "ydebug: the parse ends at position {end}, before --first {from}"
            )?;
            Ok(1)
        }
    }
}

/// Writes the page that is asked for, and gives the exit status: 0; 1 where a file is refused,
/// there are more steps than a page shows, or the parse ends before the part; 2 where the part
/// ends before it begins, or the page would go to an input; 3 where a file can't be read or
/// written, there are too many states, or memory runs out.
pub fn run_page<F: Files + AllocGlobal, W: Write, E: Write>(
    source: &Source<'_, F>,
    asked: Asked<'_>,
    out: &mut W,
    errors: &mut E,
) -> io::Result<u8> {
    let grammar = source.files.grammar.path;
    let inputs = [
        grammar,
        source.input.path,
        source.files.spec.unwrap_or(grammar),
    ];
    if let Some(status) = refused_outputs(source.rt, &[asked.file], &inputs, errors)? {
        return Ok(status);
    }
    let Part { from, to } = asked.part;
    if let Some(to) = to.filter(|to| *to < from) {
        writeln!(errors, "ydebug: --last {to} stands before --first {from}")?;
        return Ok(2);
    }
    match source.open(errors)? {
        Ok(parse) => put_parse(source, asked, parse, out, errors),
        Err(status) => Ok(status),
    }
}
