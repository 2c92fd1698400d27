//! A journal: the commands that lead to where a session is, so that another one can go on there.

use crate::breaks::Breaks;
use crate::condition::condition_of;
use crate::words::{first_word, number_of};
use std::alloc::Global;
use std::io::{self, Write};
use std::rt::Files;
use std::str;
use yexplain::reads::{Made, grammar_of};
use yfiles::reading::{LONGEST_INPUT, Limited};
use yfiles::writing::write_over;
use yinput::Parse;
use yparse::Session;
use yparse::machine::StepKind;
use yview::page::Page;
use yview::reading::name_of;

/// Writes the commands: the edits at their positions, the position, and the breakpoints.
fn put_journal<W: Write>(page: &mut Page<W>, parse: &Parse, breaks: &Breaks) {
    let session = &parse.session;
    for index in 0..session.position() {
        let _ = match session.kind_at(index) {
            Some(StepKind::Insert(token)) => {
                let name = name_of(grammar_of(session.tables()), token);
                writeln!(page, "to {index}\ninsert {name}")
            }
            Some(StepKind::Drop(_)) => writeln!(page, "to {index}\ndrop"),
            _ => Ok(()),
        };
    }
    let _ = writeln!(page, "to {}", session.position());
    breaks.put_commands(page);
}

/// Writes the journal of a session to a file.
pub fn keep<F: Files + AllocGlobal>(
    rt: &F,
    path: &str,
    parse: &Parse,
    breaks: &Breaks,
) -> io::Result<()> {
    let mut page = Page::new(Vec::new(rt.alloc()), false);
    put_journal(&mut page, parse, breaks);
    page.checked()?;
    let text = page.into_out();
    write_over(rt, path, &text)
}

/// Steps forward to a position, as far as that can be done.
fn step_to(session: &mut Session, position: usize) {
    for _ in session.position()..position {
        if session.step().is_err() {
            return;
        }
    }
}

/// Follows a line of a journal, where it can be followed.
fn follow(alloc: Global, parse: &mut Parse, breaks: &mut Breaks, line: &str) -> Made<()> {
    let (word, rest) = first_word(line);
    match word {
        "to" => step_to(&mut parse.session, number_of(rest).unwrap_or(0)),
        "insert" => {
            let _ = parse.insert(rest.as_bytes());
        }
        "drop" => {
            let _ = parse.session.drop_next();
        }
        "break" => {
            if let Ok(condition) = condition_of(&parse.session, parse.tokens, rest) {
                breaks.keep(alloc, rest, condition)?;
            }
        }
        _ => {}
    }
    Ok(())
}

/// Goes on where the session was that kept this file, and says whether there was one.
pub fn resume<F: Files + AllocGlobal>(
    rt: &F,
    path: &str,
    parse: &mut Parse,
    breaks: &mut Breaks,
) -> Made<bool> {
    let most = LONGEST_INPUT;
    let Ok(Some(bytes)) = Limited { path, most }.bytes(rt) else {
        return Ok(false);
    };
    let text = str::from_utf8(&bytes).unwrap_or("");
    for line in text.lines() {
        follow(rt.alloc(), parse, breaks, line)?;
    }
    Ok(!text.is_empty())
}
