//! Both files again: a new parse, and the steps and edits of the old one in it.

use crate::refusal::{Refusal, fault_words, put_refusal};
use std::io::{self, Write};
use std::mem;
use std::rt::Files;
use yexplain::reads::grammar_of;
use yinput::Parse;
use yinput::source::Source;
use yparse::machine::{StepFault, StepKind};
use yview::page::Page;
use yview::reading::name_of;

/// Why the past isn't made again.
#[derive(Clone, Copy)]
enum Stopped {
    /// A step or an edit was refused.
    Fault(StepFault),
    /// A token that was inserted isn't one of the new grammar.
    NoToken,
}

/// Makes the steps and edits of the old parse in the new one.
fn redo(parse: &mut Parse, old: &Parse) -> Result<(), Stopped> {
    let grammar = grammar_of(old.session.tables());
    for index in 0..old.session.position() {
        let Some(kind) = old.session.kind_at(index) else {
            continue;
        };
        let made = match kind {
            StepKind::Insert(token) => parse.insert(name_of(grammar, token).as_bytes()),
            StepKind::Drop(_) => parse.session.drop_next().map(Some),
            _ => parse.session.step().map(Some),
        };
        match made {
            Ok(Some(_)) => {}
            Ok(None) => return Err(Stopped::NoToken),
            Err(fault) => return Err(Stopped::Fault(fault)),
        }
    }
    Ok(())
}

/// Puts the new parse in the place of the old one, once its steps and edits are made again, and
/// says where it came to; without memory for them, the old one stays.
fn replace<W: Write>(page: &mut Page<W>, parse: &mut Parse, fresh: Parse) {
    let mut fresh = fresh;
    let why = match redo(&mut fresh, parse) {
        Err(Stopped::Fault(StepFault::Memory)) => return put_refusal(page, Refusal::Memory),
        Err(Stopped::Fault(fault)) => Some(fault_words(fault, fresh.session.view().mode())),
        Err(Stopped::NoToken) => Some("The grammar has no longer the token that was inserted."),
        Ok(()) => None,
    };
    let (wanted, position) = (parse.session.position(), fresh.session.position());
    let _ = write!(
        page,
        "Both files are read again; the position is {position}"
    );
    let _ = match why {
        Some(why) => writeln!(page, " and not {wanted}.\n{why}"),
        None => writeln!(page, ", as before."),
    };
    mem::swap(parse, &mut fresh);
}

/// Reads both files again. Where one is refused, that is said, and the old parse stays.
pub fn reload<F: Files + AllocGlobal, W: Write>(
    page: &mut Page<W>,
    parse: &mut Parse,
    source: &Source<'_, F>,
) -> io::Result<()> {
    match source.open(page)? {
        Ok(fresh) => replace(page, parse, fresh),
        Err(_) => page.line("The parse is as it was."),
    }
    Ok(())
}
