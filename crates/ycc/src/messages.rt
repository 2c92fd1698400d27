//! Messages for errors, as a file of messages has them for `ydebug errors`.

use crate::ending::{Ending, outside, tell};
use crate::words::Given;
use std::alloc::Global;
use yexplain::reads::Made;
use yfiles::diagnostic::Diagnostics;
use yfiles::reading::{LONGEST_INPUT, Limited};
use yfiles::steady::Steady;
use ymessages::messages::Messages;
use ymessages::slots::Slot;
use yparts::options::Errors;
use yskeleton::{Speech, Spoken, Style};
use ytables::Tables;

/// The messages of all states.
fn spoken(alloc: Global, tables: &Tables, messages: &Messages) -> Made<Speech> {
    let states = tables.automaton().states();
    let mut speech = Speech::new(alloc, states)?;
    for state in 0..states {
        if let Some(slots) = messages.slots(alloc, state)? {
            speech.begin(state);
            for slot in &slots {
                speech.add(match *slot {
                    Slot::Text(text) => Spoken::Text(text),
                    Slot::Value(number) => Spoken::Value(number),
                    Slot::Expected => Spoken::Expected,
                });
            }
            speech.add(Spoken::End);
        }
    }
    Ok(speech)
}

/// The messages of a file, by the SPEC that words name. Where it can't be read or is too long, or
/// something is wrong with it, that is said.
fn read_speech(
    rt: &HostRuntime,
    given: &Given<'_>,
    path: &str,
    tables: &Tables,
) -> Result<Speech, Ending> {
    let most = LONGEST_INPUT;
    let file = Limited { path, most };
    let mut errors = Steady::new(rt.stderr(), true);
    let bytes = match file.bytes(rt) {
        Ok(Some(bytes)) => bytes,
        Ok(None) => {
            file.too_long(rt, false)?.put(&mut errors, "ycc")?;
            return Err(Ending::Refused);
        }
        Err(error) => return Err(outside(rt, "read", path, &error)),
    };
    let (about, mut told) = ((given.grammar, tables), Diagnostics::new(rt.alloc()));
    let messages = Messages::by_spec(rt, about, given.spec, (path, bytes), &mut told)?;
    told.put(&mut errors, "ycc")?;
    match messages {
        Ok(messages) => Ok(spoken(rt.alloc(), tables, &messages)?),
        Err(1) => Err(Ending::Refused),
        Err(_) => Err(Ending::Outside),
    }
}

/// The messages that words ask for, where they do. A parser whose user speaks of errors has none.
pub fn speech_of(
    rt: &HostRuntime,
    given: &Given<'_>,
    tables: &Tables,
    style: &Style<'_>,
) -> Result<Option<Speech>, Ending> {
    let Some(path) = given.messages else {
        return Ok(None);
    };
    if style.errors() == Errors::Custom {
        let why = ": with %define parse.error custom no message is said";
        tell(rt, &["ycc: ", path, why]);
        return Err(Ending::Refused);
    }
    Ok(Some(read_speech(rt, given, path, tables)?))
}
