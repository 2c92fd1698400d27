//! The stepper over a folder and links: a grammar, tokens and command lines in, replies out.

ghost use Rattle.std.specs.Prelude.{IfOk, IfErr, ◌≡◌, Ok};
ghost use Rattle.ylink.specs.Link.{device_of, has_failed};
ghost use Rattle.ysession.specs.Session.{machine_of, history_of};
ghost use Rattle.ytokens.specs.Reading.{TokensOf};
ghost use Rattle.ytokens.specs.Tokens.{Fits, symbols_of};
ghost use Rattle.ystepper.specs.Headline.{Ends, HasTokens, Starts, StartFails, TokensFail};
ghost use Rattle.ystepper.specs.Headline.{reader_failed, writer_failed};

use crate::fault::SessionFault;
use crate::run::run_session;
use std::alloc::Global;
use std::io::{ErrorKind, Read, Write};
use thiserror::Error;
use yfolder::Folder;
use ygenerate::source::{SourceFault, tables_from};
use ysession::Session;
use ytables::{Link, Tables};
use ytokens::{TokenFault, Tokens, read_tokens};

/// Why there is no session over a grammar and tokens, or why it ended early.
#[derive(Debug, Drop, Error)]
pub enum StepperFault {
    /// There are no tables of the grammar.
    #[error("{0}")]
    Source(SourceFault),
    /// The tokens can't be opened or read.
    #[error("cannot read the tokens")]
    Unread,
    /// Memory ran out while the tokens were opened or read.
    #[error("no memory")]
    NoRoom,
    /// The tokens are refused.
    #[error("{0}")]
    Tokens(TokenFault),
    /// A link failed.
    #[error("{0}")]
    Session(SessionFault),
}

/// The tokens of the file at this path.
fn tokens_from<D: Folder>(
    alloc: Global,
    tables: &Tables,
    folder: &mut D,
    tokens: &str,
) -> Result<Tokens, StepperFault>
    ensures tokens { IfOk result (λ found. HasTokens D.reads tokens.now folder.old folder.new
        tables.now (symbols_of found)) }
    ensures fits { IfOk result (λ found. Fits tables.now.built.grammar (symbols_of found)) }
    ensures fails { IfErr result
        (TokensFail D.reads D.unreadable tokens.now folder.old folder.new tables.now) }
{
    match folder.read(alloc, tokens, None) {
        Ok(bytes) => match read_tokens(alloc, tables, &bytes) {
            Ok(tokens) => Ok(tokens),
            Err(fault) => Err(StepperFault::Tokens(fault)),
        },
        Err(error) => match error.kind() {
            ErrorKind::OutOfMemory => Err(StepperFault::NoRoom),
            _ => Err(StepperFault::Unread),
        },
    }
}

/// A session at its start, over a grammar file and a tokens file. The tokens are opened only once
/// there are tables.
fn session_from<D: Folder>(
    alloc: Global,
    folder: &mut D,
    grammar: &str,
    tokens: &str,
) -> Result<Session, StepperFault>
    ensures starts { IfOk result (λ session. Starts D.reads grammar.now tokens.now folder.old
        folder.new (machine_of session) (history_of session)) }
    ensures fails { IfErr result
        (StartFails D.reads D.unreadable grammar.now tokens.now folder.old folder.new) }
{
    let tables = match tables_from(alloc, folder, grammar) {
        Ok(tables) => tables,
        Err(fault) => return Err(StepperFault::Source(fault)),
    };
    match tokens_from(alloc, &tables, folder, tokens) {
        Ok(tokens) => Ok(Session::new(alloc, tables, tokens)),
        Err(fault) => {
            drop(tables);
            Err(fault)
        }
    }
}

/// Steps through the parse of a tokens file by a grammar file: opens and reads both, by their
/// paths, and then serves a session between the links, up to a `quit` or to the end of the input.
///
/// What is written is a text of the machine of the merged canonical LR(1) items of that grammar,
/// which keeps all its past configurations; the forms of what it accepts without error steps are a
/// rightmost derivation of those tokens. A fault of a link is answered exactly where that link
/// failed. With any other fault nothing was read from a link or written to one. The tokens are
/// opened only where there are tables of the grammar; each file is opened once at most.
pub fn step_through<D: Folder, R: Read, W: Write>(
    alloc: Global,
    folder: &mut D,
    grammar: &str,
    tokens: &str,
    reader: &mut Link<R>,
    writer: &mut Link<W>,
) -> Result<(), StepperFault>
    ensures ends { Ends D.reads D.unreadable grammar.now tokens.now folder.old folder.new
        R.remaining W.contents (device_of reader.old) reader.new (device_of writer.old) writer.new
        result }
    ensures read_fault { has_failed reader.new ≡ reader_failed result }
    ensures write_fault { has_failed writer.new ≡ writer_failed result }
{
    reader.clear();
    writer.clear();
    let session = match session_from(alloc, folder, grammar, tokens) {
        Ok(session) => session,
        Err(fault) => return Err(fault),
    };
    match run_session(session, reader, writer) {
        Ok(()) => Ok(()),
        Err(fault) => Err(StepperFault::Session(fault)),
    }
}
