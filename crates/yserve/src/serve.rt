//! The loop over messages.

use crate::ahead::needless;
use crate::document::Document;
use crate::frame::{Came, next_message, send};
use crate::members::Members;
use crate::server::{Server, Stage};
use crate::wire::{Wrong, answer, message_in, notice, refusal, text_at};
use serde_json::Value;
use std::alloc::{AllocError, Global};
use std::io::{self, BufReader, Read, Write};
use std::rt::Files;

/// Whether the server goes on.
#[derive(Clone, Copy, PartialEq, Eq)]
enum Flow {
    GoesOn,
    Ends,
}

/// Tells what is said of a file.
fn publish<W: Write>(
    alloc: Global,
    out: &mut W,
    document: &Document,
    all: Value,
) -> io::Result<()> {
    let params = Members::new(alloc)
        .with("diagnostics", Ok(all))
        .with("version", Ok(Value::from(document.version.unwrap_or(0))))
        .with_text("uri", document.uri.as_str())
        .done()?;
    let told = notice(alloc, "textDocument/publishDiagnostics", params)?;
    send(alloc, out, &told)
}

/// How far files are looked at.
#[derive(Clone, Copy, PartialEq, Eq)]
enum Depth {
    /// Not.
    Nothing,
    /// Up to their tables, and where their conflicts stand.
    Tables,
    /// Up to what explains their conflicts.
    Whole,
}

/// Looks at each file that was changed, and tells what is said of it: of all files where their
/// conflicts stand, and then of each all, which takes longer.
fn check_all<F: Files + AllocGlobal, W: Write>(
    rt: &F,
    server: &mut Server,
    out: &mut W,
    depth: Depth,
) -> io::Result<()> {
    let alloc = rt.alloc();
    for document in server.documents.iter_mut() {
        if document.is_new && depth != Depth::Nothing {
            let all = document.begin(rt)?;
            publish(alloc, out, document, all)?;
        }
    }
    for document in server.documents.iter_mut() {
        if document.begun.is_some() && depth == Depth::Whole {
            let all = document.explain(alloc)?;
            publish(alloc, out, document, all)?;
        }
    }
    Ok(())
}

/// Answers a request, unless what comes after it makes that needless.
fn reply<F: Files + AllocGlobal, W: Write>(
    rt: &F,
    server: &mut Server,
    out: &mut W,
    (method, id): (&str, &Value),
    (message, ahead): (&Value, &[u8]),
) -> io::Result<()> {
    let alloc = rt.alloc();
    // what has to be known of files to answer
    let depth = match method {
        "textDocument/hover" => Depth::Tables,
        "textDocument/codeAction" => Depth::Whole,
        _ => Depth::Nothing,
    };
    let is_of_file = depth == Depth::Whole;
    let reply = match needless(alloc, ahead, message, is_of_file)? {
        Some(wrong) => refusal(alloc, id, wrong)?,
        None => {
            check_all(rt, server, out, depth)?;
            match server.ask(method, message)? {
                Ok(result) => answer(alloc, id, result)?,
                Err(wrong) => refusal(alloc, id, wrong)?,
            }
        }
    };
    send(alloc, out, &reply)
}

/// Answers a message, or takes in what it tells; these bytes of the input were read after it.
fn obey<F: Files + AllocGlobal, W: Write>(
    rt: &F,
    server: &mut Server,
    out: &mut W,
    (message, ahead): (&Value, &[u8]),
) -> io::Result<Flow> {
    let alloc = rt.alloc();
    let Some(method) = text_at(message, "/method") else {
        // an answer, of which nothing is wanted, or no request
        if message.get("result").is_none() && message.get("error").is_none() {
            send(alloc, out, &refusal(alloc, &Value::Null, Wrong::NoRequest)?)?;
        }
        return Ok(Flow::GoesOn);
    };
    match message.get("id") {
        Some(id) => reply(rt, server, out, (method, id), (message, ahead))?,
        None if method == "exit" => return Ok(Flow::Ends),
        None if server.stage == Stage::Running => {
            if let Some(closed) = server.take(method, message)? {
                publish(alloc, out, &closed, Value::Array(Vec::new(alloc)))?;
            }
        }
        None => {}
    }
    Ok(Flow::GoesOn)
}

/// Takes the next message and answers it; the exit status, where no other is taken after it.
fn serve_next<F: Files + AllocGlobal, R: Read + Drop, W: Write>(
    rt: &F,
    server: &mut Server,
    reader: &mut BufReader<R>,
    out: &mut W,
) -> io::Result<Option<u8>> {
    let alloc = rt.alloc();
    // what has come in is taken in before files are looked at
    if reader.buffer().is_empty() {
        check_all(rt, server, out, Depth::Whole)?;
    }
    let message = match next_message(alloc, reader)? {
        Came::End => return Ok(Some(1)),
        Came::Broken => None,
        Came::Message(bytes) => message_in(alloc, &bytes),
    };
    let Some(message) = &message else {
        send(alloc, out, &refusal(alloc, &Value::Null, Wrong::NoJson)?)?;
        return Ok(None);
    };
    let flow = obey(rt, server, out, (message, reader.buffer()))?;
    let is_asked = server.stage == Stage::Ending;
    Ok(match flow {
        Flow::Ends => Some(u8::from(!is_asked)),
        Flow::GoesOn => None,
    })
}

/// Serves an editor, and gives the exit status: 0 after `shutdown` and `exit`, else 1.
pub fn run_serve<F: Files + AllocGlobal, R: Read + Drop, W: Write>(
    rt: &F,
    input: R,
    out: &mut W,
) -> io::Result<u8> {
    let mut server = Server::new(rt.alloc());
    let mut reader = BufReader::new(rt.alloc(), input)?;
    for _ in 0..usize::MAX {
        if let Some(status) = serve_next(rt, &mut server, &mut reader, out)? {
            return Ok(status);
        }
    }
    Ok(1)
}
