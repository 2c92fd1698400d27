//! What is in the input already after a request, where that makes an answer needless.

use crate::frame::{Came, next_message};
use crate::wire::{Wrong, message_in, text_at};
use serde_json::Value;
use std::alloc::Global;
use std::io::{self, BufReader};

/// The most messages that are looked at.
const MOST_AHEAD: usize = 100;

/// The path of the name of a file.
const URI: &str = "/params/textDocument/uri";

/// What makes an answer needless: that one of the whole messages among these bytes takes the request
/// back, or, where the answer depends on the whole file, that one changes or closes that.
pub fn needless(
    alloc: Global,
    bytes: &[u8],
    request: &Value,
    is_of_file: bool,
) -> io::Result<Option<Wrong>> {
    let mut reader = BufReader::new(alloc, bytes)?;
    for _ in 0..MOST_AHEAD {
        let Came::Message(bytes) = next_message(alloc, &mut reader)? else {
            break;
        };
        let Some(next) = message_in(alloc, &bytes) else {
            continue;
        };
        match text_at(&next, "/method") {
            Some("$/cancelRequest") => {
                let is_meant = match (request.get("id"), next.pointer("/params/id")) {
                    (Some(id), Some(other)) => *id == *other,
                    _ => false,
                };
                if is_meant {
                    return Ok(Some(Wrong::Cancelled));
                }
            }
            Some("textDocument/didChange" | "textDocument/didClose" | "textDocument/didOpen") => {
                let uri = text_at(request, URI);
                if is_of_file && uri.is_some() && uri == text_at(&next, URI) {
                    return Ok(Some(Wrong::Changed));
                }
            }
            _ => {}
        }
    }
    Ok(None)
}
