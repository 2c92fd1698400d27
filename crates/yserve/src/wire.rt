//! What stands in messages.

use crate::members::Members;
use serde_json::Value;
use std::alloc::{AllocError, Global};
use std::str;

/// What is wrong with a request, by the number that the protocol has for it.
#[derive(Clone, Copy, Drop)]
pub enum Wrong {
    /// A message is no JSON, or is cut off.
    NoJson,
    /// A message is no request, or one comes when the server was asked to end.
    NoRequest,
    /// The method isn't known.
    NoMethod,
    /// An argument is missing, or names no open file.
    NoArgument,
    /// The server isn't asked to begin yet.
    NotRunning,
    /// The symbol can't be renamed so.
    NoName,
    /// The editor takes the request back.
    Cancelled,
    /// The file was changed since.
    Changed,
}

impl Wrong {
    /// Its number, and a sentence for it.
    fn words(self) -> (i64, &'static str) {
        match self {
            Wrong::NoJson => (-32_700, "the message isn't JSON, or is cut off"),
            Wrong::NoRequest => (-32_600, "no request, or none that can come now"),
            Wrong::NoMethod => (-32_601, "no such method"),
            Wrong::NoArgument => (-32_602, "an argument is missing, or no such file is open"),
            Wrong::NotRunning => (-32_002, "the server isn't initialized"),
            Wrong::NoName => (
                -32_803,
                "that is no name of a symbol, or another symbol has it",
            ),
            Wrong::Cancelled => (-32_800, "the request was cancelled"),
            Wrong::Changed => (-32_801, "the file was changed since"),
        }
    }
}

/// The text that stands at a path of a message.
pub fn text_at<'a>(message: &'a Value, path: &str) -> Option<&'a str> {
    message.pointer(path)?.as_str()
}

/// The number that stands at a path of a message.
pub fn number_at(message: &Value, path: &str) -> Option<usize> {
    usize::try_from(message.pointer(path)?.as_u64()?).ok()
}

/// A message, where it is JSON.
pub fn message_in(alloc: Global, bytes: &[u8]) -> Option<Value> {
    let text = str::from_utf8(bytes).ok()?;
    Value::from_str(alloc, text).ok()
}

/// Whether a text is a URI: a scheme, a colon, and signs that can stand in one.
pub fn is_uri(text: &str) -> bool {
    let mut in_scheme = true;
    for (place, byte) in text.as_bytes().iter().enumerate() {
        let is_first = place == 0;
        let fits = match *byte {
            b'a'..=b'z' | b'A'..=b'Z' => true,
            b':' if in_scheme => !is_first,
            b'0'..=b'9' | b'+' | b'-' | b'.' if in_scheme => !is_first,
            _ if in_scheme => false,
            b'"' | b'<' | b'>' | b'\\' | b'^' | b'`' | b'{' | b'|' | b'}' => false,
            other => other.is_ascii_graphic(),
        };
        if !fits {
            return false;
        }
        in_scheme = in_scheme && *byte != b':';
    }
    !in_scheme
}

/// The answer to a request.
pub fn answer(alloc: Global, id: &Value, found: Value) -> Result<Value, AllocError> {
    Members::new(alloc)
        .with_text("jsonrpc", "2.0")
        .with("result", Ok(found))
        .with("id", id.clone())
        .done()
}

/// The answer to a request with which something is wrong.
pub fn refusal(alloc: Global, id: &Value, wrong: Wrong) -> Result<Value, AllocError> {
    let (number, text) = wrong.words();
    let error = Members::new(alloc)
        .with_text("message", text)
        .with("code", Ok(Value::from(number)));
    Members::new(alloc)
        .with_text("jsonrpc", "2.0")
        .with("error", error.done())
        .with("id", id.clone())
        .done()
}

/// What is told without being asked.
pub fn notice(alloc: Global, method: &str, params: Value) -> Result<Value, AllocError> {
    Members::new(alloc)
        .with_text("jsonrpc", "2.0")
        .with("params", Ok(params))
        .with_text("method", method)
        .done()
}
