//! What the server can do, as it says at first.

use serde_json::Value;
use std::alloc::{AllocError, Global};

/// All of it, up to the way in which columns are counted. The kinds of lexemes have their numbers
/// from 0 on, as `colours` gives them.
const FRONT: &str = r#"{
  "serverInfo": {"name": "ydebug", "version": "1.0.0"},
  "capabilities": {
    "textDocumentSync": {"openClose": true, "change": 2},
    "definitionProvider": true, "referencesProvider": true,
    "documentHighlightProvider": true, "documentSymbolProvider": true,
    "workspaceSymbolProvider": true, "foldingRangeProvider": true,
    "selectionRangeProvider": true, "hoverProvider": true,
    "completionProvider": {"triggerCharacters": ["%", "$"]},
    "renameProvider": {"prepareProvider": true},
    "codeActionProvider": true,
    "semanticTokensProvider": {"full": true, "legend": {
      "tokenTypes": ["enumMember", "function", "keyword", "string", "number", "type"],
      "tokenModifiers": []
    }},
    "positionEncoding": "#;

/// What stands after that.
const BACK: &str = "}}";

/// What the server can do, where it counts columns in the way that has this name.
pub fn capabilities_of(alloc: Global, encoding: &str) -> Result<Value, AllocError> {
    let text = format!(in alloc; "{}\"{encoding}\"{}", FRONT, BACK)?;
    match Value::from_str(alloc, &text) {
        Ok(value) => Ok(value),
        Err(_) => Err(AllocError),
    }
}
