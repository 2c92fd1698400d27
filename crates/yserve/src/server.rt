//! The open files, and what is answered about them.

use crate::capabilities::capabilities_of;
use crate::document::{Document, Encoding, position_at};
use crate::members::Members;
use crate::places::{definition, highlights, references};
use crate::wire::{Wrong, is_uri, number_at, text_at};
use serde_json::Value;
use std::alloc::{AllocError, Global};
use std::io;

/// How far the talk with an editor has come.
#[derive(Clone, Copy, Drop, PartialEq, Eq)]
pub enum Stage {
    /// Nobody has asked it to begin.
    Waiting,
    /// It answers.
    Running,
    /// It was asked to end.
    Ending,
}

/// The open files.
#[derive(Drop)]
pub struct Server {
    /// What allocates.
    pub alloc: Global,
    /// The files.
    pub documents: Vec<Document>,
    /// How columns are counted.
    encoding: Encoding,
    /// The page that says what the codes of faults mean, where the editor names it.
    page: Option<String>,
    /// How far the talk has come.
    pub stage: Stage,
}

/// What a request asks for.
#[derive(Clone, Copy, Drop)]
enum Asks {
    Definition,
    References,
    Highlights,
    Symbols,
    Folds,
    Selections,
    Hover,
    Completion,
    Renaming,
    Rename,
    Colours,
    Mends,
}

/// The requests about one file.
const ASKS: [(&str, Asks); 12] = [
    ("textDocument/definition", Asks::Definition),
    ("textDocument/references", Asks::References),
    ("textDocument/documentHighlight", Asks::Highlights),
    ("textDocument/documentSymbol", Asks::Symbols),
    ("textDocument/foldingRange", Asks::Folds),
    ("textDocument/selectionRange", Asks::Selections),
    ("textDocument/hover", Asks::Hover),
    ("textDocument/completion", Asks::Completion),
    ("textDocument/prepareRename", Asks::Renaming),
    ("textDocument/rename", Asks::Rename),
    ("textDocument/semanticTokens/full", Asks::Colours),
    ("textDocument/codeAction", Asks::Mends),
];

/// What an answer comes to.
pub type Answer = Result<Value, Wrong>;

impl Server {
    /// No files.
    pub fn new(alloc: Global) -> Server {
        Server {
            alloc,
            documents: Vec::new(alloc),
            encoding: Encoding::Units,
            page: None,
            stage: Stage::Waiting,
        }
    }

    /// The place of the file of a message among those that are open.
    fn place(&self, message: &Value) -> Option<usize> {
        let uri = text_at(message, "/params/textDocument/uri")?;
        for (place, document) in self.documents.iter().enumerate() {
            if document.uri.as_str() == uri {
                return Some(place);
            }
        }
        None
    }

    /// Begins, with the first way of counting columns that the editor takes and this knows.
    fn begin(&mut self, message: &Value) -> Result<Value, AllocError> {
        if let Some(Value::Array(ways)) = message.pointer(
            "/params/capabilities/general/positionEncodings",
        ) {
            for way in ways.iter().rev() {
                match way.as_str() {
                    Some("utf-8") => self.encoding = Encoding::Bytes,
                    Some("utf-16") => self.encoding = Encoding::Units,
                    Some("utf-32") => self.encoding = Encoding::Ones,
                    _ => {}
                }
            }
        }
        let page = text_at(message, "/params/initializationOptions/faults").unwrap_or("");
        if is_uri(page) {
            self.page = Some(String::from_str(self.alloc, page)?);
        }
        self.stage = Stage::Running;
        capabilities_of(self.alloc, self.encoding.name())
    }

    /// Opens a file, also one that is open.
    fn open(&mut self, message: &Value) -> Result<(), AllocError> {
        let (Some(uri), Some(text)) = (
            text_at(message, "/params/textDocument/uri"),
            text_at(message, "/params/textDocument/text"),
        ) else {
            return Ok(());
        };
        let mut document = Document::new(self.alloc, uri, text, self.encoding)?;
        document.version = number_at(message, "/params/textDocument/version");
        if let Some(page) = &self.page {
            document.page = Some(String::from_str(self.alloc, page)?);
        }
        match self.place(message) {
            Some(place) => {
                if let Some(old) = self.documents.get_mut(place) {
                    *old = document;
                }
            }
            None => self.documents.push(document)?,
        }
        Ok(())
    }

    /// Changes a file.
    fn change(&mut self, message: &Value) -> Result<(), AllocError> {
        let (alloc, place) = (self.alloc, self.place(message).unwrap_or(usize::MAX));
        if let Some(document) = self.documents.get_mut(place) {
            document.version = number_at(message, "/params/textDocument/version");
            document.change_all(alloc, message)?;
        }
        Ok(())
    }

    /// Takes what is told and wants no answer; what was closed is the answer.
    pub fn take(&mut self, method: &str, message: &Value) -> Result<Option<Document>, AllocError> {
        match method {
            "textDocument/didOpen" => self.open(message)?,
            "textDocument/didChange" => self.change(message)?,
            "textDocument/didClose" => {
                let place = self.place(message).unwrap_or(usize::MAX);
                if place < self.documents.len() {
                    return Ok(Some(self.documents.remove(place)));
                }
            }
            _ => {}
        }
        Ok(None)
    }

    /// The symbols of all open files whose names have the text that is asked for.
    fn all_symbols(&self, message: &Value) -> Result<Value, AllocError> {
        let wanted = text_at(message, "/params/query").unwrap_or("");
        let mut found = Vec::new(self.alloc);
        for document in &self.documents {
            document.add_symbols(self.alloc, wanted, &mut found)?;
        }
        Ok(Value::Array(found))
    }

    /// The answer to a request about a file.
    fn about(&self, asks: Asks, message: &Value) -> io::Result<Answer> {
        let alloc = self.alloc;
        let path = match asks {
            Asks::Mends => "/params/range/start",
            _ => "/params/position",
        };
        let position = position_at(alloc, message, path)?;
        let place = self.place(message).unwrap_or(usize::MAX);
        let Some(document) = self.documents.get(place) else {
            return Ok(Err(Wrong::NoArgument));
        };
        match asks {
            Asks::Symbols => return Ok(Ok(document.symbols(alloc)?)),
            Asks::Folds => return Ok(Ok(document.folds(alloc)?)),
            Asks::Selections => return Ok(Ok(document.selections(alloc, message)?)),
            Asks::Colours => {
                let found = Members::new(alloc).with("data", document.colours(alloc));
                return Ok(Ok(found.done()?));
            }
            _ => {}
        }
        let Some(position) = position else {
            return Ok(Err(Wrong::NoArgument));
        };
        self.at_place(asks, message, document, document.offset(position))
    }

    /// The answer to a request about a place of a file.
    fn at_place(
        &self,
        asks: Asks,
        message: &Value,
        document: &Document,
        at: usize,
    ) -> io::Result<Answer> {
        let alloc = self.alloc;
        Ok(match asks {
            Asks::Definition => Ok(definition(alloc, document, at)?),
            Asks::References => {
                let declared = message.pointer("/params/context/includeDeclaration");
                let declared = declared.and_then(Value::as_bool).unwrap_or(true);
                Ok(references(alloc, document, at, declared)?)
            }
            Asks::Highlights => Ok(highlights(alloc, document, at)?),
            Asks::Hover => Ok(document.hover(alloc, at)?),
            Asks::Completion => Ok(document.completion(alloc, at)?),
            Asks::Renaming => Ok(document.renamed_part(alloc, at)?),
            Asks::Rename => match text_at(message, "/params/newName") {
                Some(new) => document.rename(alloc, at, new)?,
                None => Err(Wrong::NoArgument),
            },
            Asks::Mends => Ok(document.mends(alloc, at)?),
            Asks::Symbols | Asks::Folds | Asks::Selections | Asks::Colours => {
                Err(Wrong::NoArgument)
            }
        })
    }

    /// The answer to a request.
    pub fn ask(&mut self, method: &str, message: &Value) -> io::Result<Answer> {
        match (method, self.stage) {
            ("initialize", Stage::Waiting) => return Ok(Ok(self.begin(message)?)),
            ("initialize", _) => return Ok(Err(Wrong::NoRequest)),
            (_, Stage::Waiting) => return Ok(Err(Wrong::NotRunning)),
            (_, Stage::Ending) => return Ok(Err(Wrong::NoRequest)),
            ("shutdown", _) => {
                self.stage = Stage::Ending;
                return Ok(Ok(Value::Null));
            }
            ("workspace/symbol", _) => return Ok(Ok(self.all_symbols(message)?)),
            _ => {}
        }
        for (name, asks) in &ASKS {
            if *name == method {
                return self.about(*asks, message);
            }
        }
        Ok(Err(Wrong::NoMethod))
    }
}
