//! A grammar with what cuts texts into its tokens, and the inputs that it reads.

use crate::fault::{Fault, What};
use crate::grammars::{GrammarFile, GrammarText, open_told};
use crate::spec::read_lexer;
use crate::spelled::{Spelled, Spoken};
use crate::text::Text;
use std::alloc::Global;
use std::io::{self, ErrorKind, Write};
use std::rt::Files;
use yexplain::reads::grammar_of;
use yfaults::opening::Opened;
use yfiles::diagnostic::Diagnostics;
use yfiles::reading::Limited;
use ylex::fault::TextFault;
use ylex::lexer::{Lexed, Lexer};
use ylex::writer::Writer;
use yparse::{TokenFault, Tokens, read_tokens};

/// The files of a language.
#[derive(Clone, Copy)]
pub struct LanguageFiles<'a> {
    /// The grammar file.
    pub grammar: GrammarFile<'a>,
    /// The path of the SPEC by which texts are cut; without one, inputs are tokens files.
    pub spec: Option<&'a str>,
}

/// A grammar that is open, and what cuts its texts, where a SPEC is given.
#[derive(Drop)]
pub struct Language {
    /// The tables, and where things stand in the grammar file.
    pub opened: Opened,
    /// What its tokens are called: by the grammar file, or else by the SPEC.
    pub spelled: Spelled,
    /// What cuts its texts, where inputs are texts.
    pub lexer: Option<Lexer>,
}

/// An input as tokens.
#[derive(Drop)]
pub struct Input {
    /// Its tokens.
    pub tokens: Tokens,
    /// The text from which they were cut; `None` for a tokens file.
    pub text: Option<Text>,
}

/// An input with its text.
fn with_text(alloc: Global, lexed: Lexed, path: &str, bytes: Vec<u8>) -> io::Result<Input> {
    let Lexed {
        tokens,
        places,
        ends,
    } = lexed;
    let path = format!(in alloc; "{path}")?;
    let text = Text {
        path,
        bytes,
        places,
        ends,
    };
    Ok(Input {
        tokens,
        text: Some(text),
    })
}

impl Language {
    /// Opens a grammar file, and the SPEC for it. Where one is refused, that is said, and the exit
    /// status is the answer.
    pub fn open_told<F: Files + AllocGlobal>(
        rt: &F,
        files: LanguageFiles<'_>,
        told: &mut Diagnostics,
    ) -> io::Result<Result<Language, u8>> {
        let text = match open_told(rt, files.grammar, told)? {
            Ok(text) => text,
            Err(status) => return Ok(Err(status)),
        };
        let GrammarText {
            opened,
            spelled,
            ..
        } = text;
        let (alloc, grammar) = (rt.alloc(), grammar_of(&opened.tables));
        let Some(spec) = files.spec else {
            let spelled = spelled.with_usual(alloc, grammar)?;
            return Ok(Ok(Language {
                opened,
                spelled,
                lexer: None,
            }));
        };
        let lexer = match read_lexer(rt, &opened.tables, spec)? {
            Ok(lexer) => lexer,
            Err(fault) => return fault.tell(rt, told, files.grammar, &opened).map(Err),
        };
        let texts = lexer.texts(alloc, grammar)?;
        let spelled = spelled.with_texts(alloc, &texts)?;
        let spelled = spelled.with_usual(alloc, grammar)?;
        Ok(Ok(Language {
            opened,
            spelled,
            lexer: Some(lexer),
        }))
    }

    /// Opens both. What is said of them is written; where one is refused, the exit status is the
    /// answer.
    pub fn open<F: Files + AllocGlobal, E: Write>(
        rt: &F,
        files: LanguageFiles<'_>,
        errors: &mut E,
    ) -> io::Result<Result<Language, u8>> {
        let mut told = Diagnostics::new(rt.alloc());
        let opened = Language::open_told(rt, files, &mut told)?;
        told.put(errors, "ydebug")?;
        Ok(opened)
    }

    /// The symbols of the grammar as people write them.
    pub fn spoken(&self) -> Spoken<'_> {
        Spoken {
            grammar: grammar_of(&self.opened.tables),
            spelled: Some(&self.spelled),
        }
    }

    /// The grammar, and what writes texts of the language, where a SPEC is given.
    pub fn into_writing(self, alloc: Global) -> io::Result<(Opened, Option<Writer>)> {
        let Language { opened, lexer, .. } = self;
        let writer = match lexer {
            Some(lexer) => Some(Writer::new(alloc, grammar_of(&opened.tables), lexer)?),
            None => None,
        };
        Ok((opened, writer))
    }

    /// The tokens of an input of which this was read, or why it has none.
    pub fn input_of(
        &self,
        alloc: Global,
        file: Limited<'_>,
        bytes: io::Result<Option<Vec<u8>>>,
    ) -> io::Result<Result<Input, Fault>> {
        let bytes = match Fault::of_reading(alloc, file, What::Long, bytes)? {
            Ok(bytes) => bytes,
            Err(fault) => return Ok(Err(fault)),
        };
        let tables = &self.opened.tables;
        let what = match &self.lexer {
            Some(lexer) => match lexer.lex(alloc, grammar_of(tables), &bytes) {
                Ok(lexed) => return with_text(alloc, lexed, file.path, bytes).map(Ok),
                Err(TextFault::Unmatched(at)) => What::Unmatched(at),
                Err(TextFault::TooMany(at)) => What::TooMany(at),
                Err(TextFault::Memory) => return Err(io::Error::from(ErrorKind::OutOfMemory)),
            },
            None => match read_tokens(alloc, tables, &bytes) {
                Ok(tokens) => return Ok(Ok(Input { tokens, text: None })),
                Err(TokenFault::Memory) => return Err(io::Error::from(ErrorKind::OutOfMemory)),
                Err(fault) => What::Tokens(fault),
            },
        };
        Ok(Err(Fault::new(alloc, file, bytes, what)?))
    }

    /// The tokens of an input, or why it has none.
    pub fn read<F: Files + AllocGlobal>(
        &self,
        rt: &F,
        file: Limited<'_>,
    ) -> io::Result<Result<Input, Fault>> {
        self.input_of(rt.alloc(), file, file.bytes(rt))
    }
}
