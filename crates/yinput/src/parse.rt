//! A session with what is known of its files.

use crate::language::{Input, Language};
use crate::text::Text;
use std::alloc::Global;
use std::io::{self, ErrorKind};
use yexplain::lines::Lines;
use yfaults::opening::Opened;
use yparse::machine::{StepFault, StepKind};
use yparse::{Session, Tokens};
use ysymbols::let_go;
use ytables::Tables;

/// A session, the lines of its grammar's file, how many tokens its own file has, and that file,
/// where it is a text.
pub struct Parse {
    /// The session.
    pub session: Session,
    /// Where the rules stand in the grammar file.
    pub lines: Lines,
    /// How many tokens the file has.
    pub tokens: usize,
    /// The text that the tokens were read from, where it was one.
    pub text: Option<Text>,
}

impl Drop for Parse {
    // A call in each owner, which keeps their proofs short.
    fn drop(self) {
        let_go!(self: Parse { session, lines, tokens, text });
    }
}

/// A session over tokens; `None` where one of them is no token of the tables.
pub fn session_of(alloc: Global, tables: Tables, tokens: Tokens) -> Option<Session> {
    if tokens.fits(&tables) {
        Some(Session::new(alloc, tables, tokens))
    } else {
        drop(tables);
        drop(tokens);
        None
    }
}

impl Parse {
    /// A parse of an input of a language, at its start.
    pub fn new(alloc: Global, language: Language, input: Input) -> io::Result<Parse> {
        let Language { opened, .. } = language;
        let Opened { tables, lines } = opened;
        let Input { tokens, text } = input;
        let count = tokens.len();
        match session_of(alloc, tables, tokens) {
            Some(session) => Ok(Parse {
                session,
                lines,
                tokens: count,
                text,
            }),
            None => Err(io::Error::from(ErrorKind::Other)),
        }
    }

    /// The tables and the lines of the grammar file, once the parse is done with.
    pub fn into_opened(self) -> Opened {
        let Parse {
            session,
            lines,
            tokens: _,
            text: _,
        } = self;
        Opened {
            tables: session.into_tables(),
            lines,
        }
    }

    /// The token that these bytes spell comes before the upcoming ones. `None` where they spell
    /// none.
    pub fn insert(&mut self, bytes: &[u8]) -> Result<Option<StepKind>, StepFault> {
        match self.session.token(bytes) {
            Some(token) => self.session.insert(token).map(Some),
            None => Ok(None),
        }
    }
}
