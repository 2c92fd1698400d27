//! Empty bodies that say so.

use crate::document::{Document, Mend};
use crate::index::Rule;
use crate::mend::mend_of;
use std::alloc::Global;
use std::io;
use yexplain::reads::grammar_of;
use yfiles::diagnostic::Diagnostics;
use yforeign::lexeme::Kind;
use yfrontend::import::{Dialect, Read, open_grammar};
use yfrontend::notes::Source;
use yparts::foreign::{Wished, parts_of};
use yskeleton::is_of_bison;

/// The wish for nothing but what the file says.
const NO_WISH: Wished = Wished {
    is_bison: false,
    language: None,
    skeleton: None,
};

impl Document {
    /// Whether the file is a grammar of bison.
    fn is_of_bison(&self, alloc: Global) -> io::Result<bool> {
        let source = Source {
            path: &self.uri,
            bytes: &self.text,
        };
        let mut told = Diagnostics::new(alloc);
        match open_grammar(alloc, &mut told, source, Dialect::Seen)? {
            Ok(Read::Foreign(foreign)) => {
                let grammar = grammar_of(&foreign.opened.tables);
                let parts = parts_of(alloc, &self.text, grammar, &foreign.imported, NO_WISH)?;
                Ok(is_of_bison(&parts))
            }
            _ => Ok(false),
        }
    }

    /// Where the body of a rule begins, if it has no symbol and at most one action, and doesn't say
    /// that it is empty.
    fn empty_body(&self, rule: &Rule) -> Option<usize> {
        let (mut from, mut actions) = (None, 0usize);
        for lexeme in &self.index.lexemes {
            let span = lexeme.span;
            if span.from < rule.from || rule.to <= span.from {
                continue;
            }
            match lexeme.kind {
                Kind::Colon | Kind::Bar if from.is_none() => from = Some(span.to),
                Kind::Braced if actions == 0 => actions = 1,
                Kind::Semicolon => {}
                _ if from.is_none() => {}
                _ => return None,
            }
        }
        from
    }

    /// The mend for the empty body at a place of a file of bison: it says that it is empty.
    pub fn empty_mend(&self, alloc: Global, at: usize) -> io::Result<Option<Mend>> {
        let number = self.index.rule_at(at).unwrap_or(usize::MAX);
        let Some(rule) = self.index.rules.get(number) else {
            return Ok(None);
        };
        let Some(from) = self.empty_body(rule) else {
            return Ok(None);
        };
        if !self.is_of_bison(alloc)? {
            return Ok(None);
        }
        let title = String::from_str(alloc, "say that the body is empty: %empty")?;
        let text = String::from_str(alloc, " %empty")?;
        let line = self.position(at).line;
        Ok(Some(mend_of(alloc, (line, title), (from, from), text)?))
    }
}
