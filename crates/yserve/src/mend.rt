//! Changes of a file that mend something, each tried before it is offered.

use crate::document::{Document, Edit, Mend};
use crate::index::{Mention, Use};
use crate::members::Members;
use serde_json::Value;
use std::alloc::{AllocError, Global};
use std::{io, str};
use ydiagnostics::causes::CauseSheet;
use ydiagnostics::hints::EditSheet;
use yfiles::diagnostic::Diagnostics;
use yforeign::lexeme::Kind;
use yfrontend::import::{Dialect, Foreign, Read, open_grammar};
use yfrontend::notes::Source;

/// What a change does that settles a conflict.
fn title_of(alloc: Global, edit: &EditSheet) -> Result<String, AllocError> {
    let (action, lost) = (edit.action, edit.lost);
    let mut title = format!(in alloc; "choose to {action}:")?;
    for line in edit.text.split('\n') {
        if !line.is_empty() {
            title.push_str(" ")?;
            title.push_str(line)?;
        }
    }
    if let (Some(tried), true) = (edit.tried, lost > 0) {
        title.push_str(&format!(in alloc; " (refuses {lost} of {tried} sentences)")?)?;
    }
    Ok(title)
}

/// A change of one part of a file, of which nothing more is known.
pub fn mend_of(
    alloc: Global,
    (line, title): (usize, String),
    (from, to): (usize, usize),
    text: String,
) -> Result<Mend, AllocError> {
    let mut edits = Vec::new(alloc);
    edits.push(Edit { from, to, text })?;
    Ok(Mend {
        line,
        title,
        edits,
        left: None,
    })
}

impl Document {
    /// Whether a symbol of a body is no nonterminal and no declared token.
    fn is_unknown(&self, mention: Mention) -> bool {
        let Some(first) = self.text.get(mention.span.from) else {
            return false;
        };
        let is_name = first.is_ascii_alphabetic();
        is_name && mention.named == Use::Body && self.index.definition(mention.name).is_none()
    }

    /// Where declarations can be added: before the first mark.
    pub fn mark(&self) -> usize {
        for lexeme in &self.index.lexemes {
            if lexeme.kind == Kind::Mark {
                return lexeme.span.from;
            }
        }
        0
    }

    /// The mend for the symbol at a place: an unknown one is declared; a token that nothing uses is
    /// taken out of its declaration.
    fn mend_at(&self, alloc: Global, at: usize) -> Result<Option<Mend>, AllocError> {
        let Some(mention) = self.index.at(at) else {
            return Ok(None);
        };
        let name = str::from_utf8(self.index.name(mention.name)).unwrap_or("");
        let line = self.position(at).line;
        if self.is_unknown(mention) {
            let mark = self.mark();
            let title = format!(in alloc; "declare {name} as a token")?;
            let text = format!(in alloc; "%token {name}\n")?;
            return Ok(Some(mend_of(alloc, (line, title), (mark, mark), text)?));
        }
        let mut is_used = false;
        for it in &self.index.mentions {
            is_used = is_used || it.name == mention.name && it.named != Use::Token;
        }
        if mention.named == Use::Token && !is_used {
            let title = format!(in alloc; "remove the unused token {name}")?;
            let part = (mention.span.from, mention.span.to);
            return Ok(Some(mend_of(alloc, (line, title), part, String::new(alloc))?));
        }
        Ok(None)
    }

    /// The changes that settle the conflicts of a cause otherwise: at the first rule that loses.
    /// They are lines of precedence, or the copy of a nonterminal.
    fn add_choices(
        &self,
        alloc: Global,
        cause: &CauseSheet,
        choices: &mut Vec<Mend>,
    ) -> Result<(), AllocError> {
        let mut loser = None;
        for rival in &cause.rivals {
            if !rival.taken {
                loser = rival.line;
                break;
            }
        }
        let Some(line) = loser else {
            return Ok(());
        };
        for hint in &cause.hints {
            for edit in &hint.edits {
                let (start, _) = self.line(edit.line.saturating_sub(1));
                let from = start.saturating_add(edit.column.saturating_sub(1));
                let said = (line.saturating_sub(1), title_of(alloc, edit)?);
                let text = String::from_str(alloc, edit.text.as_str())?;
                choices.push(mend_of(alloc, said, (from, from), text)?)?;
            }
        }
        if let Some(split) = &cause.split {
            if let Some(mend) = self.split_mend(alloc, split, line.saturating_sub(1))? {
                choices.push(mend)?;
            }
        }
        Ok(())
    }

    /// The changes that settle conflicts otherwise.
    pub fn choices_of(
        &self,
        alloc: Global,
        causes: &[CauseSheet],
    ) -> Result<Vec<Mend>, AllocError> {
        let mut choices = Vec::new(alloc);
        for cause in causes {
            self.add_choices(alloc, cause, &mut choices)?;
        }
        Ok(choices)
    }

    /// The file once it is changed so.
    fn changed(&self, alloc: Global, edits: &[Edit]) -> Result<Vec<u8>, AllocError> {
        let (mut text, mut at) = (Vec::new(alloc), 0usize);
        for edit in edits {
            text.extend_from_slice(self.text.get(at..edit.from).unwrap_or(&[]))?;
            text.extend_from_slice(edit.text.as_bytes())?;
            at = edit.to;
        }
        text.extend_from_slice(self.text.get(at..).unwrap_or(&[]))?;
        Ok(text)
    }

    /// How many conflicts a file has once it is changed so, where it is a grammar then.
    fn conflicts_with(&self, alloc: Global, mend: &Mend) -> io::Result<Option<usize>> {
        let text = self.changed(alloc, &mend.edits)?;
        let source = Source {
            path: &self.uri,
            bytes: &text,
        };
        let mut told = Diagnostics::new(alloc);
        let opened = match open_grammar(alloc, &mut told, source, Dialect::Seen)? {
            Ok(Read::Plain(opened)) => opened,
            Ok(Read::Foreign(foreign)) => {
                let Foreign { opened, .. } = foreign;
                opened
            }
            Err(_) => return Ok(None),
        };
        let counts = opened.tables.conflicts();
        let count = counts.shift_reduce.saturating_add(counts.reduce_reduce);
        Ok(Some(count as usize))
    }

    /// A change as messages have it.
    fn action(&self, alloc: Global, mend: &Mend) -> Result<Value, AllocError> {
        let mut edits = Vec::new(alloc);
        for edit in &mend.edits {
            edits.push(self.edit(alloc, (edit.from, edit.to), edit.text.as_str())?)?;
        }
        Members::new(alloc)
            .with("edit", self.edits(alloc, edits))
            .with_text("title", mend.title.as_str())
            .with_text("kind", "quickfix")
            .done()
    }

    /// Adds a change, where the file is a grammar with it, which has as many conflicts as are told.
    fn add_mend(&self, alloc: Global, mend: &Mend, found: &mut Vec<Value>) -> io::Result<()> {
        let count = self.conflicts_with(alloc, mend)?;
        if count.is_some() && (mend.left.is_none() || mend.left == count) {
            let action = self.action(alloc, mend)?;
            found.push(action).map_err(AllocError::from)?;
        }
        Ok(())
    }

    /// The changes that are offered at a place.
    pub fn mends(&self, alloc: Global, at: usize) -> io::Result<Value> {
        let (mut found, line) = (Vec::new(alloc), self.position(at).line);
        if let Some(mend) = self.mend_at(alloc, at)? {
            self.add_mend(alloc, &mend, &mut found)?;
        }
        if let Some(mend) = self.empty_mend(alloc, at)? {
            self.add_mend(alloc, &mend, &mut found)?;
        }
        for choice in &self.choices {
            if choice.line == line {
                self.add_mend(alloc, choice, &mut found)?;
            }
        }
        Ok(Value::Array(found))
    }
}
