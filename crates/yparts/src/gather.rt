//! The parts of a foreign file while they are gathered.

use crate::parts::{By, Defined, Mention, Named, Parts, Piece};
use crate::refusal::Refused;
use std::alloc::Global;
use yexplain::reads::Made;
use yforeign::directive::is_word;
use yforeign::lexeme::{Kind, Lexeme};
use yforeign::numbers::is_hexadecimal;
use yforeign::survey::is_text;
use yimport::import::Imported;
use ysymbols::{Grammar, Sym, let_go};

/// A file whose parts are gathered.
pub struct Gather<'a, 'b> {
    /// The allocator.
    pub alloc: Global,
    /// The file.
    pub source: &'a [u8],
    /// The grammar of what it became.
    pub grammar: &'b Grammar,
    /// Its import.
    pub imported: &'b Imported,
    /// What is found.
    pub parts: Parts<'a>,
    /// The actions found.
    pub actions: Vec<Piece<'a>>,
    /// The tag that each gives itself, which counts for inner ones.
    pub action_tags: Vec<Option<&'a [u8]>>,
    /// The name of the left side.
    pub left: Named<'a>,
    /// The variables that the file defines.
    pub defined: Vec<Defined<'a>>,
    /// Where literals stand.
    pub literals: Vec<usize>,
    /// Code for values that had some.
    pub second: Vec<Refused<'a>>,
}

impl Drop for Gather<'_, '_> {
    // A call in each owner, which keeps their proofs short.
    fn drop(self) {
        let_go!(self: Gather {
            alloc, source, grammar, imported, parts, actions, action_tags, left, defined, literals,
            second
        });
    }
}

/// Adds a name of the end that isn't there yet.
fn add_end<'a>(ends: &mut Vec<&'a [u8]>, name: &'a [u8]) -> Made<()> {
    for end in ends.iter() {
        if *end == name {
            return Ok(());
        }
    }
    ends.push(name)?;
    Ok(())
}

impl<'a, 'b> Gather<'a, 'b> {
    /// The text of a lexeme.
    pub fn piece(&self, lexeme: &Lexeme) -> Piece<'a> {
        Piece {
            text: lexeme.text(self.source),
            at: lexeme.span.from,
            line: lexeme.span.line,
        }
    }

    /// Notes why no parser is made.
    pub fn refuse(&mut self, refused: Refused<'a>) -> Made<()> {
        self.parts.refused.push(refused)?;
        Ok(())
    }

    /// The symbol that a lexeme names.
    pub fn symbol(&self, lexeme: &Lexeme) -> Made<Option<Sym>> {
        let spelling = &self.imported.spelling;
        spelling.symbol(self.alloc, self.source, self.grammar, lexeme)
    }

    /// Notes whether a lexeme of a list or of a body is one that byacc doesn't take: a name with a
    /// dash or in brackets, a hexadecimal number, that of a macro, a string that is translated; in
    /// a body the tag of an action, and each directive but `%prec`.
    pub fn see_lexeme(&mut self, lexeme: &Lexeme, in_body: bool) {
        let text = lexeme.text(self.source);
        let is_foreign = match lexeme.kind {
            Kind::Name => text.contains(&b'-'),
            Kind::Number => is_hexadecimal(text),
            Kind::Arguments | Kind::Translated | Kind::Reference => true,
            Kind::Tag => in_body,
            Kind::Word => in_body && !is_word(text, "%prec"),
            _ => false,
        };
        self.parts.options.is_bison = self.parts.options.is_bison || is_foreign;
    }

    /// Notes what a file says of a symbol by naming it below a tag or without one: of the end that
    /// it is a name of it. Names of tokens in their lists are mentioned so. Gives the symbol.
    pub fn see_symbol(
        &mut self,
        lexeme: &Lexeme,
        tag: Option<&'a [u8]>,
        named: By,
    ) -> Made<Option<Sym>> {
        let text = lexeme.text(self.source);
        let Some(symbol) = self.symbol(lexeme)? else {
            return Ok(None);
        };
        let by = if is_text(lexeme.kind) {
            By::Text
        } else {
            named
        };
        self.parts.mentioned.push(Mention { symbol, by })?;
        if symbol == 0 && lexeme.kind == Kind::Name {
            add_end(&mut self.parts.ends, text)?;
        }
        let is_made = self.imported.spelling.is_made(self.source, lexeme);
        if let Some(looks) = self.parts.looks.get_mut(symbol) {
            looks.tag = tag.or(looks.tag);
            looks.is_made = looks.is_made || is_made;
            if matches!(lexeme.kind, Kind::Literal | Kind::ByteLiteral) {
                looks.label = Some(text);
            }
        }
        if matches!(lexeme.kind, Kind::Literal | Kind::ByteLiteral) {
            self.literals.push(lexeme.span.from)?;
        }
        Ok(Some(symbol))
    }

    /// Notes the strings that the file has for symbols.
    pub fn label_all(&mut self) -> Made<()> {
        let source = self.source;
        let spelling = &self.imported.spelling;
        let strings = spelling.strings(self.alloc, source, self.grammar)?;
        for (symbol, string) in strings.iter().enumerate() {
            if let (Some(looks), Some(string)) = (self.parts.looks.get_mut(symbol), string) {
                looks.label = Some(string.text(source));
            }
        }
        Ok(())
    }
}
