//! What the names and strings of a file are.

use crate::directive::{Directive, is_symbol};
use crate::groups::{Group, Head};
use crate::lexeme::{Kind, Lexeme};
use crate::numbers::number_of;
use std::alloc::{AllocError, Global};
use std::collections::HashMap;
use ysymbols::let_go;
use ysymbols::names::{SymbolTable, intern, is_among};

/// A string that stands for a token.
#[derive(Clone, Copy)]
pub struct Alias {
    /// The token.
    pub token: Lexeme,
    /// The string.
    pub text: Lexeme,
}

/// What a file says of its symbols.
pub struct Survey {
    /// All names.
    pub names: SymbolTable,
    /// What is listed as a token.
    pub tokens: SymbolTable,
    /// The left sides of rules.
    pub lefts: SymbolTable,
    /// What stands in bodies.
    pub used: SymbolTable,
    /// The names of the end.
    ends: SymbolTable,
    /// The strings that stand for tokens, by what is between their quotes.
    pub aliases: HashMap<Vec<u8>, Alias>,
    /// What `%start` names.
    start: Option<Lexeme>,
    /// The first left side.
    first: Option<Lexeme>,
}

impl Drop for Survey {
    // A call in each owner, which keeps their proofs short.
    fn drop(self) {
        let_go!(self: Survey { names, tokens, lefts, used, ends, aliases, start, first });
    }
}

/// What stands between the quotes of a string.
pub fn inside<'a>(source: &'a [u8], lexeme: &Lexeme) -> &'a [u8] {
    let text = lexeme.text(source);
    let (before, after) = match lexeme.kind {
        Kind::Translated => (3, 2),
        _ => (1, 1),
    };
    text.get(before..text.len().saturating_sub(after))
        .unwrap_or(&[])
}

/// A string with its quotes.
pub fn with_quotes<'a>(source: &'a [u8], lexeme: &Lexeme) -> &'a [u8] {
    let text = lexeme.text(source);
    match lexeme.kind {
        Kind::Translated => text.get(2..text.len().saturating_sub(1)).unwrap_or(&[]),
        _ => text,
    }
}

/// Whether a lexeme is a string.
pub fn is_text(kind: Kind) -> bool {
    kind == Kind::Text || kind == Kind::Translated
}

/// Whether the lexeme at a place is the name of a macro: arguments follow.
pub fn is_macro(lexemes: &[Lexeme], at: usize) -> bool {
    let next = lexemes.get(at.saturating_add(1));
    let kind = lexemes.get(at).map(|lexeme| lexeme.kind);
    kind == Some(Kind::Name) && next.map(|next| next.kind) == Some(Kind::Arguments)
}

/// Takes the names among lexemes into a table.
fn intern_names(
    alloc: Global,
    table: &mut SymbolTable,
    source: &[u8],
    lexemes: &[Lexeme],
) -> Result<(), AllocError> {
    for lexeme in lexemes {
        if lexeme.kind == Kind::Name {
            intern(alloc, table, lexeme.text(source))?;
        }
    }
    Ok(())
}

impl Survey {
    /// What is known of a file before it is read: nothing.
    pub fn new(alloc: Global) -> Survey {
        Survey {
            names: SymbolTable::new(alloc),
            tokens: SymbolTable::new(alloc),
            lefts: SymbolTable::new(alloc),
            used: SymbolTable::new(alloc),
            ends: SymbolTable::new(alloc),
            aliases: HashMap::new(alloc),
            start: None,
            first: None,
        }
    }

    /// Takes in what a file of these groups says.
    pub fn fill(
        &mut self,
        alloc: Global,
        source: &[u8],
        groups: &[Group<'_>],
    ) -> Result<(), AllocError> {
        intern(alloc, &mut self.ends, b"YYEOF")?;
        intern(alloc, &mut self.tokens, b"error")?;
        for group in groups {
            self.take(alloc, source, group)?;
        }
        Ok(())
    }

    /// Takes in a group.
    fn take(&mut self, alloc: Global, source: &[u8], group: &Group<'_>) -> Result<(), AllocError> {
        intern_names(alloc, &mut self.names, source, group.lexemes)?;
        match group.head {
            Head::Word(directive) if directive.lists_tokens() => {
                self.take_list(alloc, source, directive, group.lexemes)
            }
            Head::Word(Directive::Start) => {
                self.start = group.lexemes.get(1).copied();
                Ok(())
            }
            Head::Left => {
                let Some((left, body)) = group.lexemes.split_first() else {
                    return Ok(());
                };
                self.first = self.first.or(Some(*left));
                intern(alloc, &mut self.lefts, left.text(source))?;
                intern_names(alloc, &mut self.used, source, body)
            }
            Head::Bar => intern_names(alloc, &mut self.used, source, group.lexemes),
            _ => Ok(()),
        }
    }

    /// Takes in a list of tokens.
    fn take_list(
        &mut self,
        alloc: Global,
        source: &[u8],
        directive: Directive,
        lexemes: &[Lexeme],
    ) -> Result<(), AllocError> {
        let mut last: Option<Lexeme> = None;
        for (at, lexeme) in lexemes.iter().enumerate().skip(1) {
            match (lexeme.kind, last) {
                (Kind::Number, Some(token)) if number_of(lexeme.text(source)) == 0 => {
                    intern(alloc, &mut self.ends, token.text(source))?;
                }
                (Kind::Number, Some(_)) | (Kind::Arguments, _) => {}
                (Kind::Text | Kind::Translated, Some(token)) if directive.names_tokens() => {
                    let key = Vec::from_slice(alloc, inside(source, lexeme))?;
                    let text = *lexeme;
                    self.aliases.insert(key, Alias { token, text })?;
                    last = None;
                }
                (kind, _) if is_symbol(kind) && !is_macro(lexemes, at) => {
                    intern(alloc, &mut self.tokens, lexeme.text(source))?;
                    last = Some(*lexeme);
                }
                (Kind::Name, _) => {}
                _ => last = None,
            }
        }
        Ok(())
    }

    /// The token that a string stands for.
    pub fn alias(&self, source: &[u8], text: &Lexeme) -> Option<Lexeme> {
        let alias = self.aliases.get(inside(source, text));
        alias.map(|alias| alias.token)
    }

    /// Whether a symbol is the end.
    pub fn is_end(&self, source: &[u8], lexeme: &Lexeme) -> bool {
        if !is_text(lexeme.kind) {
            return is_among(&self.ends, lexeme.text(source));
        }
        let token = self.alias(source, lexeme);
        token.map_or(false, |token| is_among(&self.ends, token.text(source)))
    }

    /// The start symbol: what `%start` names, or the first left side.
    pub fn start_symbol(&self) -> Option<Lexeme> {
        self.start.or(self.first)
    }
}
