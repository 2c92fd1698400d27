//! What is to be said of declarations: of symbols that are declared again, of names that nothing
//! has.

use crate::bodies::tag_in;
use crate::deprecated::{find_in_define, find_in_word};
use crate::finding::{Finding, Seen, What, about_all, warning};
use crate::kinds::Kind;
use yexplain::reads::{Made, is_set, name_of, set};
use yforeign::directive::{Directive, Shape, is_symbol, is_word};
use yforeign::groups::{Group, Head};
use yforeign::lexeme::{Kind as Form, Lexeme};
use yforeign::numbers::is_hexadecimal;
use yforeign::survey::{inside, is_macro, is_text};
use yimport::left_out::{Barren, LeftOut};
use ylalr::{END, ERROR};
use yparts::parts::{Deed, Whose};
use ysymbols::names::{SymbolTable, intern, is_among};
use ysymbols::{Sym, let_go};

/// Declarations while they are gone through.
pub struct Declared<'a> {
    seen: &'a Seen<'a>,
    /// What is found.
    pub found: Vec<Finding<'a>>,
    /// How many names have no rules.
    pub strangers: usize,
    /// Where each symbol was declared.
    declared: Vec<Option<usize>>,
    /// Where each symbol got a tag.
    tagged: Vec<Option<usize>>,
    /// The strings that stand for tokens.
    strings: SymbolTable,
    /// Which symbols have one.
    aliased: Vec<bool>,
    /// The names without rules that were met.
    met: SymbolTable,
    /// The names with a dash that were met.
    dashed: SymbolTable,
    /// The variables that were set.
    defined: SymbolTable,
}

impl Drop for Declared<'_> {
    // A call in each owner, which keeps their proofs short.
    fn drop(self) {
        let_go!(self: Declared {
            seen, found, strangers, declared, tagged, strings, aliased, met, dashed, defined
        });
    }
}

impl<'a> Declared<'a> {
    /// No declarations yet.
    pub fn new(seen: &'a Seen<'a>) -> Made<Declared<'a>> {
        let (alloc, symbols) = (seen.alloc, seen.grammar().symbols());
        Ok(Declared {
            seen,
            found: Vec::new(alloc),
            strangers: 0,
            declared: vec![in alloc; None; symbols]?,
            tagged: vec![in alloc; None; symbols]?,
            strings: SymbolTable::new(alloc),
            aliased: vec![in alloc; false; symbols]?,
            met: SymbolTable::new(alloc),
            dashed: SymbolTable::new(alloc),
            defined: SymbolTable::new(alloc),
        })
    }

    /// Finds what POSIX hasn't among lexemes.
    fn find_foreign(&mut self, lexemes: &[Lexeme]) -> Made<()> {
        let seen = self.seen;
        for lexeme in lexemes {
            let (text, at) = (seen.text(lexeme), lexeme.span.from);
            let what = match lexeme.kind {
                Form::Text | Form::Translated => What::NoString,
                Form::Number if is_hexadecimal(text) => What::NoHexadecimal,
                Form::Name if text.contains(&b'-') && !is_among(&self.dashed, text) => {
                    intern(seen.alloc, &mut self.dashed, text)?;
                    What::NoDash(text)
                }
                _ => continue,
            };
            self.found.push(warning(Kind::Yacc, at, what))?;
        }
        Ok(())
    }

    /// A name that is no symbol of the grammar, so that it has no rules.
    fn find_stranger(&mut self, lexeme: &Lexeme, directive: Directive) -> Made<()> {
        let (text, at) = (self.seen.text(lexeme), lexeme.span.from);
        let mut is_known = is_among(&self.met, text);
        for LeftOut { what, span } in &self.seen.imported.left_out {
            let is_same = self.seen.source.get(span.from..span.to) == Some(text);
            is_known = is_known || (is_same && matches!(what, Barren::Nonterminal));
        }
        if is_known {
            return Ok(());
        }
        intern(self.seen.alloc, &mut self.met, text)?;
        self.strangers = self.strangers.saturating_add(1);
        if directive != Directive::Nterm {
            self.found
                .push(warning(Kind::Other, at, What::NoRules(text)))?;
        }
        if matches!(directive, Directive::Nterm | Directive::Type) {
            let what = What::Nonterminal(text);
            self.found.push(warning(Kind::Other, at, what))?;
        }
        Ok(())
    }

    /// Finds whether a symbol is declared, or has a tag, that was or had one before.
    fn find_again(
        &mut self,
        symbol: Sym,
        lexeme: &Lexeme,
        directive: Directive,
        has_tag: bool,
    ) -> Made<()> {
        let (name, at) = (self.seen.text(lexeme), lexeme.span.from);
        if directive.names_tokens() || directive == Directive::Nterm {
            let before = self.declared.get(symbol).copied().flatten();
            if before.is_some() {
                let what = What::Redeclared(name);
                let again = warning(Kind::Other, at, what);
                self.found.push(Finding { before, ..again })?;
            } else {
                set(&mut self.declared, symbol, Some(at));
            }
        }
        if has_tag {
            let before = self.tagged.get(symbol).copied().flatten();
            if before.is_some() {
                self.found.push(Finding {
                    kind: None,
                    at: Some(at),
                    what: What::Retagged(name),
                    before,
                })?;
            } else {
                set(&mut self.tagged, symbol, Some(at));
            }
        }
        Ok(())
    }

    /// Finds a string that stands for no token, where it stands first.
    fn find_loose(&mut self, lexeme: &Lexeme) -> Made<()> {
        let (seen, at) = (self.seen, lexeme.span.from);
        let text = inside(seen.source, lexeme);
        let is_made = seen.imported.spelling.is_made(seen.source, lexeme);
        if !is_made || is_among(&self.strings, text) {
            return Ok(());
        }
        let what = What::Loose(seen.text(lexeme));
        self.found.push(warning(Kind::DanglingAlias, at, what))?;
        intern(seen.alloc, &mut self.strings, text)
    }

    /// Finds what is to be said of a symbol of a list.
    fn find_symbol(&mut self, lexeme: &Lexeme, directive: Directive, has_tag: bool) -> Made<()> {
        let seen = self.seen;
        let at = lexeme.span.from;
        if is_text(lexeme.kind) {
            self.find_loose(lexeme)?;
        }
        let Some(symbol) = seen.symbol(lexeme)? else {
            return match lexeme.kind {
                Form::Name => self.find_stranger(lexeme, directive),
                _ => Ok(()),
            };
        };
        if directive == Directive::Type && seen.grammar().is_token(symbol) {
            self.found.push(warning(Kind::Yacc, at, What::TypedToken))?;
        }
        self.find_again(symbol, lexeme, directive, has_tag)
    }

    /// Finds what is to be said of a string after a token.
    fn find_string(&mut self, token: &Lexeme, lexeme: &Lexeme) -> Made<()> {
        let (seen, at) = (self.seen, lexeme.span.from);
        let text = inside(seen.source, lexeme);
        let symbol = seen.symbol(token)?.unwrap_or(0);
        if is_among(&self.strings, text) {
            let what = What::SecondString(seen.text(lexeme));
            self.found.push(warning(Kind::Other, at, what))?;
        } else if is_set(&self.aliased, symbol) {
            let what = What::SecondAlias(seen.text(token));
            self.found.push(warning(Kind::Other, at, what))?;
            let loose = What::Loose(seen.text(lexeme));
            self.found.push(warning(Kind::DanglingAlias, at, loose))?;
        }
        set(&mut self.aliased, symbol, true);
        intern(seen.alloc, &mut self.strings, text)
    }

    /// Finds what is to be said of a list of symbols.
    fn find_in_list(&mut self, lexemes: &[Lexeme], directive: Directive) -> Made<()> {
        let mut has_tag = false;
        let mut token: Option<Lexeme> = None;
        for (number, lexeme) in lexemes.iter().enumerate() {
            let kind = lexeme.kind;
            let before = token.filter(|_| is_text(kind) && directive.names_tokens());
            if let Some(before) = before {
                self.find_string(&before, lexeme)?;
                token = None;
            } else if kind == Form::Comma {
                self.found
                    .push(warning(Kind::Other, lexeme.span.from, What::Comma))?;
            } else if kind == Form::Tag {
                has_tag = true;
            } else if is_symbol(kind) && !is_macro(lexemes, number) {
                self.find_symbol(lexeme, directive, has_tag)?;
                token = Some(*lexeme);
            }
        }
        Ok(())
    }

    /// Finds what is to be said of code for values: whether a symbol has these.
    fn find_in_code(&mut self, word: &Lexeme, lexemes: &[Lexeme]) -> Made<()> {
        let seen = self.seen;
        let directive = seen.text(word);
        for lexeme in lexemes {
            let (text, at) = (seen.text(lexeme), lexeme.span.from);
            let what = match lexeme.kind {
                Form::Comma => What::Comma,
                Form::Tag => match tag_in(text) {
                    b"" | b"*" if seen.has_use(directive, text == b"<*>".as_slice()) => continue,
                    b"" | b"*" => What::IdleCode(directive, text),
                    tag if seen.has_tag(tag) => continue,
                    _ => What::NoSymbol(text),
                },
                kind if is_symbol(kind) => {
                    self.find_symbol(lexeme, Directive::Unknown, false)?;
                    continue;
                }
                _ => continue,
            };
            self.found.push(warning(Kind::Other, at, what))?;
        }
        Ok(())
    }

    /// Finds what is to be said of a declaration.
    fn find_in(&mut self, directive: Directive, lexemes: &'a [Lexeme]) -> Made<()> {
        let Some((word, rest)) = lexemes.split_first() else {
            return Ok(());
        };
        let seen = self.seen;
        find_in_word(seen, lexemes, &mut self.found)?;
        match directive {
            Directive::Define => {
                find_in_define(seen, lexemes, &mut self.defined, &mut self.found)?;
                self.find_foreign(rest.get(1..).unwrap_or(&[]))
            }
            Directive::Type | Directive::Nterm => {
                self.find_foreign(rest)?;
                self.find_in_list(rest, directive)
            }
            directive if directive.lists_tokens() => {
                self.find_foreign(rest)?;
                self.find_in_list(rest, directive)
            }
            Directive::ExpectReduce => {
                let what = What::ExpectReduce;
                self.found.push(about_all(Kind::Other, what))?;
                Ok(())
            }
            Directive::Aside(Shape::BracesAndSymbols) => self.find_in_code(word, rest),
            _ => self.find_foreign(rest),
        }
    }

    /// Finds what is to be said of a body: of its strings, its words and its tags.
    fn find_in_body(&mut self, lexemes: &'a [Lexeme]) -> Made<()> {
        let seen = self.seen;
        self.find_foreign(lexemes)?;
        let mut has_tag = false;
        for (number, lexeme) in lexemes.iter().enumerate() {
            let (text, at) = (seen.text(lexeme), lexeme.span.from);
            let is_typed = has_tag;
            has_tag = lexeme.kind == Form::Tag;
            match lexeme.kind {
                Form::Word => {
                    let rest = lexemes.get(number..).unwrap_or(&[]);
                    find_in_word(seen, rest, &mut self.found)?;
                }
                Form::Braced if is_typed => self
                    .found
                    .push(warning(Kind::Yacc, at, What::TypedAction))?,
                kind if is_text(kind) => self.find_loose(lexeme)?,
                _ => {}
            }
        }
        Ok(())
    }

    /// Finds what is to be said of a group.
    pub fn find(&mut self, group: &Group<'a>) -> Made<()> {
        match group.head {
            Head::Word(directive) => self.find_in(directive, group.lexemes),
            Head::Left | Head::Bar => self.find_in_body(group.lexemes),
            _ => Ok(()),
        }
    }
}

impl Seen<'_> {
    /// Whether a symbol has a tag.
    fn has_tag(&self, tag: &[u8]) -> bool {
        for looks in &self.parts.looks {
            if looks.tag == Some(tag) {
                return true;
            }
        }
        false
    }

    /// Whether code for all symbols with tags, or for all without, is that of a symbol: one that the
    /// file names, that isn't `error` and has no code of its own, nor by its tag.
    fn has_use(&self, directive: &[u8], is_tagged: bool) -> bool {
        let deed = match is_word(directive, "%destructor") {
            true => Deed::Destroy,
            false => Deed::Print,
        };
        for symbol in 0..self.grammar().symbols() {
            let tag = self.parts.tag_of(symbol);
            let is_named = match symbol {
                END => !self.parts.ends.is_empty(),
                ERROR => false,
                _ => !name_of(self.grammar(), symbol).starts_with(b"$"),
            };
            if is_named && tag.is_some() == is_tagged && !self.has_own(deed, symbol) {
                return true;
            }
        }
        false
    }

    /// Whether a symbol has code of its own, or by its tag.
    fn has_own(&self, deed: Deed, symbol: Sym) -> bool {
        for care in &self.parts.cares {
            let is_own = match care.whose {
                Whose::Symbol(own) => own == symbol,
                Whose::Tag(tag) => self.parts.tag_of(symbol) == Some(tag),
                Whose::Tagged | Whose::Untagged => false,
            };
            if is_own && care.deed == deed {
                return true;
            }
        }
        false
    }
}
