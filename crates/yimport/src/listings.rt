//! Lists of tokens.

use crate::note::Reason;
use crate::refusal::Refusal;
use crate::symbols::{Numbered, Work};
use yforeign::directive::{Directive, is_symbol};
use yforeign::lexeme::{Kind, Lexeme};
use yforeign::numbers::{is_hexadecimal, number_of};
use yforeign::survey::{is_macro, is_text};
use ylexemes::bytes::{is_name_byte, is_name_start};

/// Where a list stands.
#[derive(Clone, Copy)]
struct Place {
    directive: Directive,
    /// The token that a number or a string would belong to.
    token: Option<Lexeme>,
    /// Whether a semicolon has ended it.
    closed: bool,
    /// Whether something but the end is listed.
    stands: bool,
}

/// The word of `yacc` for a directive of this text; the text itself where it has none.
fn written(directive: Directive, text: &[u8]) -> &[u8] {
    match directive {
        Directive::Token | Directive::Term => b"%token",
        Directive::Left => b"%left",
        Directive::Right => b"%right",
        Directive::Nonassoc | Directive::Binary | Directive::Precedence => b"%nonassoc",
        Directive::Type | Directive::Nterm => b"%type",
        Directive::Start => b"%start",
        Directive::Union => b"%union",
        Directive::Prec => b"%prec",
        _ => text,
    }
}

impl Work<'_> {
    /// Keeps a tag: the first of its list, with a name in it.
    pub fn keep_tag(&mut self, lexeme: &Lexeme, is_first: bool) {
        let text = lexeme.text(self.source);
        if !is_first {
            self.edits.take_out(lexeme, Reason::SecondTag);
            return;
        }
        let inner = text.get(1..text.len().saturating_sub(1)).unwrap_or(&[]);
        let is_named = inner.first().map_or(false, |b| is_name_start(*b));
        if is_named && inner.iter().all(|b| is_name_byte(*b)) {
            return self.edits.keep(lexeme);
        }
        let start = self.edits.texts.len();
        self.edits.write(b"<_");
        for b in inner {
            let byte = if is_name_byte(*b) { *b } else { b'_' };
            self.edits.write(&[byte]);
        }
        self.edits.write(b">");
        self.edits.replace(lexeme, start, Reason::OddTag);
    }

    /// Keeps the word of a directive, or writes that of `yacc`.
    pub fn keep_word(&mut self, word: &Lexeme, directive: Directive) {
        let text = word.text(self.source);
        let written = written(directive, text);
        if written == text {
            return self.edits.keep(word);
        }
        let start = self.edits.texts.len();
        self.edits.write(written);
        let reason = match directive {
            Directive::Precedence => Reason::Precedence,
            _ => Reason::OldWord,
        };
        self.edits.replace(word, start, reason);
    }

    /// Keeps the number of a token, where `yacc` can have it.
    fn keep_number(&mut self, place: &Place, lexeme: &Lexeme) {
        let Some(token) = place.token else {
            return self.edits.refuse(Refusal::Misplaced, lexeme);
        };
        let text = lexeme.text(self.source);
        let number = number_of(text);
        if self.is_end(&token) {
            return self.edits.remove(lexeme);
        }
        let reason = self.reason_against_number(&token, number);
        self.note_number(Numbered { token, number }, lexeme, reason.is_none());
        if let Some(reason) = reason {
            self.edits.take_out(lexeme, reason);
        } else if is_hexadecimal(text) {
            let start = self.edits.texts.len();
            let mut digits = itoa::Buffer::new();
            self.edits.write(digits.format(number).as_bytes());
            self.edits.replace(lexeme, start, Reason::HexNumber);
        } else {
            self.edits.keep(lexeme);
        }
    }

    /// Takes out a string that stands for a token; one that stands for none is a token itself.
    fn take_alias(&mut self, place: &mut Place, text: &Lexeme) {
        let Some(token) = place.token else {
            return self.keep_token(place, text);
        };
        place.token = None;
        if self.is_end(&token) {
            self.edits.remove(text);
        } else {
            self.edits.take_out(text, Reason::Alias);
        }
    }

    /// Keeps a token, unless it is the end.
    fn keep_token(&mut self, place: &mut Place, lexeme: &Lexeme) {
        place.token = Some(*lexeme);
        if !self.is_end(lexeme) {
            self.keep_symbol(lexeme);
        } else if place.directive.is_level() {
            self.edits.refuse(Refusal::EndElsewhere, lexeme);
        } else {
            self.edits.take_out(lexeme, Reason::EndListed);
        }
    }

    /// Takes in one lexeme of a list.
    fn import_listed(&mut self, place: &mut Place, rest: &[Lexeme], at: usize, lexeme: &Lexeme) {
        match lexeme.kind {
            Kind::Semicolon => {
                place.closed = true;
                self.edits.take_out(lexeme, Reason::Separator);
            }
            Kind::LineMark => self.edits.take_out(lexeme, Reason::LineMark),
            _ if place.closed => self.edits.refuse(Refusal::Misplaced, lexeme),
            Kind::Comma => {
                place.token = None;
                self.edits.take_out(lexeme, Reason::Separator);
            }
            Kind::Tag if !place.stands => self.edits.remove(lexeme),
            Kind::Tag => {
                place.token = None;
                self.keep_tag(lexeme, at == 0);
            }
            Kind::Number => self.keep_number(place, lexeme),
            Kind::Arguments if is_macro(rest, at.saturating_sub(1)) => self.edits.remove(lexeme),
            Kind::Name if is_macro(rest, at) && place.token.is_some() => {
                self.edits.take_out(lexeme, Reason::MacroNumber);
            }
            Kind::Name if is_macro(rest, at) => self.edits.refuse(Refusal::Misplaced, lexeme),
            kind if is_text(kind) && place.directive.names_tokens() => {
                self.take_alias(place, lexeme);
            }
            kind if is_symbol(kind) => self.keep_token(place, lexeme),
            _ => self.edits.refuse(Refusal::Misplaced, lexeme),
        }
    }

    /// Whether a token is listed, and whether one that isn't the end.
    fn listed(&self, directive: Directive, rest: &[Lexeme]) -> (bool, bool) {
        let mut any = false;
        let mut stands = false;
        let mut has_token = false;
        for (at, lexeme) in rest.iter().enumerate() {
            let is_alias = has_token && directive.names_tokens() && is_text(lexeme.kind);
            let is_token = is_symbol(lexeme.kind) && !is_alias && !is_macro(rest, at);
            any = any || is_token;
            stands = stands || (is_token && !self.is_end(lexeme));
            has_token = match lexeme.kind {
                Kind::Comma | Kind::Tag => false,
                kind if is_text(kind) => is_token,
                _ => true,
            };
        }
        (any, stands)
    }

    /// Takes in a list of tokens, and notes its level. Its word stays where something but the end
    /// stands in it.
    pub fn import_list(&mut self, directive: Directive, word: &Lexeme, rest: &[Lexeme]) {
        let (any, stands) = self.listed(directive, rest);
        if !any {
            return self.edits.refuse(Refusal::NothingListed, word);
        }
        if directive.is_level() {
            let span = (directive == Directive::Precedence).then_some(word.span);
            self.edits.trouble.push(&mut self.levels, span);
        }
        if stands {
            self.keep_word(word, directive);
        } else {
            self.edits.remove(word);
        }
        let mut place = Place {
            directive,
            token: None,
            closed: false,
            stands,
        };
        for (at, lexeme) in rest.iter().enumerate() {
            self.import_listed(&mut place, rest, at, lexeme);
        }
    }
}
