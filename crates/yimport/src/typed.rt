//! Lists of nonterminals with a tag.

use crate::note::Reason;
use crate::refusal::Refusal;
use crate::symbols::Work;
use yforeign::directive::{Directive, is_symbol};
use yforeign::lexeme::{Kind, Lexeme};
use ysymbols::names::is_among;

impl Work<'_> {
    /// Why a symbol can't stand in such a list, where it can't.
    fn reason_against(&self, lexeme: &Lexeme) -> Option<Reason> {
        let name = lexeme.text(self.source);
        if lexeme.kind != Kind::Name || is_among(&self.survey.tokens, name) || self.is_end(lexeme) {
            Some(Reason::TypedToken)
        } else if is_among(&self.survey.lefts, name) {
            None
        } else {
            Some(Reason::TypedUnknown)
        }
    }

    /// Takes out a whole declaration, with a word for all of it.
    pub fn take_all(&mut self, word: &Lexeme, rest: &[Lexeme], reason: Reason) {
        self.edits.take_out(word, reason);
        for lexeme in rest {
            self.edits.remove(lexeme);
        }
    }

    /// Refuses what stands in a declaration where it can't, or after its semicolon.
    pub fn refuse_others(&mut self, rest: &[Lexeme], directive: Directive) {
        let mut closed = false;
        for lexeme in rest {
            let is_end = matches!(lexeme.kind, Kind::Semicolon | Kind::LineMark);
            let fits = match directive {
                Directive::Type | Directive::Nterm => {
                    is_symbol(lexeme.kind) || matches!(lexeme.kind, Kind::Tag | Kind::Comma)
                }
                _ => directive.takes(lexeme.kind),
            };
            if !is_end && (closed || !fits) {
                self.edits.refuse(Refusal::Misplaced, lexeme);
            }
            closed = closed || lexeme.kind == Kind::Semicolon;
        }
    }

    /// Takes in a list of nonterminals.
    pub fn import_types(&mut self, directive: Directive, word: &Lexeme, rest: &[Lexeme]) {
        self.refuse_others(rest, directive);
        let mut has_nonterminal = false;
        for (at, lexeme) in rest.iter().enumerate() {
            let is_token = is_among(&self.survey.tokens, lexeme.text(self.source));
            if directive == Directive::Nterm && lexeme.kind == Kind::Name && is_token {
                self.edits.refuse(Refusal::TokenNonterminal, lexeme);
            }
            let is_listed = at > 0 && is_symbol(lexeme.kind);
            has_nonterminal |= is_listed && self.reason_against(lexeme).is_none();
        }
        if !has_nonterminal || rest.first().map_or(true, |tag| tag.kind != Kind::Tag) {
            return self.take_all(word, rest, Reason::NoType);
        }
        self.keep_word(word, directive);
        for (at, lexeme) in rest.iter().enumerate() {
            match lexeme.kind {
                Kind::Tag => self.keep_tag(lexeme, at == 0),
                Kind::Comma | Kind::Semicolon => self.edits.take_out(lexeme, Reason::Separator),
                Kind::LineMark => self.edits.take_out(lexeme, Reason::LineMark),
                _ => match self.reason_against(lexeme) {
                    Some(reason) => self.edits.take_out(lexeme, reason),
                    None => self.keep_symbol(lexeme),
                },
            }
        }
    }
}
