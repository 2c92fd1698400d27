//! Declarations.

use crate::note::{How, Reason};
use crate::refusal::Refusal;
use crate::symbols::{Expected, Work};
use yforeign::directive::{Directive, is_word};
use yforeign::lexeme::{Kind, Lexeme};
use yforeign::numbers::number_of;

impl Work<'_> {
    /// What a file expects of its conflicts, where it says a number.
    fn expected(&mut self, word: &Lexeme, rest: &[Lexeme]) -> Option<Expected> {
        match rest {
            [number, ..] if number.kind == Kind::Number => Some(Expected {
                span: word.span,
                number: number_of(number.text(self.source)),
            }),
            _ => {
                self.edits.refuse(Refusal::NothingListed, word);
                None
            }
        }
    }

    /// Why a definition is taken out: tables are asked for where `lr.type` isn't `lalr`, also
    /// between quotes or braces.
    fn definition_reason(&self, rest: &[Lexeme]) -> Reason {
        match rest {
            [name, value, ..] if is_word(name.text(self.source), "lr.type") => {
                let value = value.text(self.source);
                let inner = match value {
                    [b'"', inner @ .., b'"'] | [b'{', inner @ .., b'}'] => inner,
                    _ => value,
                };
                if inner == b"lalr".as_slice() {
                    Reason::ForItsParser
                } else {
                    Reason::TablesAsked
                }
            }
            _ => Reason::ForItsParser,
        }
    }

    /// Takes out a directive of bison or byacc.
    fn import_aside(&mut self, directive: Directive, word: &Lexeme, rest: &[Lexeme]) {
        self.refuse_others(rest, directive);
        let reason = match directive {
            Directive::Expect => {
                self.shift_reduce = self.expected(word, rest);
                Reason::Expected
            }
            Directive::ExpectReduce => {
                self.reduce_reduce = self.expected(word, rest);
                Reason::Expected
            }
            Directive::Define => self.definition_reason(rest),
            Directive::Skeleton => {
                for lexeme in rest {
                    let mut parts = lexeme.text(self.source).windows(3);
                    if lexeme.kind == Kind::Text && parts.any(|part| part == b"glr".as_slice()) {
                        self.edits.refuse(Refusal::Glr, lexeme);
                    }
                }
                Reason::ForItsParser
            }
            _ => Reason::ForItsParser,
        };
        self.take_all(word, rest, reason);
    }

    /// Takes in `%start`.
    fn import_start(&mut self, word: &Lexeme, rest: &[Lexeme]) {
        if self.has_start {
            return self.edits.refuse(Refusal::SeveralStarts, word);
        }
        self.has_start = true;
        self.keep_word(word, Directive::Start);
        for (at, lexeme) in rest.iter().enumerate() {
            match lexeme.kind {
                Kind::Name if at == 0 => self.keep_symbol(lexeme),
                Kind::Name => self.edits.refuse(Refusal::SeveralStarts, lexeme),
                Kind::Semicolon if at > 0 => self.edits.take_out(lexeme, Reason::Separator),
                _ => self.edits.refuse(Refusal::Misplaced, lexeme),
            }
        }
    }

    /// Takes in `%union`; between rules it is taken out.
    fn import_union(&mut self, word: &Lexeme, rest: &[Lexeme]) {
        if self.edits.moving {
            return self.take_all(word, rest, Reason::ForItsParser);
        }
        self.keep_word(word, Directive::Union);
        for (at, lexeme) in rest.iter().enumerate() {
            match lexeme.kind {
                Kind::Name if at == 0 => self.edits.take_out(lexeme, Reason::UnionName),
                Kind::Braced => self.edits.keep(lexeme),
                Kind::Semicolon => self.edits.take_out(lexeme, Reason::Separator),
                _ => self.edits.refuse(Refusal::Misplaced, lexeme),
            }
        }
    }

    /// Takes in a declaration in its place.
    fn import_here(&mut self, directive: Directive, word: &Lexeme, rest: &[Lexeme]) {
        match directive {
            directive if directive.lists_tokens() => self.import_list(directive, word, rest),
            Directive::Type | Directive::Nterm => self.import_types(directive, word, rest),
            Directive::Start => self.import_start(word, rest),
            Directive::Union => self.import_union(word, rest),
            Directive::Glr => self.edits.refuse(Refusal::Glr, word),
            Directive::NoDefault => self.edits.refuse(Refusal::NoDefault, word),
            Directive::Unknown => self.edits.refuse(Refusal::UnknownWord, word),
            Directive::Prec | Directive::Empty => self.edits.refuse(Refusal::Misplaced, word),
            _ => self.import_aside(directive, word, rest),
        }
    }

    /// Takes in a declaration: one between rules goes in front of the first mark.
    pub fn import_declaration(&mut self, directive: Directive, lexemes: &[Lexeme], in_rules: bool) {
        let Some((word, rest)) = lexemes.split_first() else {
            return;
        };
        self.edits.moving = in_rules;
        let before = self.edits.moved.len();
        self.import_here(directive, word, rest);
        if self.edits.moved.len() > before {
            self.edits.note(word.span, How::ToMark, Reason::Between);
        }
        self.edits.moving = false;
    }

    /// Takes in code before the rules, and what stands after it, or what begins the file.
    pub fn import_loose(&mut self, lexemes: &[Lexeme]) {
        for lexeme in lexemes {
            match lexeme.kind {
                Kind::Semicolon => self.edits.take_out(lexeme, Reason::Separator),
                Kind::LineMark => self.edits.take_out(lexeme, Reason::LineMark),
                _ => self.edits.refuse(Refusal::Misplaced, lexeme),
            }
        }
    }
}
