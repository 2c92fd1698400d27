//! The alternatives of rules.

use crate::note::{How, Reason};
use crate::refusal::Refusal;
use crate::symbols::{Ended, Work};
use yforeign::directive::{Directive, directive_of, is_symbol};
use yforeign::lexeme::{Kind, Lexeme};
use ysymbols::names::is_among;

/// How many symbols and how many actions stand in a part of a body. What `%prec` names isn't one.
fn counts(lexemes: &[Lexeme]) -> (usize, usize) {
    let mut symbols: usize = 0;
    let mut actions: usize = 0;
    let mut before = None;
    for lexeme in lexemes {
        if is_symbol(lexeme.kind) && before != Some(Kind::Word) {
            symbols = symbols.saturating_add(1);
        }
        if lexeme.kind == Kind::Braced {
            actions = actions.saturating_add(1);
        }
        before = Some(lexeme.kind);
    }
    (symbols, actions)
}

/// Where a body stands.
#[derive(Clone, Copy, Default)]
struct Place {
    /// The symbol after `%prec`.
    prec: Option<Lexeme>,
    /// Whether `%prec` goes to the end.
    moves: bool,
    /// Whether a symbol or an action came.
    filled: bool,
    /// Whether a semicolon has ended it.
    closed: bool,
    /// Where what stands in it ends, without its semicolon.
    end: usize,
}

/// A lexeme of a body, with what stands around it.
#[derive(Clone, Copy)]
struct Around<'a> {
    before: Option<Kind>,
    lexeme: &'a Lexeme,
    after: &'a [Lexeme],
}

impl Around<'_> {
    /// Whether a lexeme of this kind comes next.
    fn is_before(self, kind: Kind) -> bool {
        self.after.first().map_or(false, |next| next.kind == kind)
    }
}

impl Work<'_> {
    /// Takes the end out of a body of the start symbol.
    fn take_end(&mut self, around: Around<'_>) {
        let (lexeme, source) = (around.lexeme, self.source);
        let (symbols, actions) = counts(around.after);
        let start = match self.survey.start_symbol() {
            Some(start) => start.text(source),
            None => &[],
        };
        if symbols > 0 || self.left.map_or(true, |left| left.text(source) != start) {
            self.edits.refuse(Refusal::EndElsewhere, lexeme);
        } else if is_among(&self.survey.used, start) {
            self.edits.refuse(Refusal::EndAndStart, lexeme);
        } else if around.before == Some(Kind::Braced) && actions == 0 {
            self.edits.refuse(Refusal::EndAfterAction, lexeme);
        } else {
            self.edits.take_out(lexeme, Reason::EndInBody);
            let (body, span) = (self.bodies, lexeme.span);
            let ended = Ended { body, span };
            self.edits.trouble.push(&mut self.ended, ended);
        }
    }

    /// Takes in a symbol of a body, or what `%prec` names.
    fn import_symbol(&mut self, place: &Place, around: Around<'_>) {
        let lexeme = around.lexeme;
        let at = lexeme.span.from;
        let is_named = around.before == Some(Kind::Word)
            && place.prec.map_or(false, |prec| prec.span.from == at);
        if is_named && self.is_end(lexeme) {
            self.edits.refuse(Refusal::EndElsewhere, lexeme);
        } else if is_named && place.moves {
            self.edits.remove(lexeme);
        } else if self.is_end(lexeme) {
            self.take_end(around);
        } else {
            self.keep_symbol(lexeme);
        }
    }

    /// Takes in `%prec`.
    fn import_prec(&mut self, place: &mut Place, around: Around<'_>) {
        let lexeme = around.lexeme;
        let (symbol, after) = match around.after {
            [symbol, after @ ..] if is_symbol(symbol.kind) => (symbol, after),
            _ => return self.edits.refuse(Refusal::Misplaced, lexeme),
        };
        if place.prec.is_some() {
            return self.edits.refuse(Refusal::SecondPrec, lexeme);
        }
        place.prec = Some(*symbol);
        let (symbols, actions) = counts(after);
        place.moves = symbols > 0 || actions > 1;
        if place.moves {
            self.edits.remove(lexeme);
            self.edits.note(lexeme.span, How::ToEnd, Reason::PrecInside);
        } else {
            self.keep_word(lexeme, Directive::Prec);
        }
    }

    /// Takes in a percent word of a body.
    fn import_word(&mut self, place: &mut Place, around: Around<'_>) {
        let lexeme = around.lexeme;
        match directive_of(lexeme.text(self.source)) {
            Directive::Prec => self.import_prec(place, around),
            Directive::Empty => {
                // one action may come after it
                let (symbols, actions) = counts(around.after);
                if place.filled || symbols > 0 || actions > 1 {
                    self.edits.refuse(Refusal::NotEmpty, lexeme);
                } else {
                    self.edits.take_out(lexeme, Reason::EmptyWord);
                }
            }
            _ if around.is_before(Kind::Number) => self.edits.take_out(lexeme, Reason::Expected),
            _ => self.edits.refuse(Refusal::Misplaced, lexeme),
        }
    }

    /// Takes in a sign that stands before an action.
    fn import_sign(&mut self, around: Around<'_>, reason: Reason) {
        if around.is_before(Kind::Braced) {
            self.edits.take_out(around.lexeme, reason);
        } else {
            self.edits.refuse(Refusal::Misplaced, around.lexeme);
        }
    }

    /// Takes in one lexeme of a body.
    fn import_part(&mut self, place: &mut Place, around: Around<'_>) {
        let lexeme = around.lexeme;
        match lexeme.kind {
            Kind::LineMark => self.edits.take_out(lexeme, Reason::LineMark),
            Kind::Semicolon => place.closed = true,
            _ if place.closed => self.edits.refuse(Refusal::Misplaced, lexeme),
            kind if is_symbol(kind) => self.import_symbol(place, around),
            Kind::Braced => {}
            Kind::Word => self.import_word(place, around),
            Kind::Reference => self.edits.take_out(lexeme, Reason::Reference),
            Kind::Tag => self.import_sign(around, Reason::InnerType),
            Kind::Equals => self.import_sign(around, Reason::Equals),
            Kind::Number if around.before == Some(Kind::Word) => self.edits.remove(lexeme),
            Kind::Predicate => self.edits.refuse(Refusal::Glr, lexeme),
            _ => self.edits.refuse(Refusal::Misplaced, lexeme),
        }
    }

    /// Writes `%prec` at the end of a body, where it goes there.
    fn put_prec(&mut self, place: &Place) {
        let (Some(symbol), true) = (place.prec, place.moves) else {
            return;
        };
        let start = self.edits.texts.len();
        self.edits.write(b" %prec ");
        if self.spell(&symbol).is_none() {
            self.edits.write(symbol.text(self.source));
        }
        self.edits.edit(place.end, place.end, start);
    }

    /// Takes in a body with what ends it.
    pub fn import_body(&mut self, body: &[Lexeme]) {
        self.bodies = self.bodies.saturating_add(1);
        let mut place = Place::default();
        let mut before = None;
        for (at, lexeme) in body.iter().enumerate() {
            if self.edits.stumbles {
                return;
            }
            let after = body.get(at.saturating_add(1)..).unwrap_or(&[]);
            let kind = lexeme.kind;
            self.import_part(
                &mut place,
                Around {
                    before,
                    lexeme,
                    after,
                },
            );
            // what `%prec` names fills no body
            let is_body = is_symbol(kind) && before != Some(Kind::Word);
            place.filled = place.filled || is_body || kind == Kind::Braced;
            before = Some(kind);
            if kind != Kind::Semicolon {
                place.end = lexeme.span.to;
            }
        }
        self.put_prec(&place);
    }

    /// Takes in a rule from its left side to the end of its first body.
    pub fn import_rule(&mut self, lexemes: &[Lexeme]) {
        let Some((left, after)) = lexemes.split_first() else {
            return;
        };
        self.left = Some(*left);
        self.keep_symbol(left);
        match after {
            [reference, _, body @ ..] if reference.kind == Kind::Reference => {
                self.edits.take_out(reference, Reason::Reference);
                self.import_body(body);
            }
            [_, body @ ..] => self.import_body(body),
            [] => {}
        }
    }
}
