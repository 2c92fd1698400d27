//! Symbols as `yacc` spells them.

use crate::applied::Changed;
use crate::edits::Edits;
use crate::left_out::LeftOut;
use crate::note::Reason;
use crate::refusal::{Refusal, Trouble};
use crate::spelling::{Made, made_name, other_name, unbroken};
use std::alloc::{AllocError, Global};
use std::collections::HashMap;
use yforeign::lexeme::{Lexeme, Span};
use yforeign::survey::{Survey, inside, is_text};
use ysymbols::let_go;
use ysymbols::names::{SymbolTable, is_among};

/// A number of conflicts that a file expects, and what says so.
#[derive(Clone, Copy, Drop)]
pub struct Expected {
    /// Where the directive or the comment stands.
    pub span: Span,
    /// The number.
    pub number: usize,
}

/// An end that was taken out of a body.
#[derive(Clone, Copy, Drop)]
pub struct Ended {
    /// The body, by its number in the file, counted from 1.
    pub body: usize,
    /// Where the end stands.
    pub span: Span,
}

/// A number that a file gives a token.
#[derive(Clone, Copy, Drop)]
pub struct Numbered {
    /// The token.
    pub token: Lexeme,
    /// The number.
    pub number: usize,
}

/// A file while it is imported.
pub struct Work<'a> {
    /// The allocator.
    pub alloc: Global,
    /// The file.
    pub source: &'a [u8],
    /// What its names and strings are.
    pub survey: Survey,
    /// The changes so far.
    pub edits: Edits<'a>,
    /// The name made for each string that stands for no token.
    pub made: HashMap<Vec<u8>, Made>,
    /// The last of these numbers.
    last_made: usize,
    /// The numbers of tokens that `yacc` can't have, and that of `error`.
    pub numbers: Vec<Numbered>,
    /// The tokens that have other numbers.
    pub numbered: SymbolTable,
    /// The greatest number that the file gives.
    pub greatest: usize,
    /// The names that have no dashes any more, and where one stands that became each.
    renamed: HashMap<Vec<u8>, Lexeme>,
    /// Where the `%precedence` stands for each level that comes from one.
    pub levels: Vec<Option<Span>>,
    /// The shift/reduce conflicts that the file expects.
    pub shift_reduce: Option<Expected>,
    /// The reduce/reduce conflicts that the file expects.
    pub reduce_reduce: Option<Expected>,
    /// How many bodies were met.
    pub bodies: usize,
    /// The ends that were taken out of bodies, in their order.
    pub ended: Vec<Ended>,
    /// The left side of the rule.
    pub left: Option<Lexeme>,
    /// Whether a `%start` was met.
    pub has_start: bool,
    /// The file with its changes.
    pub changed: Changed,
    /// What was left out.
    pub left_out: Vec<LeftOut>,
}

impl Drop for Work<'_> {
    // A call in each owner, which keeps their proofs short.
    fn drop(self) {
        let_go!(self: Work {
            alloc, source, survey, edits, made, last_made, numbers, numbered, greatest, renamed,
            levels, shift_reduce, reduce_reduce, bodies, ended, left, has_start, changed,
            left_out
        });
    }
}

impl<'a> Work<'a> {
    /// The file before anything is imported.
    pub fn new(alloc: Global, source: &'a [u8]) -> Work<'a> {
        Work {
            alloc,
            source,
            survey: Survey::new(alloc),
            edits: Edits::new(alloc, source),
            made: HashMap::new(alloc),
            last_made: 0,
            numbers: Vec::new(alloc),
            numbered: SymbolTable::new(alloc),
            greatest: 0,
            renamed: HashMap::new(alloc),
            levels: Vec::new(alloc),
            shift_reduce: None,
            reduce_reduce: None,
            bodies: 0,
            ended: Vec::new(alloc),
            left: None,
            has_start: false,
            changed: Changed::new(alloc),
            left_out: Vec::new(alloc),
        }
    }

    /// What was made, empty where memory ran out, which is remembered.
    fn made_or_trouble(&mut self, made: Result<Vec<u8>, AllocError>) -> Vec<u8> {
        match made {
            Ok(text) => text,
            Err(_) => {
                self.edits.trouble.is_out = true;
                Vec::new(self.alloc)
            }
        }
    }

    /// Writes a symbol that is no string, where its spelling is another one, and gives the reason.
    /// The name that one without dashes became is noted, if no other name is spelled or was renamed
    /// so.
    fn spell_plain(&mut self, lexeme: &Lexeme) -> Option<Reason> {
        let (name, reason) = match other_name(self.alloc, self.source, lexeme) {
            Ok(other) => other?,
            Err(_) => {
                self.edits.trouble.is_out = true;
                return None;
            }
        };
        self.edits.write(&name);
        if matches!(reason, Reason::Dash) {
            let (source, before) = (self.source, self.renamed.get(&name).copied());
            if before.map_or(false, |it| it.text(source) == lexeme.text(source)) {
                return Some(reason);
            }
            if before.is_some() || is_among(&self.survey.names, &name) {
                self.edits.refuse(Refusal::NameTaken, lexeme);
            }
            if self.renamed.insert(name, *lexeme).is_err() {
                self.edits.trouble.is_out = true;
            }
        }
        Some(reason)
    }

    /// The name made for a string, from its number.
    fn made_name(&mut self, number: usize) -> Vec<u8> {
        let name = made_name(self.alloc, number);
        self.made_or_trouble(name)
    }

    /// Makes a name for a string, the first after the last one that isn't taken, lists it, and
    /// gives its number.
    fn make_name(&mut self, key: &[u8], text: &Lexeme) -> usize {
        let first = self.last_made.saturating_add(1);
        let most = first.saturating_add(self.survey.names.len());
        let mut number = most;
        for next in first..most {
            let name = self.made_name(next);
            if !is_among(&self.survey.names, &name) {
                number = next;
                break;
            }
        }
        self.last_made = number;
        let name = self.made_name(number);
        self.edits.list_made(&name);
        let key = Vec::from_slice(self.alloc, key);
        let key = self.made_or_trouble(key);
        let text = *text;
        if self.made.insert(key, Made { number, text }).is_err() {
            self.edits.trouble.is_out = true;
        }
        number
    }

    /// Writes the token that a string is, and gives the reason.
    fn spell_text(&mut self, text: &Lexeme) -> Reason {
        if let Some(token) = self.survey.alias(self.source, text) {
            if self.spell_plain(&token).is_none() {
                self.edits.write(token.text(self.source));
            }
            return Reason::AliasUsed;
        }
        let key = unbroken(self.alloc, inside(self.source, text));
        let key = self.made_or_trouble(key);
        let number = match self.made.get(&key) {
            Some(made) => made.number,
            None => self.make_name(&key, text),
        };
        let name = self.made_name(number);
        self.edits.write(&name);
        if key.len() == 1 {
            Reason::MadeSign
        } else {
            Reason::MadeName
        }
    }

    /// Writes a symbol, where its spelling is another one, and gives the reason.
    pub fn spell(&mut self, lexeme: &Lexeme) -> Option<Reason> {
        if is_text(lexeme.kind) {
            Some(self.spell_text(lexeme))
        } else {
            self.spell_plain(lexeme)
        }
    }

    /// Keeps a symbol.
    pub fn keep_symbol(&mut self, lexeme: &Lexeme) {
        let start = self.edits.texts.len();
        match self.spell(lexeme) {
            Some(reason) => self.edits.replace(lexeme, start, reason),
            None => self.edits.keep(lexeme),
        }
    }

    /// Whether a symbol is the end.
    pub fn is_end(&self, lexeme: &Lexeme) -> bool {
        self.survey.is_end(self.source, lexeme)
    }
}
