//! The lines of a SPEC.

use crate::fault::{SpecFault, SpecFaults, Wrong, keep};
use std::alloc::{AllocError, Global};
use std::str;
use yexplain::reads::{Made, name_of, set};
use ylexemes::bytes::is_blank;
use ysymbols::{Grammar, Sym};
use ytokens::token_words::{Front, front_of};
use ytokens::tokens::is_input;

/// A line with an expression.
#[derive(Clone, Copy, Drop)]
pub struct Rule<'a> {
    /// The token that it gives; `None` where what it matches is passed over.
    pub token: Option<Sym>,
    /// The expression.
    pub expression: &'a str,
    /// How many bytes of the file stand before the expression.
    pub at: usize,
}

/// How a word stands in a text.
#[derive(Clone, Copy, Drop, PartialEq, Eq)]
pub enum Case {
    /// As the grammar spells it.
    Same,
    /// In small and large letters, as one likes.
    Any,
    /// In small letters.
    Small,
}

/// A token that stands for itself as the grammar spells it, but for the case of its letters.
#[derive(Clone, Copy, Drop)]
pub struct Word {
    /// The token.
    pub token: Sym,
    /// The case in which it counts.
    pub case: Case,
}

impl Word {
    /// Whether these bytes, of which there are as many as the token's name has, are the word.
    pub(crate) fn is(self, name: &[u8], bytes: &[u8]) -> bool {
        match self.case {
            Case::Same => bytes == name,
            Case::Any => bytes.eq_ignore_ascii_case(name),
            Case::Small => {
                let has_capital = bytes.iter().any(|b| b.is_ascii_uppercase());
                !has_capital && bytes.eq_ignore_ascii_case(name)
            }
        }
    }
}

/// What a SPEC says.
#[derive(Drop)]
pub struct Spec<'a> {
    /// Its lines with expressions.
    pub rules: Vec<Rule<'a>>,
    /// Its words.
    pub words: Vec<Word>,
    /// Which symbols of the grammar it names.
    pub named: Vec<bool>,
    /// Which of them no text has.
    pub absent: Vec<bool>,
}

/// What names after a directive are.
#[derive(Clone, Copy, PartialEq, Eq)]
enum Listed {
    Words(Case),
    /// Given by no line.
    Absent,
}

/// A part of a SPEC: its bytes, and how many stand before them.
#[derive(Clone, Copy)]
struct Piece<'a> {
    bytes: &'a [u8],
    at: usize,
}

impl<'a> Piece<'a> {
    /// What is left after so many bytes, and after the blanks there.
    fn after(self, count: usize) -> Piece<'a> {
        let rest = self.bytes.get(count..).unwrap_or(&[]);
        let blanks = rest.iter().take_while(|b| is_blank(**b)).count();
        Piece {
            bytes: rest.get(blanks..).unwrap_or(&[]),
            at: self.at.saturating_add(count).saturating_add(blanks),
        }
    }

    /// How many bytes the first word has.
    fn word(self) -> usize {
        match front_of(self.bytes) {
            Front::Literal(_, rest) => self.bytes.len().saturating_sub(rest.len()),
            _ => self.plain_word(),
        }
    }

    /// How many bytes stand before the first blank.
    fn plain_word(self) -> usize {
        let blank = self.bytes.iter().position(|b| is_blank(*b));
        blank.unwrap_or(self.bytes.len())
    }

    /// The first bytes.
    fn first(self, count: usize) -> &'a [u8] {
        self.bytes.get(..count).unwrap_or(self.bytes)
    }
}

/// The token that the word at the front of a piece names.
fn token_of(grammar: &Grammar, piece: Piece<'_>) -> Result<Sym, SpecFault> {
    let found = match front_of(piece.bytes) {
        Front::Literal(value, _) => grammar.find_literal(value),
        _ => grammar.find(piece.first(piece.plain_word())),
    };
    match found {
        Some(token) if is_input(grammar, token) => Ok(token),
        Some(_) => Err(SpecFault::At(piece.at, Wrong::NoInput)),
        None => Err(SpecFault::At(piece.at, Wrong::Unknown)),
    }
}

/// The token whose name in capitals is the word at the front of a piece.
fn upper_token_of(alloc: Global, grammar: &Grammar, piece: Piece<'_>) -> Result<Sym, SpecFault> {
    let word = piece.first(piece.plain_word());
    let mut name = Vec::from_slice(alloc, word)?;
    for b in name.iter_mut() {
        if b.is_ascii_uppercase() {
            return Err(SpecFault::At(piece.at, Wrong::Capital));
        }
        *b = b.to_ascii_uppercase();
    }
    match grammar.find(&name) {
        Some(token) if is_input(grammar, token) => Ok(token),
        Some(_) => Err(SpecFault::At(piece.at, Wrong::NoInput)),
        None => Err(SpecFault::At(piece.at, Wrong::Unknown)),
    }
}

/// How the words after `%keywords` stand in a text, and these words.
fn case_of(rest: Piece<'_>) -> (Case, Piece<'_>) {
    let length = rest.plain_word();
    match rest.first(length) {
        b"-i" => (Case::Any, rest.after(length)),
        b"--upper" => (Case::Small, rest.after(length)),
        _ => (Case::Same, rest),
    }
}

impl<'a> Spec<'a> {
    /// Adds a line with an expression.
    fn add_rule(&mut self, token: Option<Sym>, rest: Piece<'a>) -> Result<(), SpecFault> {
        if rest.bytes.is_empty() {
            return Err(SpecFault::At(rest.at, Wrong::Missing));
        }
        let Ok(expression) = str::from_utf8(rest.bytes) else {
            return Err(SpecFault::At(rest.at, Wrong::NoText));
        };
        let at = rest.at;
        let rule = Rule {
            token,
            expression,
            at,
        };
        self.rules.push(rule).map_err(AllocError::from)?;
        Ok(())
    }

    /// Adds the name at the front of a piece. A literal stands for itself without it.
    fn add_name(
        &mut self,
        alloc: Global,
        grammar: &Grammar,
        name: Piece<'_>,
        listed: Listed,
    ) -> Result<(), SpecFault> {
        let token = match listed {
            Listed::Words(Case::Small) => upper_token_of(alloc, grammar, name)?,
            _ => token_of(grammar, name)?,
        };
        set(&mut self.named, token, true);
        match listed {
            Listed::Absent => set(&mut self.absent, token, true),
            Listed::Words(case) if needs_line(grammar, token) => {
                let word = Word { token, case };
                self.words.push(word).map_err(AllocError::from)?;
            }
            Listed::Words(_) => {}
        }
        Ok(())
    }

    /// Adds the names that a piece lists, and keeps those that are wrong.
    fn add_names(
        &mut self,
        alloc: Global,
        grammar: &Grammar,
        names: Piece<'_>,
        listed: Listed,
        faults: &mut SpecFaults,
    ) -> Result<(), SpecFault> {
        if names.bytes.is_empty() {
            return Err(SpecFault::At(names.at, Wrong::Missing));
        }
        let mut left = names;
        for _ in 0..names.bytes.len() {
            if left.bytes.is_empty() {
                break;
            }
            keep(faults, self.add_name(alloc, grammar, left, listed))?;
            left = left.after(left.word());
        }
        Ok(())
    }

    /// Adds a line; of several names all that are wrong are kept.
    fn add_line(
        &mut self,
        alloc: Global,
        grammar: &Grammar,
        line: Piece<'a>,
        faults: &mut SpecFaults,
    ) -> Result<(), SpecFault> {
        let length = line.plain_word();
        let rest = line.after(length);
        match line.first(length) {
            [] | [b'#', ..] => Ok(()),
            b"%skip" => self.add_rule(None, rest),
            b"%keywords" => {
                let (case, words) = case_of(rest);
                self.add_names(alloc, grammar, words, Listed::Words(case), faults)
            }
            b"%none" => self.add_names(alloc, grammar, rest, Listed::Absent, faults),
            b"%%" => Err(SpecFault::At(line.at, Wrong::Grammar)),
            [b'%', ..] => Err(SpecFault::At(line.at, Wrong::Directive)),
            _ => {
                let token = token_of(grammar, line)?;
                set(&mut self.named, token, true);
                self.add_rule(Some(token), line.after(line.word()))
            }
        }
    }
}

/// What a SPEC says; what is wrong with its lines is kept, in their order. Of a grammar only that it
/// is one is kept.
pub fn read_spec<'a>(
    alloc: Global,
    grammar: &Grammar,
    source: &'a [u8],
    faults: &mut SpecFaults,
) -> Made<Spec<'a>> {
    let mut spec = Spec {
        rules: Vec::new(alloc),
        words: Vec::new(alloc),
        named: vec![in alloc; false; grammar.symbols()]?,
        absent: vec![in alloc; false; grammar.symbols()]?,
    };
    let mut at: usize = 0;
    for bytes in source.split(|b| *b == b'\n') {
        let last = bytes.iter().rposition(|b| !is_blank(*b));
        let end = last.map_or(0, |at| at.saturating_add(1));
        let line = bytes.get(..end).unwrap_or(&[]);
        let line = Piece { bytes: line, at }.after(0);
        let added = spec.add_line(alloc, grammar, line, faults);
        keep(faults, added)?;
        if let Some((mark, Wrong::Grammar)) = faults.last().copied() {
            faults.clear();
            spec.rules.clear();
            faults.push((mark, Wrong::Grammar))?;
            break;
        }
        at = at.saturating_add(bytes.len()).saturating_add(1);
    }
    Ok(spec)
}

/// Whether a token of a body needs a line: it is an input token and no literal.
pub fn needs_line(grammar: &Grammar, token: Sym) -> bool {
    is_input(grammar, token) && name_of(grammar, token).first() != Some(&b'\'')
}
