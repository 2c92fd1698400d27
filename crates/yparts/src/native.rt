//! The parts of a file that `yacc` reads, by its source map.

use crate::parts::{Block, By, Mention, Named, Numbered, Parts, Piece, Target};
use std::alloc::Global;
use std::mem;
use yexplain::lines::{Spots, name_in, symbol_of};
use yexplain::reads::Made;
use yforeign::numbers::number_of;
use ylexemes::part::Lexeme;
use ysymbols::{Grammar, Sym, let_go};
use ysyntax::{Mark, Role};

/// A file whose parts are gathered.
struct Gather<'a, 'b> {
    source: &'a [u8],
    grammar: &'b Grammar,
    spots: Spots<'a>,
    parts: Parts<'a>,
    actions: Vec<Piece<'a>>,
    tag: Option<&'a [u8]>,
    /// The name of the left side.
    left: &'a [u8],
    /// How many symbols and actions of the body came.
    place: usize,
    /// Whether nothing of the body came.
    is_new: bool,
    /// How many marks came.
    marks: usize,
}

impl Drop for Gather<'_, '_> {
    // A call in each owner, which keeps their proofs short.
    fn drop(self) {
        let_go!(self: Gather {
            source, grammar, spots, parts, actions, tag, left, place, is_new, marks
        });
    }
}

impl<'a> Gather<'a, '_> {
    /// The bytes from one place to another, on the line of the first.
    fn piece(&mut self, at: usize, to: usize) -> Piece<'a> {
        Piece {
            text: self.source.get(at..to).unwrap_or(&[]),
            at,
            line: self.spots.reach(at).0,
        }
    }

    /// Takes in code for a place.
    fn take_text(&mut self, target: Target, from: usize, to: usize) -> Made<()> {
        let piece = self.piece(from, to);
        self.parts.blocks.push(Block { target, piece })?;
        Ok(())
    }

    /// Takes in a name of the next value of a body.
    fn take_name(&mut self, name: &'a [u8]) -> Made<()> {
        let place = self.place;
        self.parts.names.push(Named {
            name,
            symbol: name,
            place,
        })?;
        self.place = place.saturating_add(1);
        Ok(())
    }

    /// Takes in a lexeme among the rules: what begins a body, a symbol or an action. A body begins
    /// on the line of its first part, an empty one on that of the sign before it.
    fn take_of_rule(&mut self, mark: &Mark<'a>) -> Made<()> {
        let lexeme = mark.placed.lexeme;
        let name = name_in(lexeme);
        if let (Role::Symbol(_) | Role::Action(_) | Role::Prec(_), true) = (
            mark.role,
            self.is_new,
        ) {
            self.is_new = false;
            let line = self.spots.reach(mark.placed.at).0;
            if let Some(last) = self.parts.lines.last_mut() {
                *last = line;
            }
        }
        match (mark.role, name) {
            (Role::Left(_), Some(left)) => self.left = left,
            (Role::Symbol(_), name) => return self.take_name(name.unwrap_or(b"")),
            (Role::Action(_), _) => {
                if let Lexeme::Braced(_) = lexeme {
                    let piece = self.piece(mark.placed.at, mark.placed.end);
                    self.actions.push(piece)?;
                    return self.take_name(b"");
                }
                return Ok(());
            }
            (Role::Bar(_), _) => {}
            _ => return Ok(()),
        }
        let names = self.parts.names.len();
        self.parts.bodies.push(names)?;
        let line = self.spots.reach(mark.placed.end.saturating_sub(1)).0;
        self.parts.lines.push(line)?;
        self.is_new = true;
        self.place = 0;
        self.take_name(self.left)
    }

    /// Takes in a lexeme.
    fn take(&mut self, mark: &Mark<'a>) -> Made<()> {
        let (lexeme, at, end) = (mark.placed.lexeme, mark.placed.at, mark.placed.end);
        match (mark.role, lexeme) {
            (Role::Block, _) => {
                let (from, to) = (at.saturating_add(2), end.saturating_sub(2));
                self.take_text(Target::Prologue, from, to)?;
            }
            (Role::Union, Lexeme::Braced(_)) => self.take_text(Target::Union, at, end)?,
            (Role::Word, _) => self.tag = None,
            (Role::Tag, _) => self.tag = name_in(lexeme),
            (role @ (Role::Declared | Role::Levelled | Role::Typed), _) => {
                if let Some(symbol) = symbol_of(self.grammar, lexeme) {
                    let by = if role == Role::Declared {
                        By::Token
                    } else {
                        By::Name
                    };
                    self.parts.mentioned.push(Mention { symbol, by })?;
                    if let Some(tag) = self.tag {
                        self.parts.give_tag(symbol, tag);
                    }
                }
            }
            (Role::Digits, Lexeme::Number(digits)) => {
                if let Some(Mention { symbol: token, .. }) = self.parts.mentioned.last().copied() {
                    let number = number_of(digits);
                    self.parts.numbers.push(Numbered { token, number })?;
                }
            }
            (Role::Mark, _) => {
                self.marks = self.marks.saturating_add(1);
                if self.marks == 2 {
                    let tail = self.piece(end, self.source.len());
                    self.parts.tail = Some(tail);
                }
            }
            _ => self.take_of_rule(mark)?,
        }
        Ok(())
    }
}

/// The parts of a file with this source map.
pub fn parts_of<'a>(
    alloc: Global,
    source: &'a [u8],
    grammar: &Grammar,
    marks: &[Mark<'a>],
) -> Made<Parts<'a>> {
    let mut gather = Gather {
        source,
        grammar,
        spots: Spots::new(source),
        parts: Parts::new(alloc, grammar.symbols())?,
        actions: Vec::new(alloc),
        tag: None,
        left: source.get(..0).unwrap_or(&[]),
        place: 0,
        is_new: false,
        marks: 0,
    };
    for mark in marks {
        gather.take(mark)?;
    }
    let actions = mem::replace(&mut gather.actions, Vec::new(alloc));
    gather.parts.set_actions(grammar, &actions)?;
    gather.parts.options.is_profile = true;
    let empty = Parts::new(alloc, 0)?;
    Ok(mem::replace(&mut gather.parts, empty))
}
