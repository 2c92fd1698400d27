//! How a cell can be settled otherwise: what a hint asks for is tried on the cell first.

use crate::lines::is_inner;
use crate::question::Question;
use crate::reads::{action_of, conflict_of, level_of};
use crate::rivals::{Kinds, Rivals};
use crate::supposed::{BOTTOM, TOP, place_of};
use ylalr::END;
use yprovenance::Candidate;
use ysymbols::{Associativity, Sym};
use ytables::{Action, Class, Standing};

/// A token that gives a rule its precedence, and the words of lines that choose between the rule
/// and the token of the cell.
#[derive(Clone, Copy, Drop, PartialEq, Eq)]
pub struct Words {
    /// The token that gives the rule its precedence.
    pub giver: Sym,
    /// Those with which the token of the cell is shifted where its line is the later one.
    pub shifts: Kinds,
    /// Those with which the rule is reduced where it is the earlier one.
    pub reduces: Kinds,
}

/// What settles a conflict between a shift and a rule.
#[derive(Clone, Copy, Drop, PartialEq, Eq)]
pub enum Advice {
    /// Nothing: the end takes no precedence.
    End,
    /// Nothing: the rule of an action inside a body takes none.
    Inner,
    /// Precedences of all rules of the cell.
    General,
    /// A line for the token, from which the rule has its precedence too.
    Both {
        /// Whether `%left` reduces.
        reduces: bool,
        /// Whether `%right` shifts.
        shifts: bool,
    },
    /// A line for the token, where the rule has the precedence of another one.
    Token(Words),
    /// A line for this token, from which the rule has its precedence; earlier than that of the
    /// cell's token it shifts, later it reduces.
    Rule(Sym),
    /// Lines for the token and for the one from which the rule has its precedence.
    Lines {
        /// The words of the lines.
        words: Words,
        /// Whether a name of its own for the rule does as well.
        own: bool,
    },
    /// A name of its own for the rule.
    Own,
}

impl Advice {
    /// Whether it says how to do this.
    pub fn offers(self, deed: Deed) -> bool {
        let (shifts, reduces) = match self {
            Advice::End | Advice::Inner | Advice::General => (false, false),
            Advice::Both { reduces, shifts } => (shifts, reduces),
            Advice::Token(words) => (words.shifts.any(), words.reduces.any()),
            Advice::Lines { words, .. } => (words.shifts.any(), words.reduces.any()),
            Advice::Rule(_) | Advice::Own => (true, true),
        };
        match deed {
            Deed::Shift => shifts,
            Deed::Reduce => reduces,
        }
    }
}

/// What a hint is for.
#[derive(Clone, Copy, Drop, PartialEq, Eq)]
pub enum Deed {
    /// That the token is shifted.
    Shift,
    /// That a rule is reduced.
    Reduce,
}

/// How a cell with several candidates can be settled otherwise.
#[derive(Clone, Copy, Drop, PartialEq, Eq)]
pub enum Hint {
    /// The rules in another order, or another grammar: there is no shift.
    First,
    /// What settles the conflict with this rule.
    Settle(usize, Advice),
    /// Precedences of all rules.
    General,
    /// Another word in place of `%nonassoc`.
    Turn {
        /// Whether `%left` reduces.
        reduces: bool,
        /// Whether `%right` shifts.
        shifts: bool,
    },
    /// `%right` for the line of the token, or `%left` to reduce.
    Word(Deed),
    /// The token on a later line than this one to shift, on an earlier one to reduce, of these words.
    Order(Deed, Sym, Kinds),
}

/// How a cell with several candidates can be settled otherwise. The advice about one that counts a
/// conflict and shifts is about the first rule that doesn't lose.
pub fn hint_on(asked: Question<'_>) -> Option<Hint> {
    let rivals = Rivals::new(asked);
    match action_of(asked.tables, asked.state, asked.token) {
        Action::Reduce(_) if asked.shift().is_none() => Some(Hint::First),
        Action::Reduce(_) => {
            let beats = |candidate: &Candidate| candidate.standing.class() == Class::Beat;
            Some(rivals.instead(asked.candidates().filter(beats).last()?, Deed::Shift))
        }
        Action::Error => Some(rivals.to_turn()),
        Action::Shift(_) | Action::Accept => {
            if conflict_of(asked.tables, asked.state, asked.token).is_none() {
                return Some(rivals.instead(asked.candidates().next()?, Deed::Reduce));
            }
            let kept = |candidate: &Candidate| candidate.standing.class() != Class::Lose;
            let candidate = asked.candidates().find(kept)?;
            let advice = rivals.advice(candidate).unwrap_or(Advice::General);
            Some(Hint::Settle(candidate.rule, advice))
        }
    }
}

impl Rivals<'_> {
    /// How to turn what is forbidden.
    fn to_turn(&self) -> Hint {
        let reduces = self.reduces(self.with_word(Associativity::Left));
        let shifts = self.is_done(self.with_word(Associativity::Right), self.shift);
        if reduces || shifts {
            Hint::Turn { reduces, shifts }
        } else {
            Hint::General
        }
    }

    /// How to shift where a rule has won, or to reduce where the token has won: where both have one
    /// level, by another word for its line, if that turns the cell, and else by another order of
    /// lines of some words.
    fn instead(&self, candidate: Candidate, deed: Deed) -> Hint {
        let rule = candidate.rule;
        let (turns, kinds) = match deed {
            Deed::Shift => {
                let at = self.place(rule).unwrap_or(BOTTOM);
                let turns = self.is_done(self.with_word(Associativity::Right), self.shift);
                (turns, self.kinds_between((at, usize::MAX), self.shift))
            }
            Deed::Reduce => {
                let at = self.place(rule).unwrap_or(TOP);
                let turns = self.reduces(self.with_word(Associativity::Left));
                (turns, Kinds::by(|kind| self.reduces_above(at, kind)))
            }
        };
        let giver = self.asked.lines.giver(self.asked.grammar(), rule);
        match (candidate.standing, giver) {
            (Standing::Level(_), _) if turns => Hint::Word(deed),
            (Standing::Level(_), _) => Hint::General,
            (_, Some(token)) if kinds.any() => Hint::Order(deed, token, kinds),
            _ => Hint::General,
        }
    }

    /// What settles the conflict with a rule, where less does than precedences of all rules.
    fn advice(&self, candidate: Candidate) -> Option<Advice> {
        let rule = candidate.rule;
        if self.asked.token == END {
            return Some(Advice::End);
        }
        match self.asked.lines.giver(self.asked.grammar(), rule) {
            Some(token) if token == self.asked.token => {
                let (all, by_rule) = ((0, usize::MAX), Action::Reduce(rule));
                let reduces = self.is_done_between(all, Associativity::Left, by_rule);
                let shifts = self.is_done_between(all, Associativity::Right, self.shift);
                (reduces || shifts).then_some(Advice::Both { reduces, shifts })
            }
            Some(token) => match candidate.standing {
                Standing::NoToken => self.with_token_line(rule, token),
                Standing::NoRule => self.with_rule_line(rule, token),
                _ => self.with_lines(rule, token),
            },
            None if is_inner(self.asked.grammar(), rule) => Some(Advice::Inner),
            None => {
                let chooses = self.chooses_by(rule, Associativity::Right);
                chooses.then_some(Advice::Own)
            }
        }
    }

    /// A line for the token, where the rule has that of another token.
    fn with_token_line(&self, rule: usize, giver: Sym) -> Option<Advice> {
        let at = self.place(rule).unwrap_or(TOP);
        let words = Words {
            giver,
            shifts: self.kinds_between((at, usize::MAX), self.shift),
            reduces: self.kinds_between((0, at), Action::Reduce(rule)),
        };
        (words.shifts.any() || words.reduces.any()).then_some(Advice::Token(words))
    }

    /// A line for the token that would give the rule its precedence, where the token of the cell
    /// has one.
    fn with_rule_line(&self, rule: usize, giver: Sym) -> Option<Advice> {
        let level = level_of(self.asked.grammar(), self.asked.token).map_or(0, |it| it.level);
        let at = place_of(level);
        let above = self.with_giver(giver, at.saturating_sub(1));
        let below = self.with_giver(giver, at.saturating_add(1));
        let shifts = self.is_done(above, self.shift);
        let reduces = self.is_done(below, Action::Reduce(rule));
        (shifts && reduces).then_some(Advice::Rule(giver))
    }

    /// The lines of two tokens.
    fn with_lines(&self, rule: usize, giver: Sym) -> Option<Advice> {
        let words = Words {
            giver,
            shifts: self.kinds_by((self.asked.token, giver), self.shift),
            reduces: self.kinds_by((giver, self.asked.token), Action::Reduce(rule)),
        };
        let kinds = words.shifts.and(words.reduces);
        let by_own = Kinds::by(|kind| self.chooses_by(rule, kind));
        let own = kinds.any() && kinds.and(by_own) == kinds;
        (words.shifts.any() || words.reduces.any()).then_some(Advice::Lines { words, own })
    }
}
