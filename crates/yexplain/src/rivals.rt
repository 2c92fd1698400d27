//! A cell with a shift and its rules, and what would be done in it with other precedences, wherever
//! their lines may be put.

use crate::question::Question;
use crate::reads::{level_of, rule_of};
use crate::supposed::{BOTTOM, Contest, Supposed, TOP, line, place_of};
use std::fmt;
use ysymbols::{Associativity, Precedence, Sym};
use ytables::Action;

/// The words for lines of precedence with which a hint holds.
#[derive(Clone, Copy, Drop, PartialEq, Eq)]
pub struct Kinds {
    /// `%left`.
    pub left: bool,
    /// `%right`.
    pub right: bool,
    /// `%nonassoc`.
    pub nonassoc: bool,
}

impl Kinds {
    /// Those for which this is so.
    pub fn by<F: Fn(Associativity) -> bool + Drop>(is_so: F) -> Kinds
        requires { F.IsAlwaysCallable is_so }
    {
        Kinds {
            left: is_so(Associativity::Left),
            right: is_so(Associativity::Right),
            nonassoc: is_so(Associativity::Nonassoc),
        }
    }

    /// Those with which another hint holds too.
    pub fn and(self, other: Kinds) -> Kinds {
        Kinds {
            left: self.left && other.left,
            right: self.right && other.right,
            nonassoc: self.nonassoc && other.nonassoc,
        }
    }

    /// Whether there is one.
    pub fn any(self) -> bool {
        self.left || self.right || self.nonassoc
    }

    /// Those that are offered: `%nonassoc`, which refuses sentences, only where no other word does.
    pub fn offered(self) -> Kinds {
        Kinds {
            left: self.left,
            right: self.right,
            nonassoc: self.nonassoc && !self.left && !self.right,
        }
    }
}

impl fmt::Display for Kinds {
    fn fmt<W: fmt::Write>(&self, f: &mut fmt::Formatter<W>) -> fmt::Result {
        f.write_str(match (self.left, self.right) {
            (true, true) => "%left or %right",
            (true, false) => "%left",
            (false, true) => "%right",
            (false, false) => "%nonassoc",
        })
    }
}

/// A cell with a shift, and its rules.
#[derive(Clone, Copy)]
pub struct Rivals<'a> {
    /// The cell that is asked for.
    pub asked: Question<'a>,
    /// The shift.
    pub shift: Action,
    /// The cell as precedences are tried on it.
    pub contest: Contest,
}

impl<'a> Rivals<'a> {
    /// The cell that is asked for.
    pub fn new(asked: Question<'a>) -> Rivals<'a> {
        let shift = asked.shift().unwrap_or(Action::Error);
        let mut contest = Contest::of(asked);
        contest.shift = Some(shift);
        Rivals {
            asked,
            shift,
            contest,
        }
    }

    /// The precedences as they are.
    pub fn supposed(&self) -> Supposed<'a> {
        Supposed {
            grammar: self.asked.grammar(),
            lines: self.asked.lines,
            token: None,
            other: None,
            rule: None,
            tokens: &[],
            rules: &[],
        }
    }

    /// Whether this is done in the cell; never, where it has too many rules to be tried.
    pub fn is_done(&self, supposed: Supposed<'a>, action: Action) -> bool {
        match self.contest.settled(supposed) {
            Some(cell) => cell.action == action,
            None => false,
        }
    }

    /// Whether some rule is reduced in the cell.
    pub fn reduces(&self, supposed: Supposed<'a>) -> bool {
        match self.contest.settled(supposed) {
            Some(cell) => matches!(cell.action, Action::Reduce(_)),
            None => false,
        }
    }

    /// The place of the line of a rule, where it has one.
    pub fn place(&self, rule: usize) -> Option<usize> {
        let precedence = rule_of(self.asked.grammar(), rule)?.precedence()?;
        Some(place_of(precedence.level))
    }

    /// Where a line can be put: above, at and below that of each rule, at the top and the bottom.
    fn places(&self) -> [usize; 32] {
        let mut found = [BOTTOM; 32];
        let mut entries = found.iter_mut();
        if let Some(entry) = entries.next() {
            *entry = TOP;
        }
        for rule in self.contest.first_rules() {
            let Some(at) = self.place(*rule) else {
                continue;
            };
            for place in [at.saturating_sub(1), at, at.saturating_add(1)] {
                if let Some(entry) = entries.next() {
                    *entry = place;
                }
            }
        }
        found
    }

    /// The precedences where the token stands on a line at a place.
    pub fn with_token(&self, place: usize, kind: Associativity) -> Supposed<'a> {
        Supposed {
            token: Some((self.asked.token, line(place, kind))),
            ..self.supposed()
        }
    }

    /// Whether this is done in the cell, wherever the line of the token is put between two places.
    pub fn is_done_between(
        &self,
        (from, to): (usize, usize),
        kind: Associativity,
        action: Action,
    ) -> bool {
        for place in self.places() {
            let is_between = from < place && place < to;
            if is_between && !self.is_done(self.with_token(place, kind), action) {
                return false;
            }
        }
        true
    }

    /// The words with which this is done wherever the line of the token is put between two places.
    pub fn kinds_between(&self, places: (usize, usize), action: Action) -> Kinds {
        Kinds::by(|kind| self.is_done_between(places, kind, action))
    }

    /// Whether this is done where two tokens stand on lines of this word, the first one below the
    /// other, above all other lines and below all.
    fn is_done_by(&self, pair: (Sym, Sym), kind: Associativity, action: Action) -> bool {
        for place in [TOP, BOTTOM] {
            let supposed = Supposed {
                token: Some((pair.0, line(place.saturating_add(1), kind))),
                other: Some((pair.1, line(place, kind))),
                ..self.supposed()
            };
            if !self.is_done(supposed, action) {
                return false;
            }
        }
        true
    }

    /// The words of lines for two tokens, the first one below the other, with which this is done.
    pub fn kinds_by(&self, pair: (Sym, Sym), action: Action) -> Kinds {
        Kinds::by(|kind| self.is_done_by(pair, kind, action))
    }

    /// The precedences where the line of the token has another word.
    pub fn with_word(&self, kind: Associativity) -> Supposed<'a> {
        let level = level_of(self.asked.grammar(), self.asked.token).map_or(0, |it| it.level);
        self.with_token(place_of(level), kind)
    }

    /// Whether some rule is reduced, wherever the line of the token is put above a place.
    pub fn reduces_above(&self, to: usize, kind: Associativity) -> bool {
        for place in self.places() {
            if place < to && !self.reduces(self.with_token(place, kind)) {
                return false;
            }
        }
        true
    }

    /// The precedences where a token that gives rules theirs stands on a line at a place.
    pub fn with_giver(&self, token: Sym, place: usize) -> Supposed<'a> {
        Supposed {
            other: Some((token, line(place, Associativity::Nonassoc))),
            ..self.supposed()
        }
    }

    /// The precedences where a rule has a line of its own at a place, and the token one, too.
    pub fn with_own(&self, rule: usize, place: usize, token: Precedence) -> Supposed<'a> {
        Supposed {
            token: Some((self.asked.token, token)),
            rule: Some((rule, line(place, Associativity::Right))),
            ..self.supposed()
        }
    }

    /// Whether a name of its own for a rule chooses, where the token stands on this line.
    fn chooses(&self, rule: usize, token: Precedence) -> bool {
        let (above, below) = (token.level.saturating_sub(1), token.level.saturating_add(1));
        self.is_done(self.with_own(rule, above, token), self.shift)
            && self.is_done(self.with_own(rule, below, token), Action::Reduce(rule))
    }

    /// Whether a name of its own for a rule chooses, where the token has a line of this word.
    pub fn chooses_by(&self, rule: usize, kind: Associativity) -> bool {
        match level_of(self.asked.grammar(), self.asked.token) {
            Some(level) => self.chooses(rule, line(place_of(level.level), level.kind)),
            None => {
                self.chooses(rule, line(TOP.saturating_add(1), kind))
                    && self.chooses(rule, line(BOTTOM.saturating_add(1), kind))
            }
        }
    }
}
