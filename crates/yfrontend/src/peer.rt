//! What bison does in a cell (bison 3.8, conflicts.c): it compares the rules with the shift one
//! after the other, as long as the shift is there.

use yexplain::reads::{candidate_of, rule_of, shift_of};
use yforeign::lexeme::Span;
use ylalr::END;
use yprovenance::Candidate;
use ysymbols::{Grammar, Sym};
use ytables::{Class, Tables};

/// What bison compares rules and tokens by.
#[derive(Clone, Copy)]
pub struct Peer<'a> {
    /// The tables, without the ends that bodies of the file have.
    pub tables: &'a Tables,
    /// Where the `%precedence` stands for each level that comes from one.
    pub levels: &'a [Option<Span>],
    /// For each rule, which of the ends that were taken out of bodies stood in its own.
    pub ended: &'a [Option<usize>],
}

/// What bison leaves in a cell.
#[derive(Clone, Copy, Default, Drop)]
pub struct Left {
    /// Whether the shift is left.
    pub shift: bool,
    /// How many reductions are left.
    pub reductions: usize,
    /// The first rules that are left.
    pub first: Option<usize>,
    /// The rule that is left after the first.
    pub second: Option<usize>,
    /// The rule that took the shift away.
    pub winner: Option<usize>,
    /// The rule with which the shift is forbidden.
    pub banning: Option<usize>,
    /// The first rule with which `yacc` forbids the shift, and bison doesn't: it isn't compared,
    /// or has the level of the token by `%precedence`.
    pub passed: Option<usize>,
    /// The first rule after which bison shifts the end of its body.
    pub ended: Option<usize>,
    /// How many such rules there are.
    pub ends: usize,
}

impl Left {
    /// Leaves a rule.
    fn leave(&mut self, rule: usize) {
        self.reductions = self.reductions.saturating_add(1);
        self.second = self.second.or(self.first.and(Some(rule)));
        self.first = self.first.or(Some(rule));
    }

    /// Compares a rule with the shift.
    fn compare(&mut self, candidate: Candidate) {
        let rule = candidate.rule;
        match candidate.standing.class() {
            Class::Ban => {
                self.banning = Some(rule);
                self.shift = false;
            }
            Class::Beat => {
                self.winner = Some(rule);
                self.shift = false;
                self.leave(rule);
            }
            Class::Rest => self.leave(rule),
            Class::Lose => {}
        }
    }

    /// Whether there is anything to be done, or was.
    pub fn is_filled(&self) -> bool {
        self.shift || self.reductions > 0 || self.banning.is_some()
    }

    /// How many shift/reduce conflicts bison counts.
    pub fn shift_reduce(&self) -> usize {
        usize::from(self.shift && self.reductions > 0)
    }

    /// How many reduce/reduce conflicts bison counts, with those after the end.
    pub fn reduce_reduce(&self) -> usize {
        let ends = self.ends.saturating_sub(1);
        self.reductions.saturating_sub(1).saturating_add(ends)
    }
}

impl<'a> Peer<'a> {
    /// The grammar of the tables.
    pub fn grammar(&self) -> &'a Grammar {
        self.tables.automaton().grammar()
    }

    /// Where the `%precedence` stands that a rule has its level from, where it has it from one.
    pub fn level_of(&self, rule: usize) -> Option<Span> {
        let precedence = rule_of(self.grammar(), rule)?.precedence()?;
        let place = precedence.level.checked_sub(1)?;
        self.levels.get(place).copied()?
    }

    /// Which of the ends that were taken out of bodies stood in that of a rule.
    pub fn end_of(&self, rule: usize) -> Option<usize> {
        self.ended.get(rule).copied().flatten()
    }

    /// Takes a rule into a cell that had a shift, or hadn't.
    fn take(&self, left: &mut Left, candidate: Candidate, token: Sym, shifts: bool) {
        let rule = candidate.rule;
        let is_ban = candidate.standing.class() == Class::Ban;
        // bison leaves a rule and the shift beside each other where yacc forbids both
        let is_equal = is_ban && self.level_of(rule).is_some();
        if token == END && self.end_of(rule).is_some() {
            left.shift = true;
            left.ends = left.ends.saturating_add(1);
            left.ended = left.ended.or(Some(rule));
        } else if !shifts {
            left.leave(rule);
        } else if left.shift && !is_equal {
            left.compare(candidate);
        } else {
            if is_ban {
                left.passed = left.passed.or(Some(rule));
            }
            left.leave(rule);
        }
    }

    /// What is left in a cell, where the items at these places can be reduced.
    pub fn left_in(&self, state: usize, token: Sym, ready: &[usize]) -> Left {
        let shifts = shift_of(self.tables, state, token).is_some();
        let mut left = Left {
            shift: shifts,
            ..Left::default()
        };
        for index in ready {
            if let Some(candidate) = candidate_of(self.tables, state, token, *index) {
                self.take(&mut left, candidate, token, shifts);
            }
        }
        left
    }
}
