//! Precedences as they could be, and how rules stand to tokens with them.

use crate::lines::Lines;
use crate::question::Question;
use crate::reads::{level_of, rule_of};
use yprovenance::{Rival, settle};
use ysymbols::{Associativity, Grammar, Precedence, Sym};
use ytables::{Action, Cell, Standing, standing_between};

/// The place of a line above all others, with room for one between.
pub const TOP: usize = 1;

/// The place of a line below all others, with room for one below it.
pub const BOTTOM: usize = usize::MAX / 2;

/// The place of the line of a level. Lines have four places each, so that there is room between.
pub fn place_of(level: usize) -> usize {
    level.saturating_mul(4)
}

/// A precedence with its place in place of its level.
fn placed(precedence: Option<Precedence>) -> Option<Precedence> {
    let Precedence { level, kind } = precedence?;
    Some(line(place_of(level), kind))
}

/// The precedence by a line at a place.
pub fn line(place: usize, kind: Associativity) -> Precedence {
    Precedence { level: place, kind }
}

/// Precedences of which some are other than those of the grammar.
#[derive(Clone, Copy)]
pub struct Supposed<'a> {
    /// The grammar.
    pub grammar: &'a Grammar,
    /// Where rules have their precedences from.
    pub lines: &'a Lines,
    /// A token with another precedence, and all rules that have theirs from it.
    pub token: Option<(Sym, Precedence)>,
    /// A second such token.
    pub other: Option<(Sym, Precedence)>,
    /// A rule with another precedence.
    pub rule: Option<(usize, Precedence)>,
    /// Marks of tokens that are all named on one line of `%left` after all others.
    pub tokens: &'a [bool],
    /// Marks of rules that have a name of their own on that line.
    pub rules: &'a [bool],
}

/// The precedence that is supposed of a token or a rule, where one is.
fn among(supposed: Option<(usize, Precedence)>, number: usize) -> Option<Precedence> {
    match supposed {
        Some((it, precedence)) if it == number => Some(precedence),
        _ => None,
    }
}

/// The precedence by the line after all others, where a number is marked.
fn marked(marks: &[bool], number: usize) -> Option<Precedence> {
    let is_marked = marks.get(number).copied().unwrap_or(false);
    is_marked.then_some(line(BOTTOM, Associativity::Left))
}

impl Supposed<'_> {
    /// What is supposed of a token, where something is.
    fn supposed(self, token: Sym) -> Option<Precedence> {
        among(self.token, token)
            .or(among(self.other, token))
            .or(marked(self.tokens, token))
    }

    /// A rule in a cell of a token.
    pub fn rival(self, rule: usize, token: Sym) -> Rival {
        let level = placed(level_of(self.grammar, token));
        let of_token = self.supposed(token).or(level);
        let own = among(self.rule, rule).or(marked(self.rules, rule));
        let given = match self.lines.giver(self.grammar, rule) {
            Some(giver) => self.supposed(giver),
            None => None,
        };
        let level = match rule_of(self.grammar, rule) {
            Some(it) => placed(it.precedence()),
            None => None,
        };
        let standing = standing_between(of_token, own.or(given).or(level));
        Rival { rule, standing }
    }
}

/// A cell as precedences are tried on it.
#[derive(Clone, Copy, Drop)]
pub struct Contest {
    /// The token.
    pub token: Sym,
    /// The shift, where it is a candidate.
    pub shift: Option<Action>,
    rules: [usize; 10],
    count: usize,
}

impl Contest {
    /// The cell that is asked for.
    pub fn of(asked: Question<'_>) -> Contest {
        let mut rules = [0usize; 10];
        for (place, candidate) in rules.iter_mut().zip(asked.candidates()) {
            *place = candidate.rule;
        }
        Contest {
            token: asked.token,
            shift: asked.shift(),
            rules,
            count: asked.candidates().count(),
        }
    }

    /// Its rules; `None` where there are too many to be tried.
    pub fn rules(&self) -> Option<&[usize]> {
        self.rules.get(..self.count)
    }

    /// Its rules; of too many the first ones.
    pub fn first_rules(&self) -> &[usize] {
        self.rules().unwrap_or(&self.rules)
    }

    /// What settles it with these precedences; `None` where it has too many rules to be tried.
    pub fn settled(&self, supposed: Supposed<'_>) -> Option<Cell> {
        let rules = self.rules()?;
        let nothing = Rival {
            rule: 0,
            standing: Standing::Neither,
        };
        let mut rivals = [nothing; 10];
        for (rival, rule) in rivals.iter_mut().zip(rules) {
            *rival = supposed.rival(*rule, self.token);
        }
        Some(settle(self.shift, rivals.get(..self.count)?))
    }
}
