//! Changes of rules that may settle a conflict: each is tried by tables of its own, and the language
//! is compared.

use crate::ahead::second_after;
use crate::candidates::{Candidate, for_idiom, for_rules, for_shift, push_rewriting};
use crate::changed::{conflicts_in, tables_after};
use crate::changed_text::Change;
use crate::cover::are_covered;
use crate::idioms::{Idiom, idioms_of};
use crate::language::{Language, accepts, is_same, language_of, renamed};
use crate::rewriting::Rewriting;
use std::alloc::Global;
use yexplain::lines::Lines;
use yexplain::reads::{Made, grammar_of, level_of, name_of};
use ylalr::{END, ERROR, token_count};
use ysearch::groups::{Group, Kind};
use ysearch::moves::Moves;
use ysearch::shortest::Shortest;
use ysymbols::{Grammar, Sym, let_go};
use ytables::Tables;

/// The most states of tables of which changes are tried.
pub const MOST_STATES: usize = 800;

/// How many states all tables may have that are made.
const ALL_STATES: usize = 24_000;

/// How many changes are tried in a run at most, and of how many the language is compared.
const ALL_CHANGES: usize = 80;

const MOST_COMPARED: usize = 12;

/// How many steps parses over sentences may take for a change.
const MOST_PARSED: usize = 400_000;

/// The most rules that lose for which changes are tried.
const MOST_LOSERS: usize = 2;

/// A change that leaves fewer conflicts.
#[derive(Clone, Copy, Drop)]
pub struct Tried {
    /// The change.
    pub change: Change,
    /// How many conflicts are left with it, and how many there are.
    pub left: usize,
    pub all: usize,
    /// On how many sentences, which are all of up to so many tokens, the language was found to be
    /// the same; `None` where it is the same by what the change is, and that would take too long.
    pub same: Option<(usize, usize)>,
}

/// That the second token tells what is taken from a rule.
#[derive(Drop)]
pub struct Apart {
    /// The token of the conflict, and the rule.
    pub token: Sym,
    pub rule: usize,
    /// The tokens after it where what is taken is right, and those where the rule is.
    pub taken: Vec<Sym>,
    pub other: Vec<Sym>,
}

/// What is known of a conflict beside its rivals.
pub struct Mended {
    /// The place of the idiom from which it comes.
    pub idiom: Option<usize>,
    /// A change that leaves fewer conflicts.
    pub tried: Option<Tried>,
    /// What the second token tells.
    pub apart: Option<Apart>,
}

impl Drop for Mended {
    // A call in each owner, which keeps their proofs short.
    fn drop(self) {
        let_go!(self: Mended { idiom, tried, apart });
    }
}

/// What tries changes for the conflicts of a run.
pub struct Mender {
    alloc: Global,
    /// The idioms of the grammar.
    pub idioms: Vec<Idiom>,
    moves: Moves,
    language: Option<Language>,
    /// What came of the changes that were tried.
    known: Vec<(Change, Option<Tried>)>,
    /// How many changes may still be tried, and of how many the language be compared.
    left: usize,
    compared: usize,
}

impl Drop for Mender {
    // A call in each owner, which keeps their proofs short.
    fn drop(self) {
        let_go!(self: Mender { alloc, idioms, moves, language, known, left, compared });
    }
}

/// Whether a grammar has precedences.
fn has_levels(grammar: &Grammar) -> bool {
    for token in ERROR..token_count(grammar) {
        if level_of(grammar, token).is_some() {
            return true;
        }
    }
    false
}

impl Mender {
    /// The idioms of the grammar, once no more is tried.
    pub fn into_idioms(self) -> Vec<Idiom> {
        let Mender {
            alloc: _,
            idioms,
            moves: _,
            language: _,
            known: _,
            left: _,
            compared: _,
        } = self;
        idioms
    }

    /// What tries changes of the grammar of tables, unless these have too many states.
    pub fn new(alloc: Global, tables: &Tables) -> Made<Mender> {
        let automaton = tables.automaton();
        let (grammar, states) = (automaton.grammar(), automaton.states());
        let shortest = Shortest::new(alloc, grammar)?;
        let moves = Moves::new(alloc, automaton, &shortest)?;
        let mut mender = Mender {
            alloc,
            idioms: Vec::new(alloc),
            moves,
            language: None,
            known: Vec::new(alloc),
            left: 0,
            compared: MOST_COMPARED,
        };
        if states <= MOST_STATES {
            mender.idioms = idioms_of(alloc, automaton, &shortest)?;
            mender.language = language_of(alloc, grammar, &shortest)?;
            let each = states.saturating_add(1);
            mender.left = ALL_STATES.checked_div(each).unwrap_or(0).min(ALL_CHANGES);
        }
        Ok(mender)
    }

    /// All sentences of a few tokens, where they are known.
    pub fn sentences(&self) -> &[Vec<Sym>] {
        match &self.language {
            Some(language) => language.sentences.as_slice(),
            None => &[],
        }
    }

    /// How many tokens these may have, and how many they are.
    pub fn bound(&self) -> (usize, usize) {
        match &self.language {
            Some(language) => (language.most, language.sentences.len()),
            None => (0, 0),
        }
    }

    /// The place of the first idiom from which a conflict comes.
    pub fn idiom_of(&self, tables: &Tables, kind: &Kind) -> Option<usize> {
        for (place, idiom) in self.idioms.iter().enumerate() {
            if idiom.concerns(tables.automaton(), kind.rules()) {
                return Some(place);
            }
        }
        None
    }

    /// The changes that mend the idiom at a place; none where there is none.
    fn for_place(&self, tables: &Tables, place: Option<usize>) -> Made<Vec<Candidate>> {
        match self.idioms.get(place.unwrap_or(usize::MAX)) {
            Some(idiom) => for_idiom(self.alloc, tables, idiom),
            None => Ok(Vec::new(self.alloc)),
        }
    }

    /// On how many sentences of up to so many tokens other tables were compared, and whether the
    /// language is the same; `None` where that isn't known.
    fn same(&self, tables: &Tables, changed: &Tables) -> Made<Option<(usize, usize, bool)>> {
        let Some(language) = &self.language else {
            return Ok(None);
        };
        let (most, count) = self.bound();
        Ok(
            match is_same(self.alloc, grammar_of(tables), language, changed)? {
                Some(it) => Some((most, count, it)),
                None => None,
            },
        )
    }

    /// Whether other tables refuse one of the sentences that tables accept, or that isn't known:
    /// precedences refuse sentences that rules derive.
    fn loses(&self, tables: &Tables, changed: &Tables) -> Made<bool> {
        let (alloc, mut left) = (self.alloc, MOST_PARSED);
        for sentence in self.sentences() {
            let names = (grammar_of(tables), grammar_of(changed));
            let is_kept = match renamed(alloc, names.0, names.1, sentence)? {
                Some(tokens) => accepts(alloc, changed, &tokens, &mut left)?,
                None => Some(false),
            };
            if is_kept != Some(true)
                && accepts(alloc, tables, sentence, &mut left)? != Some(false)
            {
                return Ok(true);
            }
        }
        Ok(false)
    }

    /// What comes of a change, where it leaves fewer conflicts and the same language.
    fn outcome(
        &mut self,
        tables: &Tables,
        lines: &Lines,
        candidate: Candidate,
    ) -> Made<Option<Tried>> {
        let (alloc, grammar, change) = (self.alloc, grammar_of(tables), candidate.change);
        let Some(changed) = tables_after(alloc, grammar, lines, change)? else {
            return Ok(None);
        };
        let (left, all) = (conflicts_in(&changed), conflicts_in(tables));
        if left >= all || self.loses(tables, &changed)? {
            return Ok(None);
        }
        // a new token is another language
        let is_new = matches!(change, Change::Rewritten(Rewriting::Token { .. }));
        if !is_new && !are_covered(alloc, tables, &changed, candidate.is_kept)? {
            return Ok(None);
        }
        let mut same = None;
        if self.compared > 0 {
            self.compared = self.compared.saturating_sub(1);
            same = match self.same(tables, &changed)? {
                Some((_, _, false)) => return Ok(None),
                Some((most, sentences, true)) => Some((most, sentences)),
                None => None,
            };
        }
        // without sentences it isn't known what precedences refuse
        let is_plain = is_new || self.language.is_some() || !has_levels(grammar);
        let is_kept = candidate.is_kept && is_plain;
        let is_known = is_kept || same.is_some();
        Ok(is_known.then_some(Tried {
            change,
            left,
            all,
            same,
        }))
    }

    /// The same, which is kept.
    fn tried(&mut self, tables: &Tables, lines: &Lines, asked: Candidate) -> Made<Option<Tried>> {
        for (change, tried) in &self.known {
            if *change == asked.change {
                return Ok(*tried);
            }
        }
        if self.left == 0 {
            return Ok(None);
        }
        self.left = self.left.saturating_sub(1);
        let tried = self.outcome(tables, lines, asked)?;
        self.known.push((asked.change, tried))?;
        Ok(tried)
    }

    /// The change that leaves the fewest conflicts; the first of several.
    fn best(&mut self, tables: &Tables, lines: &Lines, list: &[Candidate]) -> Made<Option<Tried>> {
        let mut best: Option<Tried> = None;
        for candidate in list {
            if let Some(tried) = self.tried(tables, lines, *candidate)? {
                best = match best {
                    Some(it) if it.left <= tried.left => Some(it),
                    _ => Some(tried),
                };
                if tried.left == 0 {
                    break;
                }
            }
        }
        Ok(best)
    }

    /// The best change for a conflict without an idiom: of the rules between which it is, or where
    /// no ambiguity was found, that what a rule begins with is written out.
    fn best_for(
        &mut self,
        tables: &Tables,
        lines: &Lines,
        (kind, is_open): (&Kind, bool),
    ) -> Made<Option<Tried>> {
        let (alloc, grammar) = (self.alloc, grammar_of(tables));
        let mut best: Option<Tried> = None;
        for other in kind.others().iter().take(MOST_LOSERS) {
            let list = match kind.taken() {
                Some(taken) => for_rules(alloc, grammar, (taken, *other))?,
                None if is_open => for_shift(alloc, grammar, *other)?,
                None => continue,
            };
            if let Some(tried) = self.best(tables, lines, &list)? {
                best = match best {
                    Some(it) if it.left <= tried.left => Some(it),
                    _ => Some(tried),
                };
            }
        }
        Ok(best)
    }

    /// What the second token tells in a conflict of two rivals, where it tells them apart.
    fn apart(&self, tables: &Tables, kind: &Kind, group: Group) -> Made<Option<Apart>> {
        let (alloc, token) = (self.alloc, kind.token);
        let rule = match kind.others() {
            [rule] if token != END => *rule,
            _ => return Ok(None),
        };
        let cell = (group.state, token);
        let taken = second_after(alloc, tables, &self.moves, cell, kind.taken())?;
        let other = second_after(alloc, tables, &self.moves, cell, Some(rule))?;
        let mut is_shared = false;
        for token in &other {
            is_shared = is_shared || taken.contains(token);
        }
        if is_shared || taken.is_empty() || other.is_empty() {
            return Ok(None);
        }
        Ok(Some(Apart {
            token,
            rule,
            taken,
            other,
        }))
    }

    /// A token of its own for one that the next token tells apart, where that leaves fewer
    /// conflicts.
    fn token_for(&mut self, tables: &Tables, lines: &Lines, apart: &Apart) -> Made<Option<Tried>> {
        let (grammar, token) = (grammar_of(tables), apart.token);
        let is_name = !name_of(grammar, token).starts_with(b"'");
        let is_plain = is_name && level_of(grammar, token).is_none();
        let mut list = Vec::new(self.alloc);
        for side in [&apart.other, &apart.taken] {
            if let (true, true, Some(next)) = (is_plain, side.len() == 1, side.first()) {
                let next = *next;
                push_rewriting(&mut list, Rewriting::Token { token, next }, true)?;
            }
        }
        // the language is another one by the new token
        let language = self.language.take();
        let tried = self.best(tables, lines, &list)?;
        self.language = language;
        Ok(tried)
    }

    /// What is known of a conflict beside its rivals; where no ambiguity was found, also what more
    /// lookahead tells.
    pub fn mend(
        &mut self,
        tables: &Tables,
        lines: &Lines,
        (kind, group): (&Kind, Group),
        is_open: bool,
    ) -> Made<Mended> {
        let idiom = self.idiom_of(tables, kind);
        let list = self.for_place(tables, idiom)?;
        let mut tried = self.best(tables, lines, &list)?;
        if tried.is_none() {
            tried = self.best_for(tables, lines, (kind, is_open))?;
        }
        let mut apart = None;
        if is_open && idiom.is_none() {
            apart = self.apart(tables, kind, group)?;
        }
        if let Some(apart) = &apart {
            if tried.is_none() {
                tried = self.token_for(tables, lines, apart)?;
            }
        }
        Ok(Mended {
            idiom,
            tried,
            apart,
        })
    }
}
