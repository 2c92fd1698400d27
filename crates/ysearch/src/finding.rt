//! The lists of tokens that get to a conflict, each tried in a session.

use crate::budget::Share;
use crate::groups::{Group, Kind};
use crate::others::Others;
use crate::search::{Finder, Found, Target};
use crate::trial::{self, Trial, try_list};
use std::alloc::{AllocError, Global};
use std::io;
use yexplain::reads::Made;
use ylalr::END;
use yparse::Session;
use ysymbols::{Sym, let_go};

/// How many lists are tried, the first one among them, where that one doesn't get there.
const MOST_LISTS: usize = 100;

/// The most steps of a parse over a first list, and over all further lists of one.
const MOST_STEPS: usize = 100_000;

/// The most forms that are made for the further lists of one.
const MOST_FORMS: usize = 4_000;

/// How many steps any trial may take.
const LEAST_STEPS: usize = 5_000;

/// How many steps all first lists of a run may take together, and all further ones, beside those
/// that each may take in any case.
const ALL_STEPS: usize = 2_000_000;

/// The most tokens of a list that is shown.
const MOST_TOKENS: usize = 1_000;

/// Which rivals a list allows.
#[derive(Clone, Copy, Drop, PartialEq, Eq)]
pub enum Allows {
    /// What is taken and its rules.
    Both,
    /// Its rules alone, since no list allows both: states were merged.
    One,
    /// Its rules alone, since no list for both was found within the limits.
    Found,
}

/// A list of tokens before the token of the conflict.
pub struct List {
    /// Which of the rivals it allows.
    pub allows: Allows,
    /// The rules that it is for.
    pub rules: Vec<usize>,
    /// The tokens, up to the token of the conflict.
    pub tokens: Vec<Sym>,
    /// What a session over it came to.
    pub trial: Trial,
    /// Where the parse misses the state, the next list with which it doesn't, and in how many
    /// steps.
    pub other: Option<(Vec<Sym>, usize)>,
    /// How many further lists were tried.
    pub tried: usize,
    /// Whether a parse over one of them comes to the state after an error.
    pub recovered: bool,
}

impl Drop for List {
    // A call in each owner, which keeps their proofs short.
    fn drop(self) {
        let_go!(self: List { allows, rules, tokens, trial, other, tried, recovered });
    }
}

/// What was found for the cells of one kind.
#[derive(Drop)]
pub struct Finding {
    /// The lists: one that allows what is taken and a further rule, or one for each of them.
    pub lists: Vec<List>,
    /// Whether a list was found, but is too long to be shown.
    pub long: bool,
    /// Whether a list wasn't found within the limits.
    pub late: bool,
}

/// What lists are sought with.
#[derive(Drop)]
pub struct Seeker<'a> {
    alloc: Global,
    /// What searches for lists.
    pub finder: Finder,
    /// The session in which lists are tried.
    pub session: &'a mut Session,
    /// How many steps first lists may take, and further ones.
    steps: Share,
    steps_for_others: Share,
}

/// A cell and the rules of which both are to be possible; the rule that the list is for.
#[derive(Clone, Copy)]
struct Goal {
    target: Target,
    rule: usize,
    allows: Allows,
}

impl<'a> Seeker<'a> {
    /// What lists for the conflicts of a session without tokens are sought with.
    pub fn new(alloc: Global, session: &'a mut Session) -> Made<Seeker<'a>> {
        let steps = Share::new(ALL_STEPS, 8, (LEAST_STEPS, MOST_STEPS));
        Ok(Seeker {
            alloc,
            finder: Finder::new(alloc, session.tables().automaton())?,
            session,
            steps,
            steps_for_others: steps,
        })
    }

    /// The lists for the cells of a kind: for what is taken and each other rule that is shown, or
    /// else one for each of both.
    pub fn find(&mut self, kind: &Kind, group: Group) -> io::Result<Finding> {
        let mut finding = Finding {
            lists: Vec::new(self.alloc),
            long: false,
            late: false,
        };
        for rule in kind.others() {
            let target = Target {
                state: group.state,
                token: kind.token,
                first: kind.taken(),
                second: Some(*rule),
            };
            let allows = match self.finder.find(self.session.tables().automaton(), target)? {
                Found::Way(way) => {
                    let (rule, allows) = (*rule, Allows::Both);
                    let goal = Goal {
                        target,
                        rule,
                        allows,
                    };
                    self.add(goal, &way, &mut finding)?;
                    continue;
                }
                Found::Nothing => Allows::One,
                Found::Late => Allows::Found,
            };
            if let Some(taken) = target.first {
                self.find_one(target, taken, allows, &mut finding)?;
            }
            self.find_one(target, *rule, allows, &mut finding)?;
        }
        Ok(finding)
    }

    /// The list for one rule, where there is none yet that allows as much.
    fn find_one(
        &mut self,
        target: Target,
        rule: usize,
        allows: Allows,
        finding: &mut Finding,
    ) -> io::Result<()> {
        for list in &finding.lists {
            if list.allows == allows && list.rules.contains(&rule) {
                return Ok(());
            }
        }
        let goal = Goal {
            target: Target {
                first: Some(rule),
                second: None,
                ..target
            },
            rule,
            allows,
        };
        let automaton = self.session.tables().automaton();
        match self.finder.find(automaton, goal.target)? {
            Found::Way(way) => self.add(goal, &way, finding),
            Found::Nothing | Found::Late => {
                finding.late = true;
                Ok(())
            }
        }
    }

    /// Adds the list of a way, where it isn't too long.
    fn add(&mut self, goal: Goal, way: &[Sym], finding: &mut Finding) -> io::Result<()> {
        let grammar = self.session.tables().automaton().grammar();
        let shortest = &self.finder.shortest;
        if let Some(tokens) = shortest.sentence(self.alloc, grammar, way)? {
            if tokens.len() <= MOST_TOKENS {
                return self.add_list(goal, tokens, finding);
            }
        }
        finding.long = true;
        Ok(())
    }

    /// Adds the rule to the list of these tokens, or the list, tried, where there is none; and
    /// others, where its parse misses the state.
    fn add_list(&mut self, goal: Goal, tokens: Vec<Sym>, finding: &mut Finding) -> io::Result<()> {
        for list in finding.lists.iter_mut() {
            if list.allows == goal.allows && list.tokens.as_slice() == tokens.as_slice() {
                list.rules.push(goal.rule).map_err(AllocError::from)?;
                return Ok(());
            }
        }
        let most = self.steps.part();
        let (trial, steps) = self.tried(goal, &tokens, most)?;
        self.steps.spend(steps);
        let mut list = List {
            allows: goal.allows,
            rules: Vec::from_slice(self.alloc, &[goal.rule])?,
            tokens,
            trial,
            other: None,
            tried: 0,
            recovered: false,
        };
        // the parse doesn't come to the state without an error, or was given up before
        if matches!(trial, Trial::Missed | Trial::Recovered(_) | Trial::Late(_)) {
            self.try_others(goal, &mut list)?;
        }
        finding.lists.push(list).map_err(AllocError::from)?;
        Ok(())
    }

    /// What a parse over tokens comes to in so many steps, and in how many it does.
    fn tried(&mut self, goal: Goal, tokens: &[Sym], most: usize) -> io::Result<(Trial, usize)> {
        let cell = trial::Goal {
            state: goal.target.state,
            token: goal.target.token,
            most,
        };
        let (trial, steps) = try_list(self.session, tokens, cell)?;
        self.finder.steps.spend(steps);
        Ok((trial, steps))
    }

    /// Tries the next lists, so many at most, until the parse gets there; that one is kept.
    fn try_others(&mut self, goal: Goal, list: &mut List) -> io::Result<()> {
        let automaton = self.session.tables().automaton();
        let finder = &mut self.finder;
        let mut others = Others::new(self.alloc, finder, automaton, goal.target, MOST_FORMS)?;
        let mut left = self.steps_for_others.part();
        for _ in 0..MOST_LISTS {
            let automaton = self.session.tables().automaton();
            let Some(tokens) = others.next(&mut self.finder, automaton)? else {
                break;
            };
            if tokens.as_slice() != list.tokens.as_slice() {
                list.tried = list.tried.saturating_add(1);
                let (trial, steps) = self.tried(goal, &tokens, left)?;
                self.steps_for_others.spend(steps);
                left = left.saturating_sub(steps);
                match trial {
                    Trial::Reached(steps) => list.other = Some((tokens, steps)),
                    Trial::Recovered(_) => list.recovered = true,
                    Trial::Missed | Trial::Late(_) | Trial::HasError => {}
                }
            }
            if left == 0 || list.other.is_some() || !self.finder.has_steps() {
                break;
            }
        }
        Ok(())
    }
}

/// The tokens of a list as a tokens file has them: the one of the conflict after the others, but
/// for the end. They are those of the list that gets there, or of the first, where none does.
pub fn file_tokens(list: &List, token: Sym) -> Option<(&[Sym], Option<Sym>)> {
    let last = if token == END { None } else { Some(token) };
    match (list.trial, &list.other) {
        (Trial::HasError, _) => None,
        (_, Some((tokens, _))) => Some((tokens.as_slice(), last)),
        _ => Some((list.tokens.as_slice(), last)),
    }
}
