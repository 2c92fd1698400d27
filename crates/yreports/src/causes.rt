//! What many conflicts have in common: tokens that have no precedence, and rules that two conflicts
//! are between. Each change that is named was tried on all cells.

use crate::covered::{Covered, covered_of};
use crate::tried::{Marks, Tried, counted, tried_of};
use std::alloc::Global;
use yexplain::distinct::Distinct;
use yexplain::lines::{Lines, is_inner};
use yexplain::reads::{Made, grammar_of, is_set, level_of, set};
use ylalr::END;
use ymends::idioms::idioms_of;
use ymends::mending::MOST_STATES;
use ysearch::groups::{Conflicts, Kind};
use ysearch::shortest::Shortest;
use ysymbols::{Grammar, Sym, let_go};
use ytables::Tables;

/// The most kinds of conflicts among which causes are sought.
const MOST_KINDS: usize = 2_000;

/// The most changes that are tried, and the most that are named.
const MOST_CHANGES: usize = 60;

const MOST_CAUSES: usize = 8;

/// The most pairs of rules of which one may be covered by the other.
const MOST_COVERED: usize = 5;

/// A change that settles conflicts: these tokens get precedence lines, and this rule a name of its
/// own.
#[derive(Drop)]
pub struct Change {
    /// The tokens.
    pub tokens: Vec<Sym>,
    /// The rule, where no token can give it a precedence.
    pub rule: Option<usize>,
    /// How many conflicts it settles beside those that changes before it do.
    pub settles: usize,
    /// The kinds that it settles, by their numbers, from 0 on, where changes before it don't.
    pub kinds: Vec<usize>,
}

/// What the conflicts come from.
pub struct Causes {
    /// How many conflicts there are.
    pub all: usize,
    /// The cells on which changes are tried.
    cells: Vec<Tried>,
    /// Changes that settle some, each with those before it.
    pub changes: Vec<Change>,
    /// How many conflicts are between each two rules, whatever precedences they have.
    pub pairs: Vec<((usize, usize), usize)>,
    /// Rules of these pairs that others cover.
    pub covered: Vec<Covered>,
}

impl Drop for Causes {
    // A call in each owner, which keeps their proofs short.
    fn drop(self) {
        let_go!(self: Causes { all, cells, changes, pairs, covered });
    }
}

impl Causes {
    /// Keeps the changes for which hints are offered, at a conflict that they settle and at no such
    /// conflict none, and counts anew what each settles beside those before it. Conflicts are told by
    /// their numbers, each with whether hints are offered.
    pub fn keep_offered(
        &mut self,
        alloc: Global,
        (grammar, lines): (&Grammar, &Lines),
        offers: &[(usize, bool)],
    ) -> Made<()> {
        let (mut marks, mut left) = (Marks::new(alloc, grammar)?, self.all);
        let mut kept = Vec::new(alloc);
        for change in &self.changes {
            let (mut is_offered, mut is_refused) = (false, false);
            for (number, has_hints) in offers {
                if change.kinds.contains(number) {
                    is_offered = is_offered || *has_hints;
                    is_refused = is_refused || !*has_hints;
                }
            }
            let next = marks.with(alloc, &change.tokens, change.rule)?;
            let less = counted(grammar, lines, &next, &self.cells);
            if less < left && is_offered && !is_refused {
                kept.push(Change {
                    tokens: Vec::from_slice(alloc, &change.tokens)?,
                    rule: change.rule,
                    settles: left.saturating_sub(less),
                    kinds: Vec::from_slice(alloc, &change.kinds)?,
                })?;
                (marks, left) = (next, less);
            }
        }
        self.changes = kept;
        Ok(())
    }

    /// Counts the conflicts between each two rules in cells that can't be shifted.
    fn count_pairs(&mut self, alloc: Global, found: &Conflicts) -> Made<()> {
        let mut met = Distinct::new(alloc);
        for (kind, group) in &found.groups {
            let Some(taken) = kind.taken() else {
                continue;
            };
            for rule in kind.others() {
                let (place, is_new) = met.add((taken, *rule))?;
                if is_new {
                    self.pairs.push(((taken, *rule), 0))?;
                }
                if let Some((_, count)) = self.pairs.get_mut(place) {
                    *count = count.saturating_add(group.states);
                }
            }
        }
        Ok(())
    }

    /// Finds the rules of the first pairs that others cover.
    fn cover(&mut self, alloc: Global, tables: &Tables, lines: &Lines) -> Made<()> {
        for (pair, _) in self.pairs.iter().take(MOST_COVERED) {
            if let Some(covered) = covered_of(alloc, tables, lines, *pair, self.all)? {
                self.covered.push(covered)?;
            }
        }
        Ok(())
    }

    /// The cause of a kind of conflict by its number, from 0 on: a change that settles it, or the two
    /// rules between which it is.
    pub fn of(&self, number: usize, kind: &Kind) -> Option<usize> {
        for (place, change) in self.changes.iter().enumerate() {
            if change.kinds.contains(&number) {
                return Some(place);
            }
        }
        let both = (kind.taken()?, *kind.others().first()?);
        for (place, (pair, _)) in self.pairs.iter().enumerate() {
            if *pair == both {
                return Some(self.changes.len().saturating_add(place));
            }
        }
        None
    }
}

/// Tokens in classes: those that a conflict needs to have precedences are in one.
#[derive(Drop)]
struct Classes {
    /// The number of the class of each token, by its first member.
    of: Vec<usize>,
    /// The tokens that some conflict needs to have precedences.
    needed: Vec<bool>,
}

impl Classes {
    fn new(alloc: Global, tokens: usize) -> Made<Classes> {
        let mut of = Vec::with_capacity(alloc, tokens)?;
        for token in 0..tokens {
            of.push(token)?;
        }
        Ok(Classes {
            of,
            needed: vec![in alloc; false; tokens]?,
        })
    }

    /// The class of a token.
    fn class(&self, token: Sym) -> usize {
        self.of.get(token).copied().unwrap_or(token)
    }

    /// Puts two tokens into one class.
    fn join(&mut self, one: Sym, other: Sym) {
        let (from, to) = (self.class(one), self.class(other));
        let (from, to) = (from.max(to), from.min(to));
        if from == to {
            return;
        }
        for class in &mut self.of {
            if *class == from {
                *class = to;
            }
        }
    }

    /// Notes that a rule could win or lose against the token of a cell if these had precedences.
    fn note(&mut self, grammar: &Grammar, token: Sym, giver: Sym) {
        for it in [token, giver] {
            if level_of(grammar, it).is_none() {
                set(&mut self.needed, it, true);
            }
        }
        if level_of(grammar, token).is_none() && level_of(grammar, giver).is_none() {
            self.join(token, giver);
        }
    }

    /// The tokens of a class that need precedences.
    fn members(&self, alloc: Global, class: usize) -> Made<Vec<Sym>> {
        let mut tokens = Vec::new(alloc);
        for (token, needed) in self.needed.iter().enumerate() {
            if *needed && self.class(token) == class {
                tokens.push(token)?;
            }
        }
        Ok(tokens)
    }
}

/// What seeks causes.
#[derive(Drop)]
struct Seeker<'a> {
    alloc: Global,
    grammar: &'a Grammar,
    lines: &'a Lines,
    cells: &'a [Tried],
    marks: Marks,
}

/// The changes that the cells suggest.
fn changes_of(
    alloc: Global,
    grammar: &Grammar,
    lines: &Lines,
    (cells, barred): (&[Tried], &[bool]),
) -> Made<Vec<Change>> {
    let mut classes = Classes::new(alloc, grammar.symbols())?;
    let mut changes = Vec::new(alloc);
    for cell in cells {
        let contest = cell.contest;
        if contest.shift.is_none() || contest.token == END {
            continue;
        }
        for rule in contest.rules().unwrap_or(&[]) {
            match lines.giver(grammar, *rule) {
                Some(giver) => classes.note(grammar, contest.token, giver),
                None if is_set(barred, *rule) => {}
                None => push_own(alloc, grammar, &mut changes, *rule, contest.token)?,
            }
        }
    }
    for class in 0..grammar.symbols() {
        let tokens = classes.members(alloc, class)?;
        if classes.class(class) == class && !tokens.is_empty() && changes.len() < MOST_CHANGES {
            changes.push(Change {
                tokens,
                rule: None,
                settles: 0,
                kinds: Vec::new(alloc),
            })?;
        }
    }
    Ok(changes)
}

/// Adds a change for a rule without a token: a name of its own, and a line for the cell's token.
fn push_own(
    alloc: Global,
    grammar: &Grammar,
    changes: &mut Vec<Change>,
    rule: usize,
    token: Sym,
) -> Made<()> {
    let mut is_there = false;
    for change in changes.iter() {
        is_there = is_there || change.rule == Some(rule);
    }
    if is_there || is_inner(grammar, rule) || changes.len() >= MOST_CHANGES {
        return Ok(());
    }
    let mut tokens = Vec::new(alloc);
    if level_of(grammar, token).is_none() {
        tokens.push(token)?;
    }
    changes.push(Change {
        tokens,
        rule: Some(rule),
        settles: 0,
        kinds: Vec::new(alloc),
    })?;
    Ok(())
}

impl Seeker<'_> {
    /// The change that leaves the fewest conflicts, and how many; the first of several.
    fn best(&self, changes: &[Change]) -> Made<Option<(usize, usize)>> {
        let mut best: Option<(usize, usize)> = None;
        for (place, change) in changes.iter().enumerate() {
            let marks = self.marks.with(self.alloc, &change.tokens, change.rule)?;
            let left = counted(self.grammar, self.lines, &marks, self.cells);
            best = match best {
                Some((best, least)) if least <= left => Some((best, least)),
                _ => Some((place, left)),
            };
        }
        Ok(best)
    }

    /// Whether each kind counts no conflict with what is marked.
    fn settled(&self) -> Made<Vec<bool>> {
        let mut settled = Vec::new(self.alloc);
        for cell in self.cells {
            let cells = Vec::from_slice(self.alloc, &[*cell])?;
            settled.push(counted(self.grammar, self.lines, &self.marks, &cells) == 0)?;
        }
        Ok(settled)
    }

    /// The changes that settle the most, one after another.
    fn choose(&mut self, changes: Vec<Change>, all: usize) -> Made<Vec<Change>> {
        let mut changes = changes;
        let mut chosen = Vec::new(self.alloc);
        let mut left = all;
        for _ in 0..MOST_CAUSES {
            let Some((place, less)) = self.best(&changes)? else {
                break;
            };
            if less >= left || place >= changes.len() {
                break;
            }
            let mut change = changes.remove(place);
            change.settles = left.saturating_sub(less);
            let before = self.settled()?;
            self.marks = self.marks.with(self.alloc, &change.tokens, change.rule)?;
            for (number, is_settled) in self.settled()?.iter().enumerate() {
                if *is_settled && before.get(number) == Some(&false) {
                    change.kinds.push(number)?;
                }
            }
            left = less;
            chosen.push(change)?;
        }
        Ok(chosen)
    }
}

/// Marks of the rules whose conflicts come of an idiom, which precedences don't mend.
fn barred_of(alloc: Global, tables: &Tables) -> Made<Vec<bool>> {
    let automaton = tables.automaton();
    let grammar = automaton.grammar();
    let mut barred = vec![in alloc; false; grammar.rules()]?;
    if automaton.states() <= MOST_STATES {
        let shortest = Shortest::new(alloc, grammar)?;
        for idiom in &idioms_of(alloc, automaton, &shortest)? {
            for rule in 1..grammar.rules() {
                if idiom.concerns(automaton, &[rule]) {
                    set(&mut barred, rule, true);
                }
            }
        }
    }
    Ok(barred)
}

/// What these conflicts come from; `None` where they are of one kind, or of too many.
pub fn causes_of(
    alloc: Global,
    tables: &Tables,
    lines: &Lines,
    found: &Conflicts,
) -> Made<Option<Causes>> {
    let kinds = found.groups.len();
    if kinds < 2 || kinds > MOST_KINDS || found.others > 0 {
        return Ok(None);
    }
    let grammar = grammar_of(tables);
    let cells = tried_of(alloc, tables, lines, found)?;
    let mut all = 0usize;
    for cell in &cells {
        all = all.saturating_add(cell.weight());
    }
    let barred = barred_of(alloc, tables)?;
    let changes = changes_of(alloc, grammar, lines, (&cells, &barred))?;
    let marks = Marks::new(alloc, grammar)?;
    let changes = {
        let mut seeker = Seeker {
            alloc,
            grammar,
            lines,
            cells: cells.as_slice(),
            marks,
        };
        seeker.choose(changes, all)?
    };
    let mut causes = Causes {
        all,
        cells,
        changes,
        pairs: Vec::new(alloc),
        covered: Vec::new(alloc),
    };
    causes.count_pairs(alloc, found)?;
    causes.cover(alloc, tables, lines)?;
    Ok(Some(causes))
}
