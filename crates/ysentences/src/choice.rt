//! The sentences that are kept: each uses something that no other one does.

use crate::contexts::{Contexts, Place};
use crate::draw::{Numbers, draw};
use crate::elements::Kind;
use crate::seek::{Goal, MOST_TOKENS, Seeker, Sought};
use crate::trial::Trier;
use std::alloc::{AllocError, Global};
use std::io;
use yexplain::reads::{Made, action_of, default_of, grammar_of, is_reachable, left_of, set};
use ylalr::ERROR;
use yparse::Session;
use ysearch::lists::Lists;
use ysearch::search::Finder;
use ysymbols::{Sym, let_go};
use ytables::Action;

/// How many further lists are tried for an element that the first one misses.
const MOST_OTHERS: usize = 20;

/// How many cells of a rule are sought that its own sentence misses.
const MOST_CELLS: usize = 10;

/// How many sentences of each length are drawn for what the parses over all other lists miss, and
/// these lengths, which they have at most.
const MOST_DRAWN: usize = 100;

const LENGTHS: [u64; 4] = [2, 4, 8, 16];

/// A sentence: its tokens, what it uses of the kind that is wanted, and whether it is kept.
#[derive(Drop)]
pub struct Sentence {
    /// Its tokens.
    pub tokens: Vec<Sym>,
    /// The numbers of what it uses, in their order.
    pub uses: Vec<usize>,
    /// Whether it uses something that no other one does.
    pub kept: bool,
}

/// Why an element isn't used by a sentence.
#[derive(Clone, Copy, Drop)]
pub enum Missing {
    /// Nothing was found in as many steps as are made.
    Late,
    /// The parse over each list that was tried went another way.
    Astray,
    /// The shortest sentence with it has `error`, or too many tokens.
    Long,
    /// The left side of the rule can't be reached.
    Unreachable,
    /// No cell reduces by the rule.
    Lost,
}

/// What chooses sentences.
#[derive(Drop)]
pub struct Chooser<'a> {
    alloc: Global,
    kind: Kind,
    trier: Trier<'a>,
    seeker: Seeker,
    chosen: Chosen,
    /// The rules that a sentence uses.
    rules: Vec<bool>,
}

/// The sentences that were chosen.
pub struct Chosen {
    /// All that were taken, also those that aren't kept.
    pub sentences: Vec<Sentence>,
    /// For each element of the kind, whether one uses it.
    pub used: Vec<bool>,
    /// Why the others aren't used.
    pub missing: Vec<Missing>,
    /// How many elements were used for the first time by the last sentence that was offered.
    new: usize,
}

impl Drop for Chosen {
    // A call in each owner, which keeps their proofs short.
    fn drop(self) {
        let_go!(self: Chosen { sentences, used, missing, new });
    }
}

/// Drops a sentence whose elements are all used by others too, which are counted.
fn spare(counts: &mut [usize], sentence: &mut Sentence) {
    for element in &sentence.uses {
        if counts.get(*element).copied().unwrap_or(0) <= 1 {
            return;
        }
    }
    sentence.kept = false;
    for element in &sentence.uses {
        let count = counts.get(*element).copied().unwrap_or(0);
        set(counts, *element, count.saturating_sub(1));
    }
}

impl Chosen {
    /// Whether a sentence uses an element.
    fn is_used(&self, element: usize) -> bool {
        self.used.get(element).copied().unwrap_or(true)
    }

    /// Takes a sentence, where it uses something new.
    fn take(&mut self, tokens: Vec<Sym>, uses: Vec<usize>) -> Made<()> {
        let mut uses = uses;
        self.new = 0;
        for element in &uses {
            self.new = self
                .new
                .saturating_add(usize::from(!self.is_used(*element)));
            set(&mut self.used, *element, true);
        }
        if self.new > 0 {
            uses.sort()?;
            self.sentences.push(Sentence {
                tokens,
                uses,
                kept: true,
            })?;
        }
        Ok(())
    }

    /// Drops each sentence whose elements are all used by others, the longest first.
    fn thin(&mut self, alloc: Global) -> Made<()> {
        // how many sentences use each element
        let mut counts = vec![in alloc; 0usize; self.used.len()]?;
        for sentence in &self.sentences {
            for element in &sentence.uses {
                let count = counts.get(*element).copied().unwrap_or(0);
                set(&mut counts, *element, count.saturating_add(1));
            }
        }
        let mut order = self.order(alloc)?;
        order.reverse();
        for place in &order {
            if let Some(sentence) = self.sentences.get_mut(*place) {
                spare(&mut counts, sentence);
            }
        }
        Ok(())
    }

    /// The places of the sentences, the shortest first.
    pub fn order(&self, alloc: Global) -> Made<Vec<usize>> {
        let mut lengths = Vec::new(alloc);
        for (place, sentence) in self.sentences.iter().enumerate() {
            lengths.push((sentence.tokens.len(), place))?;
        }
        lengths.sort_by_key(|length| *length)?;
        lengths.iter().map(|(_, place)| *place).collect(alloc)
    }
}

impl<'a> Chooser<'a> {
    /// Nothing is chosen yet.
    fn new(alloc: Global, session: &'a mut Session, kind: Kind) -> Made<Chooser<'a>> {
        let finder = Finder::new(alloc, session.tables().automaton())?;
        let seeker = Seeker { alloc, finder };
        let trier = Trier::new(alloc, session)?;
        let count = trier.uses.rounds(kind).len();
        let rules = trier.uses.rounds(Kind::Rules).len();
        Ok(Chooser {
            alloc,
            kind,
            trier,
            seeker,
            chosen: Chosen {
                sentences: Vec::new(alloc),
                used: vec![in alloc; false; count]?,
                missing: vec![in alloc; Missing::Late; count]?,
                new: 0,
            },
            rules: vec![in alloc; false; rules]?,
        })
    }

    /// Tries a sentence, and takes it where it is accepted and uses something new.
    fn offer(&mut self, tokens: Vec<Sym>) -> io::Result<()> {
        self.chosen.new = 0;
        let is_accepted = self.trier.accepts(&tokens)?;
        let steps = self.trier.steps.saturating_add(tokens.len());
        self.seeker.finder.steps.spend(steps);
        if !is_accepted {
            return Ok(());
        }
        let mut elements = Vec::new(self.alloc);
        for (kind, number) in &self.trier.uses.used {
            if *kind == Kind::Rules {
                set(&mut self.rules, *number, true);
            }
            if *kind == self.kind {
                elements.push(*number).map_err(AllocError::from)?;
            }
        }
        self.chosen.take(tokens, elements)?;
        Ok(())
    }

    /// Offers the shortest sentence of each rule that no one uses yet, the longest first.
    fn offer_rules(&mut self) -> io::Result<()> {
        let (contexts, order) = self.contexts()?;
        for place in &order {
            let is_done = self.rules.get(place.rule).copied().unwrap_or(true);
            if is_done || !self.seeker.finder.has_steps() {
                continue;
            }
            match self.rule_sentence(&contexts, *place)? {
                Sought::Sentence(tokens) => self.offer(tokens)?,
                _ => self.miss(Kind::Rules, place.rule, Missing::Long),
            }
        }
        Ok(())
    }

    /// The shortest ways to rules, and the rules, the one with the longest sentence first.
    fn contexts(&self) -> Made<(Contexts, Vec<Place>)> {
        let (alloc, shortest) = (self.alloc, &self.seeker.finder.shortest);
        let grammar = grammar_of(self.trier.session.tables());
        let contexts = Contexts::new(alloc, grammar, shortest)?;
        let order = contexts.order(alloc, grammar, shortest)?;
        Ok((contexts, order))
    }

    /// The shortest sentence of a rule.
    fn rule_sentence(&self, contexts: &Contexts, place: Place) -> Made<Sought> {
        // the end counts for one token
        if place.length > MOST_TOKENS.saturating_add(1) {
            return Ok(Sought::Long);
        }
        let tables = self.trier.session.tables();
        let form = contexts.form(self.alloc, grammar_of(tables), place.rule)?;
        self.seeker.sentence(tables, &form)
    }

    /// Notes why an element of a kind isn't used, where that is the kind that is wanted.
    fn miss(&mut self, kind: Kind, element: usize, missing: Missing) {
        if self.kind == kind {
            set(&mut self.chosen.missing, element, missing);
        }
    }

    /// Seeks sentences for all elements that none uses yet.
    fn seek_all(&mut self) -> io::Result<()> {
        if self.kind == Kind::Rules {
            return self.seek_rules();
        }
        for element in 0..self.chosen.used.len() {
            let goal = match self.trier.cells.at(element) {
                Some(cell) if self.kind == Kind::Cells => Goal {
                    state: cell.state,
                    token: cell.token,
                },
                _ => Goal {
                    state: element,
                    token: None,
                },
            };
            self.seek(goal, element)?;
        }
        Ok(())
    }

    /// Seeks sentences for the rules that none uses yet, by cells that reduce by them; and notes
    /// why a rule isn't used that can't be.
    fn seek_rules(&mut self) -> io::Result<()> {
        let (goals, marks) = (self.goals_of_rules()?, self.at_error()?);
        for rule in 1..self.chosen.used.len() {
            for goal in goals.of(rule) {
                self.seek(*goal, rule)?;
            }
            let is_marked = marks.get(rule).copied().unwrap_or(false);
            if !self.is_live(rule) {
                self.miss(Kind::Rules, rule, Missing::Unreachable);
            } else if goals.of(rule).is_empty() && !is_marked {
                self.miss(Kind::Rules, rule, Missing::Lost);
            }
        }
        Ok(())
    }

    /// The rules that a cell reduces by at `error`, which no parse looks up.
    fn at_error(&self) -> Made<Vec<bool>> {
        let (alloc, tables) = (self.alloc, self.trier.session.tables());
        let mut marks = vec![in alloc; false; self.chosen.used.len()]?;
        for state in 0..tables.automaton().states() {
            if let Action::Reduce(rule) = action_of(tables, state, ERROR) {
                set(&mut marks, rule, true);
            }
        }
        Ok(marks)
    }

    /// Whether the left side of a rule can be reached.
    fn is_live(&self, rule: usize) -> bool {
        let grammar = grammar_of(self.trier.session.tables());
        match left_of(grammar, rule) {
            Some(left) => is_reachable(grammar, left),
            None => false,
        }
    }

    /// The first cells that reduce by each rule that no sentence uses.
    fn goals_of_rules(&self) -> Made<Lists<Goal>> {
        let mut goals = Lists::new(self.alloc, self.chosen.used.len())?;
        let tables = self.trier.session.tables();
        for number in 0..self.trier.cells.count() {
            let Some(cell) = self.trier.cells.at(number) else {
                break;
            };
            let goal = Goal {
                state: cell.state,
                token: cell.token,
            };
            let reduced = match (goal.token, goal.action(tables)) {
                (None, _) => default_of(tables, goal.state),
                (Some(_), Action::Reduce(rule)) => Some(rule),
                _ => None,
            };
            match reduced {
                Some(rule) if !self.chosen.is_used(rule) && goals.of(rule).len() < MOST_CELLS => {
                    goals.push(rule, goal)?;
                }
                _ => {}
            }
        }
        Ok(goals)
    }

    /// Seeks a sentence that comes to a goal and so uses an element, unless one uses it.
    fn seek(&mut self, goal: Goal, element: usize) -> io::Result<()> {
        if self.chosen.is_used(element) || !self.seeker.finder.has_steps() {
            return Ok(());
        }
        match self.seeker.shortest(&mut self.trier, goal)? {
            Sought::Sentence(tokens) => {
                self.offer(tokens)?;
                self.seek_others(goal, element)
            }
            Sought::Astray => self.seek_others(goal, element),
            Sought::Long => {
                self.miss(self.kind, element, Missing::Long);
                Ok(())
            }
            Sought::Late => Ok(()),
        }
    }

    /// Tries further lists for a goal, unless a sentence uses the element.
    fn seek_others(&mut self, goal: Goal, element: usize) -> io::Result<()> {
        if self.chosen.is_used(element) {
            return Ok(());
        }
        self.miss(self.kind, element, Missing::Astray);
        let mut others = self.seeker.others(&self.trier, goal)?;
        for _ in 0..MOST_OTHERS {
            if self.chosen.is_used(element) || !self.seeker.finder.has_steps() {
                break;
            }
            match self.seeker.next(&mut self.trier, &mut others, goal)? {
                Some(Sought::Sentence(tokens)) => self.offer(tokens)?,
                Some(_) => {}
                None => break,
            }
        }
        Ok(())
    }
}

impl Chooser<'_> {
    /// How many elements are missed since the parse over each list that was tried went another way.
    fn astray(&self) -> usize {
        let (chosen, mut count) = (&self.chosen, 0usize);
        for (element, missing) in chosen.missing.iter().enumerate() {
            let is_astray = matches!(missing, Missing::Astray) && !chosen.is_used(element);
            count = count.saturating_add(usize::from(is_astray));
        }
        count
    }

    /// A sentence that is drawn, of at most so many tokens.
    fn drawn(&self, numbers: &mut Numbers, most: u64) -> Made<Option<Vec<Sym>>> {
        let grammar = grammar_of(self.trier.session.tables());
        let shortest = &self.seeker.finder.shortest;
        draw(self.alloc, grammar, shortest, numbers, most)
    }

    /// Offers sentences that are drawn, short ones first, as long as elements are missed since parses
    /// went another way.
    fn offer_drawn(&mut self) -> io::Result<()> {
        let (mut astray, mut numbers) = (self.astray(), Numbers { now: 1 });
        for most in &LENGTHS {
            for _ in 0..MOST_DRAWN {
                if astray == 0 || !self.seeker.finder.has_steps() {
                    return Ok(());
                }
                let Some(tokens) = self.drawn(&mut numbers, *most)? else {
                    return Ok(());
                };
                self.offer(tokens)?;
                if self.chosen.new > 0 {
                    astray = self.astray();
                }
            }
        }
        Ok(())
    }
}

/// Sentences that use all elements of a kind which are found, in a session without tokens.
pub fn choose(alloc: Global, session: &mut Session, kind: Kind) -> io::Result<Chosen> {
    let mut chooser = Chooser::new(alloc, session, kind)?;
    chooser.offer_rules()?;
    chooser.seek_all()?;
    chooser.offer_drawn()?;
    let Chooser { chosen, .. } = chooser;
    let mut chosen = chosen;
    chosen.thin(alloc)?;
    Ok(chosen)
}
