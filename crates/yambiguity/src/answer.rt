//! The answer for two rivals of a conflict: one sentence with two trees, or a sentence for each.

use crate::alone::alone_of;
use crate::choice::Choice;
use crate::forks::{Fork, fork_of, is_late};
use crate::leaves::{Leaves, MOST_TOKENS};
use crate::pairs::{Joined, Search};
pub use crate::scene::Rivals;
use crate::scene::{Scene, form_of, way_of};
use crate::stacks::{Deed, Stacks};
use crate::trees::Trees;
use crate::walker::{Claim, is_derivation};
use std::alloc::{AllocError, Global};
use yexplain::reads::Made;
use ylalr::{END, ERROR};
use yparse::{Tokens, Verdict, judge};
use ysearch::budget::Share;
use ysearch::search::{Finder, Found};
use ysymbols::{Sym, let_go};
use ytables::Tables;

/// How many sentences whose parse takes too long are judged; after these none is.
const MOST_ENDLESS: usize = 50;

/// The most steps of a search for two trees: items that are looked at, and pairs of stacks.
const MOST_STEPS: usize = 20_000;

/// How many steps all searches of a run may take, beside those that each may take in any case.
const ALL_STEPS: usize = 200_000;

const LEAST_STEPS: usize = 1_000;

/// How many steps all parses of sentences in all ways may take in a run.
const ALL_PARSES: usize = 60_000;

/// The most pairs of parses that come to one stack of which sentences are made.
const MOST_JOINED: usize = 20;

/// A sentence that a rival derives: this was checked.
#[derive(Drop)]
pub struct Sentence {
    /// The rival.
    pub choice: Choice,
    /// The tokens.
    pub tokens: Vec<Sym>,
    /// How many of them stand before the conflict.
    pub dot: usize,
    /// The place of the token that the tables refuse, counted from 1, where that was looked at and
    /// they refuse the sentence; the end's is one after that of the last token.
    pub refused: Option<usize>,
    /// Its tree.
    pub tree: usize,
    /// How many leaves of the tree stand before the conflict, as they are drawn.
    pub leaves: usize,
}

/// One sentence with two trees, one by each of two rivals: this was checked.
pub struct Twins {
    /// The sentence; its rival is the first one.
    pub sentence: Sentence,
    /// The second rival.
    pub second: Choice,
    /// The least parts of the two trees that differ.
    pub trees: (usize, usize),
    /// How many leaves of these stand before the conflict, as they are drawn.
    pub dot: usize,
}

impl Drop for Twins {
    // A call in each owner, which keeps their proofs short.
    fn drop(self) {
        let_go!(self: Twins { sentence, second, trees, dot });
    }
}

/// What was found for two rivals.
#[derive(Drop)]
pub struct Answer {
    /// One sentence with two trees.
    pub twins: Option<Twins>,
    /// Where there is none, a sentence for each rival; one that is too long, or has `error`, is
    /// left out.
    pub sentences: Vec<Sentence>,
    /// Whether one with two trees was sought.
    pub is_sought: bool,
    /// Whether it was, and none of the given sentences has two trees here.
    pub is_whole: bool,
}

/// What seeks sentences for the conflicts of a run.
pub struct Ambiguities {
    alloc: Global,
    /// The trees of what was found.
    pub trees: Trees,
    leaves: Leaves,
    /// How many steps searches for two trees may take.
    steps: Share,
    /// How many parses of sentences in all ways may.
    parses: usize,
    /// How many parses may still take too long while sentences are judged.
    endless: usize,
}

impl Drop for Ambiguities {
    // A call in each owner, which keeps their proofs short.
    fn drop(self) {
        let_go!(self: Ambiguities { alloc, trees, leaves, steps, parses, endless });
    }
}

impl Answer {
    /// Nothing is found.
    fn none(alloc: Global) -> Answer {
        Answer {
            twins: None,
            sentences: Vec::new(alloc),
            is_sought: false,
            is_whole: false,
        }
    }
}

impl Ambiguities {
    /// Nothing is found yet.
    pub fn new(alloc: Global) -> Ambiguities {
        Ambiguities {
            alloc,
            trees: Trees::new(alloc),
            leaves: Leaves::new(alloc),
            steps: Share::new(ALL_STEPS, 8, (LEAST_STEPS, MOST_STEPS)),
            parses: ALL_PARSES,
            endless: MOST_ENDLESS,
        }
    }

    /// What can be found for two rivals: where one way allows both, a sentence with two trees, also
    /// among some that are given, or else, where these are wanted, one for each on that way; where
    /// none does, a sentence for each.
    pub fn seek(
        &mut self,
        tables: &Tables,
        finder: &mut Finder,
        (rivals, are_both): (Rivals, bool),
        (wants_each, given): (bool, &[Vec<Sym>]),
    ) -> Made<Answer> {
        let mut answer = Answer::none(self.alloc);
        let choices = [rivals.first, Choice::Reduce(rivals.second)];
        if !are_both && !wants_each {
            return Ok(answer);
        }
        if !are_both {
            for choice in choices {
                self.add_alone(tables, finder, (rivals, choice), &mut answer)?;
            }
            return Ok(answer);
        }
        let target = rivals.target(rivals.first.rule(), Some(rivals.second));
        if let Found::Way(way) = finder.find(tables.automaton(), target)? {
            let scene = Scene {
                tables,
                shortest: &finder.shortest,
                rivals,
                way: &way,
            };
            self.seek_twins(scene, &mut answer)?;
            if answer.twins.is_none() {
                for choice in choices {
                    self.add(scene, choice, &mut answer)?;
                }
                self.seek_forks(scene, given, &mut answer)?;
                if !wants_each {
                    answer.sentences.clear();
                }
            }
        }
        Ok(answer)
    }

    /// Seeks one sentence with two trees among those of the rivals, and then among the given ones:
    /// each is parsed in all ways.
    fn seek_forks(
        &mut self,
        scene: Scene<'_>,
        given: &[Vec<Sym>],
        answer: &mut Answer,
    ) -> Made<()> {
        let mut is_whole = true;
        for place in 0..answer.sentences.len() {
            let tokens = match answer.sentences.get(place) {
                Some(sentence) => Vec::from_slice(self.alloc, &sentence.tokens)?,
                None => break,
            };
            if answer.twins.is_none() {
                answer.twins = self.forked(scene, &tokens, &mut is_whole)?;
            }
        }
        is_whole = true;
        let token = scene.rivals.cell.token;
        for tokens in given {
            if answer.twins.is_none() && (token == END || tokens.contains(&token)) {
                answer.twins = self.forked(scene, tokens, &mut is_whole)?;
            }
        }
        if answer.twins.is_some() {
            answer.sentences.clear();
        }
        answer.is_whole = is_whole;
        Ok(())
    }

    /// A sentence with two trees, one by each rival, where it is one; notes where that was not
    /// looked at whole.
    fn forked(
        &mut self,
        scene: Scene<'_>,
        tokens: &[Sym],
        is_whole: &mut bool,
    ) -> Made<Option<Twins>> {
        if self.parses == 0 {
            *is_whole = false;
            return Ok(None);
        }
        let (tables, rivals) = (scene.tables, scene.rivals);
        let choices = (rivals.first, Choice::Reduce(rivals.second));
        let (fork, steps) = fork_of(self.alloc, tables, tokens, rivals.cell, choices)?;
        self.parses = self.parses.saturating_sub(steps);
        match fork {
            Some(fork) => self.fork_twins(scene, tokens, &fork),
            None => {
                *is_whole = *is_whole && !is_late(steps);
                Ok(None)
            }
        }
    }

    /// The trees of two parses of a sentence, checked.
    fn fork_twins(&mut self, scene: Scene<'_>, tokens: &[Sym], fork: &Fork) -> Made<Option<Twins>> {
        let (alloc, rivals) = (self.alloc, scene.rivals);
        let way = way_of(alloc, scene.tables, &fork.before)?;
        let scene = scene.over(&way);
        let second = Choice::Reduce(rivals.second);
        let one = self.claimed(scene, rivals.first, (&fork.first, tokens, fork.dot))?;
        let other = self.claimed(scene, second, (&fork.second, tokens, fork.dot))?;
        let (Some((sentence, one)), Some((_, other))) = (one, other) else {
            return Ok(None);
        };
        if self.trees.are_equal(alloc, one, other)? {
            return Ok(None);
        }
        let (one, other, before) = self.trees.least(alloc, (one, other))?;
        Ok(Some(Twins {
            sentence,
            second,
            trees: (one, other),
            dot: fork.dot.saturating_sub(before),
        }))
    }

    /// The sentence of a parse over its tokens, and its tree, where the rival stands in it.
    fn claimed(
        &mut self,
        scene: Scene<'_>,
        choice: Choice,
        (course, tokens, dot): (&[Deed], &[Sym], usize),
    ) -> Made<Option<(Sentence, usize)>> {
        let (alloc, grammar) = (self.alloc, scene.tables.automaton().grammar());
        let trees = &mut self.trees;
        let Some(leaves) = self.leaves.all(trees, grammar, scene.shortest, tokens)? else {
            return Ok(None);
        };
        let Some(tree) = self.trees.made(alloc, grammar, course, &leaves)? else {
            return Ok(None);
        };
        let claim = Claim {
            tokens,
            dot,
            token: scene.rivals.cell.token,
            way: scene.way,
            choice,
        };
        if !is_derivation(alloc, grammar, &self.trees, tree, claim)? || tokens.contains(&ERROR) {
            return Ok(None);
        }
        let sentence = Sentence {
            choice,
            tokens: Vec::from_slice(alloc, tokens)?,
            dot,
            refused: None,
            tree,
            leaves: dot,
        };
        Ok(Some((sentence, tree)))
    }

    /// A sentence for each of two rivals, where one is found.
    pub fn each(
        &mut self,
        tables: &Tables,
        finder: &mut Finder,
        rivals: Rivals,
    ) -> Made<Vec<Sentence>> {
        let mut answer = Answer::none(self.alloc);
        for choice in [rivals.first, Choice::Reduce(rivals.second)] {
            self.add_alone(tables, finder, (rivals, choice), &mut answer)?;
        }
        let Answer { sentences, .. } = answer;
        Ok(sentences)
    }

    /// Adds a sentence for a rival, on the shortest way on which it can be chosen.
    fn add_alone(
        &mut self,
        tables: &Tables,
        finder: &mut Finder,
        (rivals, choice): (Rivals, Choice),
        answer: &mut Answer,
    ) -> Made<()> {
        let target = rivals.target(choice.rule(), None);
        if let Found::Way(way) = finder.find(tables.automaton(), target)? {
            let scene = Scene {
                tables,
                shortest: &finder.shortest,
                rivals,
                way: &way,
            };
            self.add(scene, choice, answer)?;
        }
        Ok(())
    }

    /// Seeks one sentence with two trees.
    fn seek_twins(&mut self, scene: Scene<'_>, answer: &mut Answer) -> Made<()> {
        let (tables, rivals, way) = (scene.tables, scene.rivals, scene.way);
        let Some((stacks, stack)) = Stacks::over(self.alloc, tables.automaton(), way)? else {
            return Ok(());
        };
        let (mut stacks, steps) = (stacks, self.steps.part());
        let choices = (rivals.first, Choice::Reduce(rivals.second));
        let (alloc, cell) = (self.alloc, rivals.cell);
        let mut search = Search::new(alloc, tables, &mut stacks, stack, cell, choices, steps)?;
        for _ in 0..MOST_JOINED {
            let Some(joined) = search.next(tables, &mut stacks, scene.shortest)? else {
                break;
            };
            answer.twins = self.twins(scene, &stacks, &joined)?;
            if answer.twins.is_some() {
                break;
            }
        }
        self.steps.spend(steps.saturating_sub(search.left));
        answer.is_sought = true;
        Ok(())
    }

    /// The sentence with two trees that two parses make, checked.
    fn twins(&mut self, scene: Scene<'_>, stacks: &Stacks, joined: &Joined) -> Made<Option<Twins>> {
        let Some(rest) = scene.rest(self.alloc, stacks, joined.stack)? else {
            return Ok(None);
        };
        let Scene { rivals, way, .. } = scene;
        let second = Choice::Reduce(rivals.second);
        let (first, other) = (joined.first.as_slice(), joined.second.as_slice());
        let one = self.checked(scene, rivals.first, (first, rest.as_slice()))?;
        let other = self.checked(scene, second, (other, rest.as_slice()))?;
        let (Some((sentence, one)), Some((same, other))) = (one, other) else {
            return Ok(None);
        };
        let is_one = sentence.tokens.as_slice() == same.tokens.as_slice();
        if !is_one || self.trees.are_equal(self.alloc, one, other)? {
            return Ok(None);
        }
        let (one, other, before) = self.trees.least(self.alloc, (one, other))?;
        Ok(Some(Twins {
            sentence,
            second,
            trees: (one, other),
            dot: way.len().saturating_sub(before),
        }))
    }

    /// The sentence that a parse makes by what it does after a choice, and its tree, where it is
    /// one in which the rival stands.
    fn checked(
        &mut self,
        scene: Scene<'_>,
        choice: Choice,
        deeds: (&[Deed], &[Deed]),
    ) -> Made<Option<(Sentence, usize)>> {
        let (alloc, grammar) = (self.alloc, scene.tables.automaton().grammar());
        let course = scene.course(alloc, choice, deeds)?;
        let form = form_of(alloc, &course)?;
        let before = scene.shortest.sentence(alloc, grammar, scene.way)?;
        let tokens = scene.shortest.sentence(alloc, grammar, &form)?;
        let trees = &mut self.trees;
        let leaves = self.leaves.all(trees, grammar, scene.shortest, &form)?;
        let (Some(before), Some(tokens), Some(leaves)) = (before, tokens, leaves) else {
            return Ok(None);
        };
        let Some(tree) = self.trees.made(alloc, grammar, &course, &leaves)? else {
            return Ok(None);
        };
        let claim = Claim {
            tokens: &tokens,
            dot: before.len(),
            token: scene.rivals.cell.token,
            way: scene.way,
            choice,
        };
        let is_right = is_derivation(alloc, grammar, &self.trees, tree, claim)?;
        if !is_right || tokens.len() as u64 > MOST_TOKENS || tokens.contains(&ERROR) {
            return Ok(None);
        }
        let sentence = Sentence {
            choice,
            tokens,
            dot: before.len(),
            refused: None,
            tree,
            leaves: scene.way.len(),
        };
        Ok(Some((sentence, tree)))
    }

    /// Adds a sentence for a rival on a way, where one is found.
    fn add(&mut self, scene: Scene<'_>, choice: Choice, answer: &mut Answer) -> Made<()> {
        let alloc = self.alloc;
        let (tables, rivals, way) = (scene.tables, scene.rivals, scene.way);
        let Some((stacks, stack)) = Stacks::over(alloc, tables.automaton(), way)? else {
            return Ok(());
        };
        let mut stacks = stacks;
        let Some(alone) = alone_of(alloc, tables, &mut stacks, stack, rivals.cell, choice)? else {
            return Ok(());
        };
        let Some(rest) = scene.rest(alloc, &stacks, alone.stack)? else {
            return Ok(());
        };
        let deeds = (alone.deeds.as_slice(), rest.as_slice());
        if let Some((sentence, _)) = self.checked(scene, choice, deeds)? {
            let mut sentence = sentence;
            sentence.refused = self.refused(tables, &sentence.tokens)?;
            answer.sentences.push(sentence)?;
        }
        Ok(())
    }

    /// The place of the token that the tables refuse in a sentence.
    fn refused(&mut self, tables: &Tables, tokens: &[Sym]) -> Made<Option<usize>> {
        let tokens = Tokens {
            symbols: Vec::from_slice(self.alloc, tokens)?,
        };
        if self.endless == 0 || !tokens.fits(tables) {
            return Ok(None);
        }
        match judge(self.alloc, tables, &tokens) {
            Ok(Verdict::Rejected(place)) => Ok(Some(place)),
            Ok(Verdict::Accepted(_)) => Ok(None),
            Ok(Verdict::Limit) => {
                self.endless = self.endless.saturating_sub(1);
                Ok(None)
            }
            Err(_) => Err(AllocError),
        }
    }
}
