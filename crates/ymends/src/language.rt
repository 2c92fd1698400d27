//! All sentences of a few tokens that a grammar derives, by its rules alone, two grammars compared
//! by these, and whether tables accept one.

use std::alloc::Global;
use std::collections::HashSet;
use yexplain::reads::{Made, body_of, grammar_of, left_of, name_of, set};
use ylalr::{END, Item};
use yparse::states::act;
use ysearch::shortest::Shortest;
use ysymbols::{Grammar, Sym, let_go};
use ytables::{Action, Tables};

/// The most sentences, their most tokens, and how many strings are put together in all for one
/// length.
const MOST_SENTENCES: usize = 400;

const MOST_TOKENS: usize = 24;

const MOST_STEPS: usize = 60_000;

/// The most rounds until no string is new.
const MOST_ROUNDS: usize = 200;

/// The most steps of a parse over one sentence.
const MOST_PARSED: usize = 5_000;

/// How far a symbol without a place in a sentence stands from one.
const FAR: u64 = 1_000_000_000_000;

/// All sentences of up to so many tokens.
pub struct Language {
    /// The sentences.
    pub sentences: Vec<Vec<Sym>>,
    /// How many tokens they may have.
    pub most: usize,
}

impl Drop for Language {
    // A call in each owner, which keeps their proofs short.
    fn drop(self) {
        let_go!(self: Language { sentences, most });
    }
}

/// What strings are made with.
struct Making<'a> {
    alloc: Global,
    grammar: &'a Grammar,
    shortest: &'a Shortest,
    /// How many tokens stand beside each symbol in a sentence at least.
    beside: &'a [u64],
    most: u64,
    /// The strings of each symbol, and all of them, each after its symbol.
    strings: Vec<Vec<Vec<Sym>>>,
    met: HashSet<Vec<Sym>>,
    /// How many strings may still be put together.
    left: usize,
}

impl Drop for Making<'_> {
    // A call in each owner, which keeps their proofs short.
    fn drop(self) {
        let_go!(self: Making { alloc, grammar, shortest, beside, most, strings, met, left });
    }
}

/// The symbol of which sentences are strings; the end isn't one of their tokens.
fn start_of(grammar: &Grammar) -> Sym {
    body_of(grammar, 0).first().copied().unwrap_or(0)
}

/// What stands beside each symbol in a sentence at least.
pub struct Beside {
    /// How many tokens.
    lengths: Vec<u64>,
    /// The item with its dot before the symbol; none for the start symbol.
    items: Vec<Option<Item>>,
}

impl Drop for Beside {
    // A call in each owner, which keeps their proofs short.
    fn drop(self) {
        let_go!(self: Beside { lengths, items });
    }
}

impl Beside {
    /// Takes in a rule, and says whether less is known to stand beside a symbol of it.
    fn add(&mut self, grammar: &Grammar, shortest: &Shortest, rule: usize) -> bool {
        let (left, body) = (left_of(grammar, rule).unwrap_or(0), body_of(grammar, rule));
        let around = self.lengths.get(left).copied().unwrap_or(FAR);
        let all = shortest.length_of(body).saturating_add(around);
        let mut is_less = false;
        for dot in 0..body.len() {
            let symbol = body.get(dot).copied().unwrap_or(0);
            let least = all.saturating_sub(shortest.length(symbol));
            if least < self.lengths.get(symbol).copied().unwrap_or(0) {
                set(&mut self.lengths, symbol, least);
                set(&mut self.items, symbol, Some(Item { rule, dot }));
                is_less = true;
            }
        }
        is_less
    }

    /// The form of a sentence in which these symbols stand in place of a nonterminal; `None` where
    /// it stands in no sentence.
    pub fn around(
        &self,
        alloc: Global,
        grammar: &Grammar,
        left: Sym,
        middle: &[Sym],
    ) -> Made<Option<Vec<Sym>>> {
        let (mut form, mut at) = (Vec::from_slice(alloc, middle)?, left);
        for _ in 0..grammar.symbols() {
            let Some(item) = self.items.get(at).copied().flatten() else {
                break;
            };
            let body = body_of(grammar, item.rule);
            let mut longer = Vec::from_slice(alloc, body.get(..item.dot).unwrap_or(&[]))?;
            longer.extend_from_slice(&form)?;
            longer.extend_from_slice(body.get(item.dot.saturating_add(1)..).unwrap_or(&[]))?;
            form = longer;
            at = left_of(grammar, item.rule).unwrap_or(0);
        }
        if at == start_of(grammar) {
            Ok(Some(form))
        } else {
            Ok(None)
        }
    }
}

/// What stands beside each symbol in a sentence at least.
pub fn beside_of(alloc: Global, grammar: &Grammar, shortest: &Shortest) -> Made<Beside> {
    let symbols = grammar.symbols();
    let mut beside = Beside {
        lengths: vec![in alloc; FAR; symbols]?,
        items: vec![in alloc; None; symbols]?,
    };
    set(&mut beside.lengths, start_of(grammar), 0);
    for _ in 0..symbols {
        let mut is_less = false;
        for rule in 1..grammar.rules() {
            is_less = beside.add(grammar, shortest, rule) || is_less;
        }
        if !is_less {
            break;
        }
    }
    Ok(beside)
}

impl Making<'_> {
    /// The strings that a symbol has so far.
    fn strings_of(&self, symbol: Sym) -> &[Vec<Sym>] {
        match self.strings.get(symbol) {
            Some(list) => list.as_slice(),
            None => &[],
        }
    }

    /// Strings with each string of a symbol after them, where they have no more tokens than this;
    /// and how many were put together.
    fn longer(&self, begun: &[Vec<Sym>], symbol: Sym, room: u64) -> Made<(Vec<Vec<Sym>>, usize)> {
        let (mut longer, mut steps) = (Vec::new(self.alloc), 0usize);
        for string in begun {
            if self.grammar.is_token(symbol) {
                let mut next = Vec::from_slice(self.alloc, string)?;
                next.push(symbol)?;
                longer.push(next)?;
                continue;
            }
            for part in self.strings_of(symbol) {
                steps = steps.saturating_add(1);
                let length = string.len().saturating_add(part.len());
                if length as u64 <= room && steps < self.left {
                    let mut next = Vec::from_slice(self.alloc, string)?;
                    next.extend_from_slice(part)?;
                    longer.push(next)?;
                }
            }
        }
        Ok((longer, steps.saturating_add(begun.len())))
    }

    /// The strings of a body, as far as its symbols have some.
    fn strings_for(&mut self, left: Sym, body: &[Sym]) -> Made<Vec<Vec<Sym>>> {
        let around = self.beside.get(left).copied().unwrap_or(FAR);
        let room = self.most.saturating_sub(around);
        let mut rest = self.shortest.length_of(body);
        let mut strings = Vec::new(self.alloc);
        if around.saturating_add(rest) > self.most {
            return Ok(strings);
        }
        strings.push(Vec::new(self.alloc))?;
        for symbol in body {
            rest = rest.saturating_sub(self.shortest.length(*symbol));
            let (longer, steps) = self.longer(&strings, *symbol, room.saturating_sub(rest))?;
            self.left = self.left.saturating_sub(steps);
            strings = longer;
        }
        Ok(strings)
    }

    /// Adds the strings of a rule, and says whether one is new.
    fn add(&mut self, rule: usize) -> Made<bool> {
        let (grammar, mut is_new) = (self.grammar, false);
        let Some(left) = left_of(grammar, rule) else {
            return Ok(false);
        };
        for string in &self.strings_for(left, body_of(grammar, rule))? {
            let mut key = Vec::from_slice(self.alloc, &[left])?;
            key.extend_from_slice(string)?;
            if self.met.insert(key)? {
                is_new = true;
                if let Some(list) = self.strings.get_mut(left) {
                    list.push(Vec::from_slice(self.alloc, string)?)?;
                }
            }
        }
        Ok(is_new)
    }

    /// Adds the strings of all rules until none is new; false where that takes too long.
    fn finish(&mut self) -> Made<bool> {
        for _ in 0..MOST_ROUNDS {
            let mut is_new = false;
            for rule in 1..self.grammar.rules() {
                if self.add(rule)? {
                    is_new = true;
                }
                if self.left == 0 {
                    return Ok(false);
                }
            }
            if !is_new {
                return Ok(true);
            }
        }
        Ok(false)
    }
}

/// All sentences of up to so many tokens; `None` where that takes too many steps.
fn sentences_of<'a>(
    alloc: Global,
    grammar: &'a Grammar,
    shortest: &'a Shortest,
    beside: &'a [u64],
    (most, steps): (usize, usize),
) -> Made<Option<Vec<Vec<Sym>>>> {
    let mut strings = Vec::new(alloc);
    for _ in 0..grammar.symbols() {
        strings.push(Vec::new(alloc))?;
    }
    let mut making = Making {
        alloc,
        grammar,
        shortest,
        beside,
        most: most as u64,
        strings,
        met: HashSet::new(alloc),
        left: steps,
    };
    if !making.finish()? {
        return Ok(None);
    }
    let mut sentences = Vec::new(alloc);
    for sentence in making.strings_of(start_of(grammar)) {
        sentences.push(Vec::from_slice(alloc, sentence)?)?;
    }
    Ok(Some(sentences))
}

/// All sentences of as many tokens as there are few of; `None` where even the shortest ones are too
/// long.
pub fn language_of(
    alloc: Global,
    grammar: &Grammar,
    shortest: &Shortest,
) -> Made<Option<Language>> {
    let beside = beside_of(alloc, grammar, shortest)?;
    let mut found = None;
    for most in 0..=MOST_TOKENS {
        let asked = (most, MOST_STEPS);
        let Some(sentences) = sentences_of(alloc, grammar, shortest, &beside.lengths, asked)? else {
            break;
        };
        if sentences.len() > MOST_SENTENCES {
            break;
        }
        if !sentences.is_empty() {
            found = Some(Language { sentences, most });
        }
    }
    Ok(found)
}

/// Tokens of a grammar as another one has them, by their names; `None` where it lacks one.
pub fn renamed(
    alloc: Global,
    from: &Grammar,
    to: &Grammar,
    tokens: &[Sym],
) -> Made<Option<Vec<Sym>>> {
    let mut others = Vec::new(alloc);
    for token in tokens {
        match to.find(name_of(from, *token)) {
            Some(other) => others.push(other)?,
            None => return Ok(None),
        }
    }
    Ok(Some(others))
}

/// Whether tables accept a sentence; `None` where that takes more steps than are left.
pub fn accepts(
    alloc: Global,
    tables: &Tables,
    tokens: &[Sym],
    left: &mut usize,
) -> Made<Option<bool>> {
    let mut states = Vec::from_slice(alloc, &[0])?;
    let mut place: usize = 0;
    for _ in 0..MOST_PARSED.min(*left) {
        *left = left.saturating_sub(1);
        let token = tokens.get(place).copied().unwrap_or(END);
        match act(tables, &mut states, token)? {
            Action::Shift(_) => place = place.saturating_add(1),
            Action::Reduce(_) => {}
            Action::Accept => return Ok(Some(place == tokens.len())),
            Action::Error => return Ok(Some(false)),
        }
    }
    Ok(None)
}

/// The sentences of another grammar.
struct Theirs {
    all: HashSet<Vec<Sym>>,
}

impl Drop for Theirs {
    // A call in each owner, which keeps their proofs short.
    fn drop(self) {
        let_go!(self: Theirs { all });
    }
}

impl Theirs {
    /// Adds sentences.
    fn add(&mut self, sentences: &[Vec<Sym>]) -> Made<()> {
        for sentence in sentences {
            self.all.insert(sentence.clone()?)?;
        }
        Ok(())
    }

    /// Whether all sentences of one grammar are among those of the other one.
    fn has_all(
        &mut self,
        alloc: Global,
        (grammar, other): (&Grammar, &Grammar),
        language: &Language,
    ) -> Made<bool> {
        for sentence in &language.sentences {
            let is_there = match renamed(alloc, grammar, other, sentence)? {
                Some(tokens) => !self.all.insert(tokens)?,
                None => false,
            };
            if !is_there {
                return Ok(false);
            }
        }
        Ok(true)
    }
}

/// Whether the grammar of other tables has these sentences of a grammar, and no other ones of as
/// few tokens; `None` where that takes too many steps.
pub fn is_same(
    alloc: Global,
    grammar: &Grammar,
    language: &Language,
    tables: &Tables,
) -> Made<Option<bool>> {
    let other = grammar_of(tables);
    let shortest = Shortest::new(alloc, other)?;
    let beside = beside_of(alloc, other, &shortest)?;
    let asked = (language.most, MOST_STEPS.saturating_mul(2));
    let Some(sentences) = sentences_of(alloc, other, &shortest, &beside.lengths, asked)? else {
        return Ok(None);
    };
    if sentences.len() != language.sentences.len() {
        return Ok(Some(false));
    }
    let mut theirs = Theirs {
        all: HashSet::new(alloc),
    };
    theirs.add(&sentences)?;
    Ok(Some(theirs.has_all(alloc, (grammar, other), language)?))
}
