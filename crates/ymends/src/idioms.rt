//! Idioms: forms of rules that are known to make conflicts, each with the rules that have it. They
//! are found by the rules alone.

use crate::alike::classes_of;
use std::alloc::Global;
use yexplain::lines::is_inner;
use yexplain::reads::{Made, body_of, is_reachable, left_of, set, vanishes};
use ylalr::Automaton;
use ysearch::shortest::Shortest;
use ysymbols::{Grammar, Sym};

/// The most ways between nonterminals among which idioms are sought, and the most idioms.
const MOST_EDGES: usize = 2_000;

const MOST_IDIOMS: usize = 100;

/// The form of an idiom.
#[derive(Clone, Copy, Drop, PartialEq, Eq)]
pub enum Form {
    /// A nonterminal derives itself alone.
    Cycle,
    /// A nonterminal derives itself alone where another symbol of its rule is empty: a list with an
    /// element or a separator that may be empty.
    EmptyInList,
    /// A rule is left recursive where the symbols at its front are empty.
    HiddenLeft,
    /// A nonterminal derives nothing in two ways.
    TwoEmpty,
    /// A nonterminal stands at both ends of its rule, and no token between.
    ListOfLists,
    /// A rule stands there twice.
    Twice,
    /// Two nonterminals have the same rules.
    Alike,
}

/// An idiom.
#[derive(Drop)]
pub struct Idiom {
    /// Its form.
    pub form: Form,
    /// The nonterminal.
    pub symbol: Sym,
    /// The symbol that may be empty, or the nonterminal with the same rules.
    pub other: Option<Sym>,
    /// Its rules, the one that is named first.
    pub rules: Vec<usize>,
    /// The nonterminals by whose rules the symbol that may be empty is so, that one first.
    pub empty: Vec<Sym>,
}

/// A way from the left side of a rule to a nonterminal in its body.
#[derive(Clone, Copy, Drop)]
struct Edge {
    from: Sym,
    to: Sym,
    rule: usize,
    /// How many symbols stand before it.
    dot: usize,
}

/// What idioms are sought with.
#[derive(Drop)]
struct Search<'a> {
    alloc: Global,
    automaton: &'a Automaton,
    /// The ways to symbols beside which all others may be empty.
    alone: Vec<Edge>,
    /// The ways to symbols before which all others may be empty.
    front: Vec<Edge>,
    found: Vec<Idiom>,
}

/// Whether all of these symbols can be empty.
pub fn can_vanish(automaton: &Automaton, symbols: &[Sym]) -> bool {
    for symbol in symbols {
        if !vanishes(automaton, *symbol) {
            return false;
        }
    }
    true
}

/// The nonterminals by whose rules a symbol is empty, that one first.
fn empty_by(alloc: Global, automaton: &Automaton, other: Option<Sym>) -> Made<Vec<Sym>> {
    let (grammar, mut found) = (automaton.grammar(), Vec::new(alloc));
    let Some(first) = other else {
        return Ok(found);
    };
    found.push(first)?;
    for _ in 0..grammar.symbols() {
        let before = found.len();
        for rule in 1..grammar.rules() {
            let left = left_of(grammar, rule).unwrap_or(0);
            let body = body_of(grammar, rule);
            if found.contains(&left) && can_vanish(automaton, body) {
                for symbol in body {
                    if !found.contains(symbol) {
                        found.push(*symbol)?;
                    }
                }
            }
        }
        if found.len() == before {
            break;
        }
    }
    Ok(found)
}

/// The rules of the way by which a symbol was reached from another, where each symbol has the way
/// by which it was reached.
fn rules_back(
    alloc: Global,
    edges: &[Edge],
    links: &[Option<usize>],
    (from, to): (Sym, Sym),
) -> Made<Option<Vec<usize>>> {
    let (mut rules, mut at) = (Vec::new(alloc), to);
    for _ in 0..edges.len() {
        let number = links.get(at).copied().flatten();
        let Some(edge) = edges.get(number.unwrap_or(usize::MAX)) else {
            return Ok(None);
        };
        rules.push(edge.rule)?;
        at = edge.from;
        if at == from {
            rules.reverse();
            return Ok(Some(rules));
        }
    }
    Ok(None)
}

/// The rules of a shortest way from a symbol to another, of one step at least.
fn way_between(
    alloc: Global,
    edges: &[Edge],
    symbols: usize,
    (from, to): (Sym, Sym),
) -> Made<Option<Vec<usize>>> {
    let mut links = vec![in alloc; None; symbols]?;
    let mut waiting = Vec::new(alloc);
    waiting.push(from)?;
    for place in 0..=symbols {
        let Some(at) = waiting.get(place).copied() else {
            break;
        };
        for (number, edge) in edges.iter().enumerate() {
            let is_new = links.get(edge.to).copied().flatten().is_none();
            if edge.from == at && is_new {
                set(&mut links, edge.to, Some(number));
                waiting.push(edge.to)?;
            }
        }
    }
    rules_back(alloc, edges, &links, (from, to))
}

/// The form of a cycle, and the symbol that may be empty in it.
fn form_of(grammar: &Grammar, symbol: Sym, rules: &[usize]) -> (Form, Option<Sym>) {
    let body = match rules {
        [rule] => body_of(grammar, *rule),
        _ => return (Form::Cycle, None),
    };
    let (mut count, mut other) = (0usize, None);
    for it in body {
        if *it == symbol {
            count = count.saturating_add(1);
        } else if other.is_none() {
            other = Some(*it);
        }
    }
    match (count, other) {
        (1, None) => (Form::Cycle, None),
        (1, Some(_)) => (Form::EmptyInList, other),
        _ => (Form::ListOfLists, Some(symbol)),
    }
}

impl Idiom {
    /// Whether a conflict between these rules comes of it: one of them is its own, or a rule by
    /// which the symbol that may be empty is so; where it takes two rules, two of them are.
    pub fn concerns(&self, automaton: &Automaton, rules: &[usize]) -> bool {
        let (grammar, mut own, mut all) = (automaton.grammar(), 0usize, 0usize);
        for rule in rules {
            let left = left_of(grammar, *rule);
            let is_empty = can_vanish(automaton, body_of(grammar, *rule));
            let is_by = match left {
                Some(left) => self.empty.contains(&left),
                None => false,
            };
            let is_side = match self.form {
                Form::Alike => left == self.other,
                Form::Cycle | Form::Twice => false,
                Form::TwoEmpty => is_empty,
                Form::EmptyInList | Form::HiddenLeft | Form::ListOfLists => is_by && is_empty,
            };
            let is_own = self.rules.contains(rule);
            own = own.saturating_add(usize::from(is_own));
            all = all.saturating_add(usize::from(is_own || is_side));
        }
        match self.form {
            Form::Alike | Form::TwoEmpty | Form::Twice => own > 0 && all > 1,
            _ => all > 0,
        }
    }
}

impl Search<'_> {
    /// Adds an idiom, where there are few.
    fn add(&mut self, form: Form, symbol: Sym, other: Option<Sym>, rules: Vec<usize>) -> Made<()> {
        if self.found.len() < MOST_IDIOMS {
            let empty = empty_by(self.alloc, self.automaton, other)?;
            self.found.push(Idiom {
                form,
                symbol,
                other,
                rules,
                empty,
            })?;
        }
        Ok(())
    }

    /// Adds the ways of a rule.
    fn add_ways(&mut self, from: Sym, rule: usize) -> Made<()> {
        let automaton = self.automaton;
        let grammar = automaton.grammar();
        let body = body_of(grammar, rule);
        for (dot, symbol) in body.iter().enumerate() {
            let to = *symbol;
            let edge = Edge {
                from,
                to,
                rule,
                dot,
            };
            if !grammar.is_token(to) {
                let after = body.get(dot.saturating_add(1)..).unwrap_or(&[]);
                if can_vanish(automaton, after) {
                    self.alone.push(edge)?;
                }
                self.front.push(edge)?;
            }
            if !vanishes(automaton, to) {
                break;
            }
        }
        Ok(())
    }

    /// Whether a rule is one of an idiom that was found.
    fn has_rule(&self, rule: usize) -> bool {
        for idiom in &self.found {
            if idiom.rules.contains(&rule) {
                return true;
            }
        }
        false
    }

    /// Whether a symbol is on a cycle that was found.
    fn is_cyclic(&self, symbol: Sym) -> bool {
        let automaton = self.automaton;
        let grammar = automaton.grammar();
        for idiom in &self.found {
            for rule in &idiom.rules {
                if left_of(grammar, *rule) == Some(symbol) {
                    return true;
                }
            }
        }
        false
    }

    /// Adds the cycles: nonterminals that derive themselves alone.
    fn add_cycles(&mut self) -> Made<()> {
        let (alloc, automaton) = (self.alloc, self.automaton);
        let grammar = automaton.grammar();
        for symbol in 0..grammar.symbols() {
            let mut begins = false;
            for edge in &self.alone {
                begins = begins || edge.from == symbol;
            }
            if !begins || self.is_cyclic(symbol) {
                continue;
            }
            let (count, ends) = (grammar.symbols(), (symbol, symbol));
            if let Some(rules) = way_between(alloc, &self.alone, count, ends)? {
                let (form, other) = form_of(grammar, symbol, &rules);
                self.add(form, symbol, other, rules)?;
            }
        }
        Ok(())
    }

    /// Adds hidden left recursion: a nonterminal leads to itself after symbols that may be empty.
    fn add_hidden(&mut self) -> Made<()> {
        let (alloc, automaton) = (self.alloc, self.automaton);
        let grammar = automaton.grammar();
        for number in 0..self.front.len() {
            let Some(edge) = self.front.get(number).copied() else {
                break;
            };
            if edge.dot == 0 || self.has_rule(edge.rule) {
                continue;
            }
            let mut rules = Vec::from_slice(alloc, &[edge.rule])?;
            if edge.to != edge.from {
                let (count, ends) = (grammar.symbols(), (edge.to, edge.from));
                match way_between(alloc, &self.front, count, ends)? {
                    Some(way) => rules.extend_from_slice(&way)?,
                    None => continue,
                }
            }
            let other = body_of(grammar, edge.rule).first().copied();
            self.add(Form::HiddenLeft, edge.from, other, rules)?;
        }
        Ok(())
    }

    /// Adds nonterminals that derive nothing by two of their rules, but for those on cycles.
    fn add_empty(&mut self, shortest: &Shortest) -> Made<()> {
        let automaton = self.automaton;
        let grammar = automaton.grammar();
        for symbol in 0..grammar.symbols() {
            if !is_reachable(grammar, symbol) || self.is_cyclic(symbol) {
                continue;
            }
            let mut rules = Vec::new(self.alloc);
            for rule in shortest.rules.of(symbol) {
                if can_vanish(automaton, body_of(grammar, *rule)) {
                    rules.push(*rule)?;
                }
            }
            if rules.len() > 1 {
                self.add(Form::TwoEmpty, symbol, None, rules)?;
            }
        }
        Ok(())
    }

    /// Adds rules with their left side at both ends and no token between.
    fn add_lists(&mut self) -> Made<()> {
        let automaton = self.automaton;
        let grammar = automaton.grammar();
        for rule in 1..grammar.rules() {
            let (left, body) = (left_of(grammar, rule), body_of(grammar, rule));
            let (first, last) = (body.first().copied(), body.last().copied());
            let is_list = body.len() > 1 && first == left && last == left;
            let mut has_token = false;
            for symbol in body {
                has_token = has_token || grammar.is_token(*symbol);
            }
            if let (Some(symbol), true, false) = (left, is_list, has_token) {
                if !self.has_rule(rule) {
                    let rules = Vec::from_slice(self.alloc, &[rule])?;
                    self.add(Form::ListOfLists, symbol, Some(symbol), rules)?;
                }
            }
        }
        Ok(())
    }

    /// Adds rules that stand there twice.
    fn add_twice(&mut self, shortest: &Shortest) -> Made<()> {
        let automaton = self.automaton;
        let grammar = automaton.grammar();
        for rule in 1..grammar.rules() {
            let Some(symbol) = left_of(grammar, rule) else {
                continue;
            };
            for other in shortest.rules.of(symbol) {
                let is_same = body_of(grammar, *other) == body_of(grammar, rule);
                if *other < rule && is_same && !is_inner(grammar, rule) {
                    let rules = Vec::from_slice(self.alloc, &[rule, *other])?;
                    self.add(Form::Twice, symbol, None, rules)?;
                    break;
                }
            }
        }
        Ok(())
    }

    /// Adds nonterminals with the same rules.
    fn add_alike(&mut self, shortest: &Shortest) -> Made<()> {
        let (alloc, automaton) = (self.alloc, self.automaton);
        let grammar = automaton.grammar();
        let Some(classes) = classes_of(alloc, grammar, shortest)? else {
            return Ok(());
        };
        for (symbol, class) in classes.iter().enumerate() {
            if *class != symbol {
                let rules = Vec::from_slice(alloc, shortest.rules.of(symbol))?;
                self.add(Form::Alike, symbol, Some(*class), rules)?;
            }
        }
        Ok(())
    }
}

/// The idioms of a grammar, those that explain others first.
pub fn idioms_of(alloc: Global, automaton: &Automaton, shortest: &Shortest) -> Made<Vec<Idiom>> {
    let grammar = automaton.grammar();
    let mut search = Search {
        alloc,
        automaton,
        alone: Vec::new(alloc),
        front: Vec::new(alloc),
        found: Vec::new(alloc),
    };
    for rule in 1..grammar.rules() {
        if let Some(from) = left_of(grammar, rule) {
            if is_reachable(grammar, from) {
                search.add_ways(from, rule)?;
            }
        }
    }
    if search.front.len() <= MOST_EDGES {
        search.add_twice(shortest)?;
        search.add_cycles()?;
        search.add_hidden()?;
        search.add_empty(shortest)?;
        search.add_lists()?;
        search.add_alike(shortest)?;
    }
    let Search { found, .. } = search;
    Ok(found)
}
