//! Nonterminals and rules that no sentence needs, and rules that are never reduced.

use crate::bodies::Body;
use crate::finding::{Finding, Seen, What, about_all, warning};
use crate::kinds::Kind;
use crate::walk::Walk;
use std::alloc::Global;
use yexplain::lines::is_inner;
use yexplain::reads::{Made, body_of, is_set, left_of, set};
use yforeign::lexeme::{Kind as Form, Lexeme, Span};
use yforeign::numbers::number_of;
use yimport::left_out::{Barren, LeftOut};
use ysymbols::{Grammar, Sym};

/// Which symbols and rules sentences need.
#[derive(Drop)]
pub struct Needed {
    /// The symbols that derive a list of tokens.
    productive: Vec<bool>,
    /// Those that the start symbol comes to by rules whose symbols all do.
    pub symbols: Vec<bool>,
    /// Rules by which it does.
    pub rules: Vec<bool>,
}

/// Whether all symbols are marked.
fn all_marked(marks: &[bool], symbols: &[Sym]) -> bool {
    for symbol in symbols {
        if !is_set(marks, *symbol) {
            return false;
        }
    }
    true
}

impl Needed {
    /// Marks the symbols that derive tokens by one rule more, and says whether there are such.
    fn produce(&mut self, grammar: &Grammar) -> bool {
        let mut grows = false;
        for rule in 0..grammar.rules() {
            let left = left_of(grammar, rule).unwrap_or(0);
            let is_marked = is_set(&self.productive, left);
            if !is_marked && all_marked(&self.productive, body_of(grammar, rule)) {
                set(&mut self.productive, left, true);
                grows = true;
            }
        }
        grows
    }

    /// Marks what is needed by one rule more, and says whether there is such.
    fn reach(&mut self, grammar: &Grammar) -> bool {
        let mut grows = false;
        for rule in 0..grammar.rules() {
            let left = left_of(grammar, rule).unwrap_or(0);
            let is_meant = rule == 0 || is_set(&self.symbols, left);
            let body = body_of(grammar, rule);
            let is_marked = is_set(&self.rules, rule);
            if is_meant && !is_marked && all_marked(&self.productive, body) {
                set(&mut self.rules, rule, true);
                for symbol in body {
                    set(&mut self.symbols, *symbol, true);
                }
                grows = true;
            }
        }
        grows
    }

    /// What sentences of a grammar need.
    pub fn new(alloc: Global, grammar: &Grammar) -> Made<Needed> {
        let mut needed = Needed {
            productive: vec![in alloc; false; grammar.symbols()]?,
            symbols: vec![in alloc; false; grammar.symbols()]?,
            rules: vec![in alloc; false; grammar.rules()]?,
        };
        for symbol in 0..grammar.symbols() {
            set(&mut needed.productive, symbol, grammar.is_token(symbol));
        }
        for _ in 0..grammar.symbols() {
            if !needed.produce(grammar) {
                break;
            }
        }
        for _ in 0..grammar.rules() {
            if !needed.reach(grammar) {
                break;
            }
        }
        Ok(needed)
    }
}

/// Where each rule stands: in its body, or as an action there.
fn rule_places(seen: &Seen<'_>, bodies: &[Body<'_>]) -> Made<Vec<usize>> {
    let mut places = vec![in seen.alloc; 0; seen.grammar().rules()]?;
    for body in bodies {
        set(&mut places, body.rule, body.at);
    }
    for action in &seen.parts.actions {
        if is_inner(seen.grammar(), action.rule) {
            set(&mut places, action.rule, action.piece.at);
        }
    }
    Ok(places)
}

/// Where the first rule of each nonterminal begins; an action within a body is its own.
fn heads_of(seen: &Seen<'_>, bodies: &[Body<'_>], places: &[usize]) -> Made<Vec<Option<usize>>> {
    let grammar = seen.grammar();
    let mut heads = vec![in seen.alloc; None; grammar.symbols()]?;
    for body in bodies {
        if matches!(heads.get(body.left), Some(None)) {
            set(&mut heads, body.left, Some(body.head));
        }
    }
    for rule in 1..grammar.rules() {
        if is_inner(grammar, rule) {
            let left = left_of(grammar, rule).unwrap_or(0);
            set(&mut heads, left, places.get(rule).copied());
        }
    }
    Ok(heads)
}

/// What is said of a useless nonterminal whose first rule stands at a place: of an action within a
/// body by its number among all of the file.
fn useless_at<'a>(seen: &Seen<'a>, symbol: Sym, at: usize) -> What<'a> {
    let name = seen.name(symbol);
    let Some(digits) = name.strip_prefix(b"$$") else {
        return What::Nonterminal(name);
    };
    let mut number = number_of(digits);
    for LeftOut { what, span } in &seen.imported.left_out {
        let is_before = matches!(what, Barren::Action(_)) && span.from < at;
        number = number.saturating_add(usize::from(is_before));
    }
    let mut text = seen.source.get(..0).unwrap_or(&[]);
    for action in &seen.parts.actions {
        if action.piece.at == at {
            text = action.piece.text;
        }
    }
    What::Action(number, text)
}

/// Whether sentences need the nonterminal whose name stands in a part of the file.
fn is_needed(seen: &Seen<'_>, needed: &Needed, span: Span) -> Made<bool> {
    let kind = Form::Name;
    Ok(match seen.symbol(&Lexeme { kind, span })? {
        Some(symbol) => is_set(&needed.symbols, symbol),
        None => false,
    })
}

/// Finds useless nonterminals, at their first rules; so many more that have no rules are useless
/// too.
fn find_nonterminals<'a>(
    seen: &Seen<'a>,
    needed: &Needed,
    heads: &[Option<usize>],
    more: usize,
    found: &mut Vec<Finding<'a>>,
) -> Made<()> {
    let (mut symbols, mut rules) = (more, 0usize);
    for (symbol, head) in heads.iter().enumerate() {
        if let (Some(at), Some(false)) = (*head, needed.symbols.get(symbol).copied()) {
            symbols = symbols.saturating_add(1);
            found.push(warning(Kind::Other, at, useless_at(seen, symbol, at)))?;
        }
    }
    for is_needed in needed.rules.iter().skip(1) {
        rules = rules.saturating_add(usize::from(!*is_needed));
    }
    for LeftOut { what, span } in &seen.imported.left_out {
        let text = seen.source.get(span.from..span.to).unwrap_or(&[]);
        let is_rule = !matches!(what, Barren::Nonterminal);
        rules = rules.saturating_add(usize::from(is_rule));
        let what = match *what {
            Barren::Nonterminal => What::Nonterminal(text),
            Barren::Action(number) => What::Action(number, text),
            Barren::Rule(span) if is_needed(seen, needed, span)? => What::Rule,
            Barren::Rule(_) | Barren::Inside => continue,
        };
        let is_symbol = !matches!(what, What::Rule);
        symbols = symbols.saturating_add(usize::from(is_symbol));
        found.push(warning(Kind::Other, span.from, what))?;
    }
    if symbols > 0 {
        found.push(about_all(Kind::Other, What::Nonterminals(symbols)))?;
    }
    if rules > 0 {
        found.push(about_all(Kind::Other, What::Rules(rules)))?;
    }
    Ok(())
}

/// Finds useless nonterminals and rules, and rules that are never reduced; so many nonterminals
/// more have no rules.
pub fn find_useless<'a>(
    seen: &Seen<'a>,
    bodies: &[Body<'a>],
    more: usize,
    found: &mut Vec<Finding<'a>>,
) -> Made<()> {
    let grammar = seen.grammar();
    let needed = Needed::new(seen.alloc, grammar)?;
    let places = rule_places(seen, bodies)?;
    let heads = heads_of(seen, bodies, &places)?;
    find_nonterminals(seen, &needed, &heads, more, found)?;
    let walk = Walk::new(seen.alloc, seen.tables)?;
    for rule in 1..grammar.rules() {
        let at = places.get(rule).copied().unwrap_or(0);
        let left = left_of(grammar, rule).unwrap_or(0);
        let is_needed = is_set(&needed.rules, rule);
        if !is_set(&needed.symbols, left) {
            continue;
        }
        if !is_needed {
            found.push(warning(Kind::Other, at, What::Rule))?;
        } else if !is_set(&walk.reduced, rule) {
            found.push(warning(Kind::Other, at, What::Lost))?;
        }
    }
    Ok(())
}
