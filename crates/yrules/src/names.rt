//! The names of all rules.

use crate::refusal::{Refusal, Trouble, Why};
use crate::stems::Stem;
use std::alloc::Global;
use yexplain::lines::is_inner;
use yexplain::reads::Made;
use yfiles::output::Output;
use ysymbols::Grammar;
use ysymbols::names::{SymbolTable, intern, number_in};

/// The names of the rules of a grammar, each once.
#[derive(Drop)]
pub struct Names {
    /// That of rule 1 comes first.
    names: SymbolTable,
}

impl Names {
    /// The name of a rule; empty for rule 0, which has none.
    pub fn name(&self, rule: usize) -> &[u8] {
        if rule == 0 {
            return b"";
        }
        self.names.get(rule.saturating_sub(1)).unwrap_or(b"")
    }
}

/// A rule, what its alternative is called, and which inner action of that it is of, counted from 1;
/// 0 where it is the rule of the alternative itself.
#[derive(Clone, Copy)]
struct Named<'a> {
    rule: usize,
    stem: &'a Stem<'a>,
    action: usize,
}

impl Named<'_> {
    /// Its name.
    fn name(self, alloc: Global) -> Made<Vec<u8>> {
        let mut out = Output::new(alloc);
        out.put("RULE_");
        self.stem.put(&mut out);
        if self.action > 0 {
            out.put("_action_");
            out.number(self.action);
        }
        out.into_bytes()
    }
}

/// The rules from rule 1 on. Those of inner actions stand before that of their alternative.
fn rules_of<'a>(alloc: Global, grammar: &Grammar, stems: &'a [Stem<'a>]) -> Made<Vec<Named<'a>>> {
    let mut rules = Vec::with_capacity(alloc, grammar.rules())?;
    let (mut alternative, mut action): (usize, usize) = (0, 0);
    for rule in 1..grammar.rules() {
        let is_inner = is_inner(grammar, rule);
        action = if is_inner {
            action.saturating_add(1)
        } else {
            0
        };
        if let Some(stem) = stems.get(alternative) {
            rules.push(Named { rule, stem, action })?;
        }
        alternative = alternative.saturating_add(usize::from(!is_inner));
    }
    Ok(rules)
}

/// The names of the rules of a grammar whose alternatives are called so.
pub fn names_of(alloc: Global, grammar: &Grammar, stems: &[Stem<'_>]) -> Result<Names, Trouble> {
    let rules = rules_of(alloc, grammar, stems)?;
    let mut names = SymbolTable::new(alloc);
    for named in &rules {
        let name = named.name(alloc)?;
        let place = number_in(&names, &name);
        if place < names.len() {
            let first = rules.get(place).copied().unwrap_or(*named);
            // where a comment gives the name to the first rule alone, that is the place
            let (at, rule) = match (named.stem.given, first.stem.given) {
                (None, Some(given)) => (given.at, named.rule),
                _ => (named.stem.at(), first.rule),
            };
            let why = Why::Taken(name, rule);
            return Err(Trouble::Refused(Refusal { at, why }));
        }
        intern(alloc, &mut names, &name)?;
    }
    Ok(Names { names })
}
