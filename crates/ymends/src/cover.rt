//! Sentences that use the rules of a grammar which another one lacks, at each place where they can
//! stand, and with each rule of a nonterminal at each place of their bodies: short sentences may be
//! few, so a changed grammar is compared by these too.

use crate::language::{Beside, accepts, beside_of, renamed};
use std::alloc::Global;
use yambiguity::forks::derives;
use yexplain::reads::{Made, body_of, grammar_of, is_set, left_of, name_of, set};
use ysearch::shortest::Shortest;
use ysymbols::{Grammar, Sym, let_go};
use ytables::Tables;

/// The most sentences of a grammar.
const MOST_FORMS: usize = 400;

/// How many steps of tables parses over them may take.
const MOST_STEPS: usize = 200_000;

/// Whether two rules of two grammars have the same names in them.
fn is_alike((one, rule): (&Grammar, usize), (two, other): (&Grammar, usize)) -> bool {
    let (body, its) = (body_of(one, rule), body_of(two, other));
    let lefts = (
        left_of(one, rule).unwrap_or(0),
        left_of(two, other).unwrap_or(0),
    );
    if body.len() != its.len() || name_of(one, lefts.0) != name_of(two, lefts.1) {
        return false;
    }
    for at in 0..body.len() {
        let symbol = body.get(at).copied().unwrap_or(0);
        let same = its.get(at).copied().unwrap_or(0);
        if name_of(one, symbol) != name_of(two, same) {
            return false;
        }
    }
    true
}

/// Whether another grammar has no rule with the same names.
fn is_new(grammar: &Grammar, rule: usize, other: &Grammar) -> bool {
    for it in 1..other.rules() {
        if is_alike((grammar, rule), (other, it)) {
            return false;
        }
    }
    true
}

/// A grammar, and another one that is to have the sentences of its rules.
struct Cover<'t, 'b> {
    alloc: Global,
    from: &'t Tables,
    to: &'t Tables,
    shortest: &'b Shortest,
    beside: &'b Beside,
    /// Whether the first one is the changed one.
    is_back: bool,
    /// Whether the language stays the same by what the change is.
    is_kept: bool,
    /// How many sentences may still be made, and how many steps their parses may take.
    forms: usize,
    steps: usize,
}

impl Drop for Cover<'_, '_> {
    // A call in each owner, which keeps their proofs short.
    fn drop(self) {
        let_go!(self: Cover {
            alloc, from, to, shortest, beside, is_back, is_kept, forms, steps
        });
    }
}

impl Cover<'_, '_> {
    /// Whether tables that accept these tokens of the first grammar before the change accept them,
    /// which are those of the second one, after it.
    fn stays(&mut self, tokens: &[Sym], others: &[Sym]) -> Made<bool> {
        let (alloc, mut steps) = (self.alloc, self.steps);
        let here = accepts(alloc, self.from, tokens, &mut steps)?;
        let there = accepts(alloc, self.to, others, &mut steps)?;
        self.steps = steps;
        let (before, after) = if self.is_back {
            (there, here)
        } else {
            (here, there)
        };
        Ok(after == Some(true) || before == Some(false))
    }

    /// Whether the other grammar has the sentence in which these symbols stand in place of a
    /// nonterminal.
    fn has(&mut self, left: Sym, middle: &[Sym]) -> Made<bool> {
        let (alloc, from) = (self.alloc, grammar_of(self.from));
        if self.forms == 0 {
            return Ok(true);
        }
        self.forms = self.forms.saturating_sub(1);
        let Some(form) = self.beside.around(alloc, from, left, middle)? else {
            return Ok(true);
        };
        let Some(tokens) = self.shortest.sentence(alloc, from, &form)? else {
            return Ok(true);
        };
        match renamed(alloc, from, grammar_of(self.to), &tokens)? {
            Some(others) => {
                let is_there = self.is_kept || derives(alloc, self.to, &others)? == Some(true);
                Ok(is_there && self.stays(&tokens, &others)?)
            }
            None => Ok(false),
        }
    }

    /// Whether it has those of a rule, and of a rule within it, where it lacks one of the two. The
    /// rules that it lacks are marked.
    fn has_rule(&mut self, rule: usize, lacking: &[bool]) -> Made<bool> {
        let (grammar, shortest) = (grammar_of(self.from), self.shortest);
        let (left, body) = (left_of(grammar, rule).unwrap_or(0), body_of(grammar, rule));
        let is_lacking = is_set(lacking, rule);
        if is_lacking && !self.has(left, body)? {
            return Ok(false);
        }
        for dot in 0..body.len() {
            let symbol = body.get(dot).copied().unwrap_or(0);
            for inner in shortest.rules.of(symbol) {
                if !is_lacking && !is_set(lacking, *inner) {
                    continue;
                }
                let mut form = Vec::from_slice(self.alloc, body.get(..dot).unwrap_or(&[]))?;
                form.extend_from_slice(body_of(grammar, *inner))?;
                form.extend_from_slice(body.get(dot.saturating_add(1)..).unwrap_or(&[]))?;
                if !self.has(left, &form)? {
                    return Ok(false);
                }
            }
        }
        Ok(true)
    }

    /// Whether it has those of all rules that it lacks.
    fn has_all(&mut self) -> Made<bool> {
        let (from, to) = (grammar_of(self.from), grammar_of(self.to));
        let mut lacking = vec![in self.alloc; false; from.rules()]?;
        for rule in 1..from.rules() {
            set(&mut lacking, rule, is_new(from, rule, to));
        }
        for rule in 1..from.rules() {
            if !self.has_rule(rule, &lacking)? {
                return Ok(false);
            }
        }
        Ok(true)
    }
}

/// Whether one of two grammars has the sentences of the rules that are the other's alone, and the
/// changed one still accepts what was accepted.
fn is_covered<'t>(
    alloc: Global,
    (from, to): (&'t Tables, &'t Tables),
    is_back: bool,
    is_kept: bool,
) -> Made<bool> {
    let grammar = grammar_of(from);
    let shortest = Shortest::new(alloc, grammar)?;
    let beside = beside_of(alloc, grammar, &shortest)?;
    let mut cover = Cover {
        alloc,
        from,
        to,
        shortest: &shortest,
        beside: &beside,
        is_back,
        is_kept,
        forms: MOST_FORMS,
        steps: MOST_STEPS,
    };
    cover.has_all()
}

/// Whether two grammars, of which the second is the changed one, have the sentences of the rules
/// that are the other's alone, and the second accepts those of them that the first accepts.
pub fn are_covered<'t>(
    alloc: Global,
    tables: &'t Tables,
    changed: &'t Tables,
    is_kept: bool,
) -> Made<bool> {
    Ok(
        is_covered(alloc, (tables, changed), false, is_kept)?
            && is_covered(alloc, (changed, tables), true, is_kept)?,
    )
}
