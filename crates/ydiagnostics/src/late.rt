//! Where a parser with default reductions detects an error: later than the tables do, by reductions
//! that it makes first.

use crate::events::Events;
use std::alloc::Global;
use ycode::{Code, Policy, code_of};
use yexplain::reads::{Made, goto_of, grammar_of, left_of};
use yfiles::output::Output;
use yinput::verdict::Verdict;
use ysymbols::{Sym, let_go};
use ytables::Tables;

/// The most reductions that are followed.
const MOST_REDUCTIONS: usize = 100_000;

/// The most rules that are named.
const MOST_NAMED: usize = 20;

/// The bits of a byte.
const BITS: [usize; 8] = [1, 2, 4, 8, 16, 32, 64, 128];

/// Where such a parser detects an error.
pub struct Late {
    /// The policy, as `lr.default-reduction` has it.
    policy: &'static str,
    /// The state in which it detects it.
    state: usize,
    /// The rules that it reduces by before, after the state in which the tables detect it.
    rules: Vec<usize>,
}

impl Drop for Late {
    // A call in each owner, which keeps their proofs short.
    fn drop(self) {
        let_go!(self: Late { policy, state, rules });
    }
}

impl Late {
    /// Adds it to a document.
    pub fn add_to(&self, events: &mut Events) {
        events.begin();
        events.word("policy", self.policy);
        events.number("state", self.state);
        events.numbers("rules", &self.rules);
        events.end();
    }
}

/// The arrays of such a parser, once they were asked for.
pub struct Defaults {
    code: Option<Code>,
}

impl Drop for Defaults {
    // A call in each owner, which keeps their proofs short.
    fn drop(self) {
        let_go!(self: Defaults { code });
    }
}

/// The rule by which a parser of these arrays reduces in a state at a token, where it does.
fn rule_at(code: &Code, state: usize, token: Sym) -> Option<usize> {
    let usual = code.usual.as_slice().get(state).copied();
    let number = *code.sets.as_slice().get(state)?;
    let place = code
        .actions
        .rows
        .as_slice()
        .get(state)?
        .saturating_add(token);
    if number == 0 {
        return usual;
    }
    if code.actions.checks.as_slice().get(place) == Some(&token) {
        let value = code.actions.values.as_slice().get(place)?;
        let rule = value.checked_sub(code.states)?;
        return if rule > 0 && rule < code.rules {
            Some(rule)
        } else {
            None
        };
    }
    let place = number.saturating_mul(code.span).saturating_add(token / 8);
    let byte = code.bits.as_slice().get(place)?;
    if *byte & *BITS.get(token % 8)? != 0 {
        usual
    } else {
        None
    }
}

/// That an error is detected in a state after reductions by these rules, where there are some, and
/// this is known.
fn late_of(is_known: bool, state: usize, rules: Vec<usize>) -> Option<Late> {
    let policy = "most";
    if rules.is_empty() || !is_known {
        drop(rules);
        None
    } else {
        Some(Late {
            policy,
            state,
            rules,
        })
    }
}

impl Defaults {
    /// Nothing was asked for yet.
    pub fn new() -> Defaults {
        Defaults { code: None }
    }

    /// Where a parser that reduces by default as bison's does detects the error of an input, where
    /// that is another state than the one that these tables detect it in.
    pub fn late(
        &mut self,
        alloc: Global,
        tables: &Tables,
        verdict: &Verdict,
    ) -> Made<Option<Late>> {
        let Verdict::Rejected(rejection) = verdict else {
            return Ok(None);
        };
        if self.code.is_none() {
            self.code = Some(code_of(alloc, tables, Policy::Most)?);
        }
        let (Some(code), token) = (&self.code, rejection.token) else {
            return Ok(None);
        };
        let mut states = Vec::from_slice(alloc, &rejection.states)?;
        let (mut state, mut rules) = (rejection.state, Vec::new(alloc));
        let mut is_known = false;
        for _ in 0..MOST_REDUCTIONS {
            let Some(rule) = rule_at(code, state, token) else {
                is_known = true;
                break;
            };
            let length = code.lengths.as_slice().get(rule).copied().unwrap_or(0);
            states.truncate(states.len().saturating_sub(length));
            let (before, left) = (states.last().copied(), left_of(grammar_of(tables), rule));
            let (Some(before), Some(left)) = (before, left) else {
                break;
            };
            let Some(next) = goto_of(tables.automaton(), before, left) else {
                break;
            };
            states.push(next)?;
            rules.push(rule)?;
            state = next;
        }
        Ok(late_of(is_known, state, rules))
    }
}

impl Late {
    /// What is said of it.
    pub fn text(&self, alloc: Global) -> Made<Vec<u8>> {
        let mut out = Output::new(alloc);
        out.put("a parser with default reductions (lr.default-reduction ");
        out.put(self.policy);
        out.put(") detects this in state ");
        out.number(self.state);
        out.put(", after reducing by rule");
        out.put(if self.rules.len() == 1 { "" } else { "s" });
        for (place, rule) in self.rules.iter().take(MOST_NAMED).enumerate() {
            out.put(if place > 0 { ", " } else { " " });
            out.number(*rule);
        }
        out.put(if self.rules.len() > MOST_NAMED {
            ", .."
        } else {
            ""
        });
        out.into_bytes()
    }
}
