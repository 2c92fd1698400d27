//! The reductions that bison makes before it sees an error, by which it lists other tokens.

use std::alloc::Global;
use yexplain::reads::{Made, action_of, grammar_of};
use ylalr::{ERROR, token_count};
use ytables::{Action, Tables};

/// The rule of each state's reduction that is made at most tokens; 0 where there is none, or where
/// the state shifts `error` (Bison manual, "Default Reductions").
pub fn default_rules(alloc: Global, tables: &Tables) -> Made<Vec<usize>> {
    let grammar = grammar_of(tables);
    let mut rules = Vec::new(alloc);
    let mut counts = vec![in alloc; 0; grammar.rules()]?;
    for state in 0..tables.automaton().states() {
        rules.push(default_rule(tables, state, &mut counts))?;
    }
    Ok(rules)
}

/// The rule of the reduction that a state makes at most tokens, the first of several; the counts
/// are 0 before and after.
fn default_rule(tables: &Tables, state: usize, counts: &mut Vec<usize>) -> usize {
    if matches!(action_of(tables, state, ERROR), Action::Shift(_)) {
        return 0;
    }
    for token in 0..token_count(grammar_of(tables)) {
        if let Action::Reduce(rule) = action_of(tables, state, token) {
            if let Some(count) = counts.get_mut(rule) {
                *count = count.saturating_add(1);
            }
        }
    }
    let mut best = 0;
    let mut most = 0;
    for (rule, count) in counts.iter_mut().enumerate() {
        if *count > most {
            best = rule;
            most = *count;
        }
        *count = 0;
    }
    best
}
