//! Cells of states with a default rule, by the numbers of states, symbols and rules. These rules
//! are reduced at every token, also at `error`, which is 1, and at the end, which is 0.

use crate::made::tables_of;
use std::alloc::Global;
use std::test::Fail;
use testkit::worked::ONE;
use ygrammar::Sym;
use ytables::{Action, Tables};

fn action_in(tables: &Tables, q: usize, t: Sym) -> Option<Action> {
    let automaton = tables.automaton();
    if q < automaton.states() && automaton.grammar().is_token(t) {
        Some(tables.action(q, t))
    } else {
        None
    }
}

/// What is done in a state at a token; `None` where there is no such state or token.
fn action(alloc: Global, grammar: &[u8], q: usize, t: Sym) -> Result<Option<Action>, Fail> {
    Ok(action_in(&tables_of(alloc, grammar)?, q, t))
}

#[test]
fn default_rules_are_reduced_at_every_token(rt: HostRuntime) -> Result<(), Fail> {
    let merged: &[u8] =
        b"%% s : 'a' p 'd' | 'b' q 'd' | 'a' q 'e' | 'b' p 'e' ; p : 'c' ; q : 'c' ;";
    let cells: [(&[u8], usize, usize, usize); 5] = [
        (ONE, 1, 0, 1),
        (ONE, 1, 1, 1),
        (ONE, 1, 2, 1),
        (merged, 4, 2, 5),
        (b"%% s : 'a' | error ;", 1, 2, 2),
    ];
    for (grammar, q, t, rule) in cells {
        let wanted = Some(Action::Reduce(rule));
        assert_eq!(rt; action(rt.alloc(), grammar, q, t)?, wanted);
    }
    Ok(())
}
