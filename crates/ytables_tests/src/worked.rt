//! The symbols that vanish and the FIRST sets of one grammar, written out by hand.

use crate::compared::automaton;
use std::test::Fail;
use ygrammar::Sym;
use ylalr::{Automaton, END, Item};

/// Whether exactly these symbols derive the empty form.
fn vanish(automaton: &Automaton, symbols: &[Sym]) -> bool {
    for s in 0..automaton.grammar().symbols() {
        if automaton.nullable(s) != symbols.contains(&s) {
            return false;
        }
    }
    true
}

/// Whether the symbol can begin with exactly these tokens.
fn begins_with(automaton: &Automaton, s: Sym, tokens: &[Sym]) -> bool {
    for t in 0..automaton.grammar().symbols() {
        if s >= automaton.grammar().symbols() || automaton.in_first(s, t) != tokens.contains(&t) {
            return false;
        }
    }
    true
}

/// Whether a state has these items and no others, and no goto over `$end`.
fn ends_in(automaton: &Automaton, q: usize, items: &[Item]) -> bool {
    q < automaton.states()
        && automaton.items(q) == items
        && automaton.grammar().symbols() > END
        && automaton.goto(q, END).is_none()
}

#[test]
fn a_grammar_with_a_middle_that_vanishes(rt: HostRuntime) -> Result<(), Fail> {
    // 'y' is 3, s 5, p 6, q 7
    let m = automaton(rt.alloc(), b"%% s : p q 'x' ; p : 'y' ; q : ;")?;
    let right = vanish(&m, &[7])
        && begins_with(&m, 5, &[3])
        && begins_with(&m, 6, &[3])
        && begins_with(&m, 7, &[])
        && m.states() == 6
        // $accept : s . $end
        && ends_in(&m, 2, &[Item { rule: 0, dot: 1 }]);
    drop(m);
    assert!(rt; right);
    Ok(())
}
