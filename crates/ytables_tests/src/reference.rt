//! The reference for lookaheads: plain saturation over single facts, a flag for each item of each
//! state and token. It reads the states and gotos that callers see, and nothing of how rows are
//! kept.

use std::alloc::{AllocError, Global};
use ygrammar::Sym;
use ylalr::{Automaton, END, Item, token_count};

/// For each state, for each of its items, for each token, whether that is a lookahead.
#[derive(Drop)]
pub struct Facts {
    flags: Vec<Vec<Vec<bool>>>,
}

impl Facts {
    /// No lookaheads yet.
    fn none(alloc: Global, automaton: &Automaton) -> Result<Facts, AllocError> {
        let mut flags = Vec::new(alloc);
        for q in 0..automaton.states() {
            let mut rows = Vec::new(alloc);
            for _ in 0..items_of(automaton, q).len() {
                rows.push(vec![in alloc; false; token_count(automaton.grammar())]?)?;
            }
            flags.push(rows)?;
        }
        Ok(Facts { flags })
    }

    fn flag(&self, q: usize, j: usize, t: Sym) -> Option<&bool> {
        self.flags.get(q)?.get(j)?.get(t)
    }

    /// Whether token `t` is a lookahead of item `j` of state `q`.
    fn has(&self, q: usize, j: usize, t: Sym) -> bool {
        self.flag(q, j, t) == Some(&true)
    }

    /// Sets a fact, and says whether it is new.
    fn set(&mut self, q: usize, j: usize, t: Sym) -> bool {
        let Some(rows) = self.flags.get_mut(q) else {
            return false;
        };
        let Some(row) = rows.get_mut(j) else {
            return false;
        };
        let Some(flag) = row.get_mut(t) else {
            return false;
        };
        let before = *flag;
        *flag = true;
        !before
    }
}

/// The items of a state.
fn items_of(automaton: &Automaton, q: usize) -> &[Item] {
    if q < automaton.states() {
        automaton.items(q)
    } else {
        &[]
    }
}

/// The body of a rule.
fn body_of(automaton: &Automaton, rule: usize) -> &[Sym] {
    if rule < automaton.grammar().rules() {
        automaton.grammar().rule(rule).body()
    } else {
        &[]
    }
}

/// Where the item stands in its state.
fn index_of(automaton: &Automaton, q: usize, item: Item) -> Option<usize> {
    items_of(automaton, q).iter().position(|i| *i == item)
}

/// Whether the form, with the token `a` after it, can begin with the token `b`.
fn begins(automaton: &Automaton, form: &[Sym], a: Sym, b: Sym) -> bool {
    for s in form {
        let known = *s < automaton.grammar().symbols() && automaton.grammar().is_token(b);
        if !known || automaton.in_first(*s, b) {
            return known;
        }
        if !automaton.nullable(*s) {
            return false;
        }
    }
    a == b
}

/// The goto rule from one fact.
fn move_on(automaton: &Automaton, facts: &mut Facts, q: usize, item: Item, a: Sym) -> bool {
    let Some(x) = body_of(automaton, item.rule).get(item.dot) else {
        return false;
    };
    if *x == END || *x >= automaton.grammar().symbols() || q >= automaton.states() {
        return false;
    }
    let Some(n) = automaton.goto(q, *x) else {
        return false;
    };
    let moved = Item {
        rule: item.rule,
        dot: item.dot.wrapping_add(1),
    };
    match index_of(automaton, n, moved) {
        Some(k) => facts.set(n, k, a),
        None => false,
    }
}

/// The closure rule from one fact, to item `k` of the state.
fn open(automaton: &Automaton, facts: &mut Facts, q: usize, item: Item, a: Sym, k: usize) -> bool {
    let Some(to) = items_of(automaton, q).get(k) else {
        return false;
    };
    let rules = automaton.grammar().rules();
    if to.dot != 0 || to.rule >= rules {
        return false;
    }
    let body = body_of(automaton, item.rule);
    if body.get(item.dot) != Some(&automaton.grammar().rule(to.rule).left()) {
        return false;
    }
    let rest = body.get(item.dot.wrapping_add(1)..).unwrap_or(&[]);
    let mut grew = false;
    for b in 0..token_count(automaton.grammar()) {
        if begins(automaton, rest, a, b) {
            grew |= facts.set(q, k, b);
        }
    }
    grew
}

/// Both rules from each fact of one item, once, and whether that gave a new fact.
fn visit(automaton: &Automaton, facts: &mut Facts, q: usize, j: usize) -> bool {
    let items = items_of(automaton, q);
    let Some(item) = items.get(j) else {
        return false;
    };
    if item.dot >= body_of(automaton, item.rule).len() {
        return false;
    }
    let mut grew = false;
    for a in 0..token_count(automaton.grammar()) {
        if facts.has(q, j, a) {
            grew |= move_on(automaton, facts, q, *item, a);
            for k in 0..items.len() {
                grew |= open(automaton, facts, q, *item, a, k);
            }
        }
    }
    grew
}

/// Visits each item of each state once, and says whether that gave a new fact.
fn pass(automaton: &Automaton, facts: &mut Facts) -> bool {
    let mut grew = false;
    for q in 0..automaton.states() {
        for j in 0..items_of(automaton, q).len() {
            grew |= visit(automaton, facts, q, j);
        }
    }
    grew
}

/// The least lookaheads that both rules lead to from those of the first item, or `None` where many
/// passes are not enough.
pub fn lookaheads(alloc: Global, automaton: &Automaton) -> Result<Option<Facts>, AllocError> {
    let mut facts = Facts::none(alloc, automaton)?;
    facts.set(0, 0, END);
    for _ in 0..100_000 {
        if !pass(automaton, &mut facts) {
            return Ok(Some(facts));
        }
    }
    Ok(None)
}

/// Whether the token is a lookahead of the item in the state.
fn has_look(automaton: &Automaton, q: usize, item: Item, t: Sym) -> bool {
    q < automaton.states() && t < automaton.grammar().symbols() && automaton.looks(q, item, t)
}

/// Whether the item's lookaheads in the state are those of the reference.
fn agrees_in(automaton: &Automaton, q: usize, item: Item, facts: &Facts) -> bool {
    let Some(j) = index_of(automaton, q, item) else {
        return false;
    };
    (0..token_count(automaton.grammar())).all(|t| has_look(automaton, q, item, t)
        == facts.has(q, j, t))
}

/// Whether the lookaheads of the items of a state are those of the reference.
fn agrees_at(automaton: &Automaton, q: usize, facts: &Facts) -> bool {
    items_of(automaton, q)
        .iter()
        .all(|item| agrees_in(automaton, q, *item, facts))
}

/// Whether the lookaheads of the items of each state are those of the reference.
pub fn agrees(automaton: &Automaton, facts: &Facts) -> bool {
    (0..automaton.states()).all(|q| agrees_at(automaton, q, facts))
}
