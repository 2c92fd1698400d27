//! Default reductions: by which rule a state reduces at tokens at which its cells are errors.

ghost use Rattle.std.specs.Prelude.{◌≡◌, ◌<◌, Some, IfOk, is_some};
ghost use Rattle.ytables.specs.Cell.{is_reduce};
ghost use Rattle.ycode.specs.Cells.{AreSizes};
ghost use Rattle.ycode.specs.Policies.{act_at, always_at, is_shift, permits, permits_all};
ghost use Rattle.ycode.specs.Policies.{permitted, reduces_always, rule_for, stays_error};
ghost use Rattle.ycode.specs.States.{is_error, is_refused, reductions_in, rule_in, states_of};
ghost use Rattle.ycode.specs.States.{tokens_of};

use crate::sizes::Sizes;
use crate::usual::commonest;
use std::alloc::{AllocError, Global};
use ylalr::ERROR;
use yprovenance::shift_at;
use ysymbols::Sym;
use ytables::{Action, Tables};

/// Which states have a default rule, which they reduce by where their cells are errors.
#[derive(Clone, Copy)]
pub enum Policy {
    /// Consistent states, which reduce by one rule at every token in any case.
    Consistent,
    /// States that have one reduction left and no shift, and no error of `%nonassoc`.
    Lone,
    /// States that have one reduction left and no shift; their errors of `%nonassoc` are lost.
    Sole,
    /// States that don't shift `error`: by their commonest reduction, of equals by the first rule.
    Most,
}

/// Whether the action reduces by the rule.
pub fn reduces_by(action: Action, rule: usize) -> bool
    ensures { result ≡ is_reduce rule action }
{
    match action {
        Action::Reduce(r) => r == rule,
        _ => false,
    }
}

/// Whether the action is an error.
pub fn is_error(action: Action) -> bool
    ensures { result ≡ is_error action }
{
    match action {
        Action::Error => true,
        _ => false,
    }
}

/// Whether the action is a shift.
fn is_shift(action: Action) -> bool
    ensures { result ≡ is_shift action }
{
    match action {
        Action::Shift(_) => true,
        _ => false,
    }
}

/// The rule that an action reduces by, where it reduces.
fn rule_in(action: Action) -> Option<usize>
    ensures { result ≡ rule_in action }
{
    match action {
        Action::Reduce(r) => Some(r),
        _ => None,
    }
}

/// Whether a cell is an error although its token could be shifted: one that comes of `%nonassoc`.
fn is_refused(tables: &Tables, q: usize, t: Sym) -> bool
    requires state { q < states_of tables.now }
    requires token { t < tokens_of tables.now }
    ensures { result ≡ is_refused tables.now q t }
{
    match tables.action(q, t) {
        Action::Error => shift_at(tables, q, t).is_some(),
        _ => false,
    }
}

/// Whether the cell of state `q` at the token `t` lets the state reduce by the rule by default.
fn permits(tables: &Tables, policy: Policy, rule: usize, q: usize, t: Sym) -> bool
    requires state { q < states_of tables.now }
    requires token { t < tokens_of tables.now }
    ensures { result ≡ permits policy tables.now q rule t }
{
    let action = tables.action(q, t);
    match policy {
        Policy::Consistent => reduces_by(action, rule),
        Policy::Lone => {
            reduces_by(action, rule) || (is_error(action) && !is_refused(tables, q, t))
        }
        Policy::Sole => reduces_by(action, rule) || is_error(action),
        Policy::Most => !(t == ERROR && is_shift(action)),
    }
}

/// Whether each cell of state `q` lets it reduce by the rule by default.
fn permits_all(tables: &Tables, sizes: &Sizes, policy: Policy, rule: usize, q: usize) -> bool
    requires sizes { AreSizes tables.now sizes.now }
    requires state { q < states_of tables.now }
    ensures { result ≡ permits_all policy tables.now q rule }
{
    for t in 0..sizes.tokens {
        if !permits(tables, policy, rule, q, t) {
            return false;
        }
    }
    true
}

/// For each token the rule that state `q` reduces by at it, where it reduces.
pub fn reductions_of(
    alloc: Global,
    tables: &Tables,
    sizes: &Sizes,
    q: usize,
) -> Result<Vec<Option<usize>>, AllocError>
    requires sizes { AreSizes tables.now sizes.now }
    requires state { q < states_of tables.now }
    ensures { IfOk result (λ v. v.items ≡ reductions_in tables.now q) }
{
    let mut rules = Vec::with_capacity(alloc, sizes.tokens)?;
    for t in 0..sizes.tokens {
        rules.push(rule_in(tables.action(q, t)))?;
    }
    Ok(rules)
}

/// The rule, where the state may reduce by it by default.
fn permitted(
    tables: &Tables,
    sizes: &Sizes,
    policy: Policy,
    rule: Option<usize>,
    q: usize,
) -> Option<usize>
    requires sizes { AreSizes tables.now sizes.now }
    requires state { q < states_of tables.now }
    ensures { result ≡ permitted policy tables.now q rule }
{
    match rule {
        Some(r) => {
            if permits_all(tables, sizes, policy, r, q) {
                Some(r)
            } else {
                None
            }
        }
        None => None,
    }
}

/// The rule that state `q` reduces by by default, where it does.
pub fn rule_of(
    alloc: Global,
    tables: &Tables,
    sizes: &Sizes,
    policy: Policy,
    q: usize,
) -> Result<Option<usize>, AllocError>
    requires sizes { AreSizes tables.now sizes.now }
    requires state { q < states_of tables.now }
    ensures { IfOk result (λ o. o ≡ rule_for policy tables.now q) }
{
    if let Policy::Consistent = policy {
        return Ok(tables.default_rule(q));
    }
    let rules = reductions_of(alloc, tables, sizes, q)?;
    let rule = commonest(alloc, &rules, sizes.rules)?;
    Ok(permitted(tables, sizes, policy, rule, q))
}

/// Whether the cell stays an error beside a default reduction.
fn stays_error(tables: &Tables, policy: Policy, q: usize, t: Sym) -> bool
    requires state { q < states_of tables.now }
    requires token { t < tokens_of tables.now }
    ensures { result ≡ stays_error policy tables.now q t }
{
    match policy {
        Policy::Sole => false,
        Policy::Consistent | Policy::Lone | Policy::Most => is_refused(tables, q, t),
    }
}

/// What state `q` does at the token `t`, where this is the rule that it reduces by by default.
pub fn act_at(tables: &Tables, policy: Policy, rule: Option<usize>, q: usize, t: Sym) -> Action
    requires state { q < states_of tables.now }
    requires token { t < tokens_of tables.now }
    requires rule { rule ≡ rule_for policy tables.now q }
    ensures { result ≡ act_at policy tables.now q t }
{
    let action = tables.action(q, t);
    match rule {
        Some(r) => {
            if is_error(action) && !stays_error(tables, policy, q, t) {
                Action::Reduce(r)
            } else {
                action
            }
        }
        None => action,
    }
}

/// Whether state `q` reduces at each token by its rule.
fn reduces_always(tables: &Tables, sizes: &Sizes, policy: Policy, rule: usize, q: usize) -> bool
    requires sizes { AreSizes tables.now sizes.now }
    requires state { q < states_of tables.now }
    requires rule { Some rule ≡ rule_for policy tables.now q }
    ensures { result ≡ reduces_always policy tables.now q rule }
{
    for t in 0..sizes.tokens {
        if !reduces_by(act_at(tables, policy, Some(rule), q, t), rule) {
            return false;
        }
    }
    true
}

/// Whether state `q` reduces before a token is read, where this is its default rule.
pub fn is_always(
    tables: &Tables,
    sizes: &Sizes,
    policy: Policy,
    rule: Option<usize>,
    q: usize,
) -> bool
    requires sizes { AreSizes tables.now sizes.now }
    requires state { q < states_of tables.now }
    requires rule { rule ≡ rule_for policy tables.now q }
    ensures { result ≡ is_some (always_at policy tables.now q) }
{
    match rule {
        Some(r) => reduces_always(tables, sizes, policy, r, q),
        None => false,
    }
}
