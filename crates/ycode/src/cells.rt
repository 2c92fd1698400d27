//! The cells of actions: the usual reduction of each state, the tokens at which it is made, and
//! the explicit entries of all others.

ghost use Rattle.std.specs.Prelude.{ℕ, ◌≡◌, ◌<◌, ◌≤◌, ◌+◌, IfOk, OnOk, IfSome, None};
ghost use Rattle.ycode.specs.Bits.{KeepsSets, AreListed};
ghost use Rattle.ycode.specs.Cells.{number_for, wanted_at, members_in, IsUsual, IsSetOf, AreCells};
ghost use Rattle.ycode.specs.Cells.{AreSets, AreSizes, with_set_in, set_number};
ghost use Rattle.ycode.specs.Entries.{entry_at, entries_for, EntriesAtMost};
ghost use Rattle.ycode.specs.Policies.{rule_for};
ghost use Rattle.ycode.specs.States.{Fits, states_of, tokens_of, rules_of};
ghost use Rattle.ysymbols.specs.Grammar.{most_rules};
ghost use Rattle.ybitsets.specs.Limits.{most_states};

use crate::entry::{Entry, push_number};
use crate::policy::{Policy, act_at, is_always, is_error, reduces_by, reductions_of, rule_of};
use crate::sets::Sets;
use crate::sizes::Sizes;
use crate::usual::most_usual;
use std::alloc::{AllocError, Global};
use ybitsets::list::Sequence;
use yprovenance::shift_at;
use ysymbols::Sym;
use ytables::{Action, Tables};

/// What the arrays have of the cells of all states.
#[derive(Drop)]
pub struct Cells {
    /// The rule of each state's usual reduction.
    pub usual: Vec<usize>,
    /// For each state the number of the set of tokens at which it is made.
    pub sets: Vec<usize>,
    /// The sets.
    pub known: Sets,
    /// The entries of each state.
    pub rows: Vec<Sequence<Entry>>,
}

/// The number of an action, where it has one beside the usual reduction.
fn number_for(sizes: &Sizes, usual: usize, refused: bool, action: Action) -> Option<usize>
    requires states { sizes.now.states ≤ most_states }
    requires rules { sizes.now.rules ≤ most_rules }
    requires fits { Fits sizes.now.states sizes.now.rules action }
    ensures value { result ≡ number_for sizes.now.states sizes.now.rules usual refused action }
    ensures most { IfSome result (λ n. n ≤ sizes.now.states + sizes.now.rules) }
{
    match action {
        Action::Shift(n) => Some(n),
        Action::Reduce(r) => {
            if usual == r {
                None
            } else {
                Some(sizes.states + r)
            }
        }
        Action::Accept => Some(sizes.states),
        Action::Error => {
            if refused {
                Some(sizes.states + sizes.rules)
            } else {
                None
            }
        }
    }
}

/// The number of the cell of state `q` at the token `t`, where it has one beside the usual
/// reduction.
fn wanted_at(
    tables: &Tables,
    sizes: &Sizes,
    policy: Policy,
    rule: Option<usize>,
    usual: usize,
    q: usize,
    t: Sym,
) -> Option<usize>
    requires sizes { AreSizes tables.now sizes.now }
    requires state { q < states_of tables.now }
    requires token { t < tokens_of tables.now }
    requires rule { rule ≡ rule_for policy tables.now q }
    ensures value { result ≡ wanted_at policy tables.now usual q t }
    ensures most { IfSome result (λ n. n ≤ states_of tables.now + rules_of tables.now) }
{
    let action = act_at(tables, policy, rule, q, t);
    let refused = is_error(action) && shift_at(tables, q, t).is_some();
    number_for(sizes, usual, refused, action)
}

/// The entries of state `q` beside its usual reduction.
fn entries_of(
    alloc: Global,
    tables: &Tables,
    sizes: &Sizes,
    policy: Policy,
    rule: Option<usize>,
    usual: usize,
    q: usize,
) -> Result<Sequence<Entry>, AllocError>
    requires sizes { AreSizes tables.now sizes.now }
    requires state { q < states_of tables.now }
    requires rule { rule ≡ rule_for policy tables.now q }
    ensures entries { IfOk result (λ es. (t : ℕ) → t < tokens_of tables.now
        → entry_at es t ≡ wanted_at policy tables.now usual q t) }
    ensures none { IfOk result (λ es. entry_at es (tokens_of tables.now) ≡ None) }
    ensures most { IfOk result (EntriesAtMost (states_of tables.now + rules_of tables.now)) }
    ensures list { IfOk result (λ es. es
        ≡ entries_for (wanted_at policy tables.now usual q) (tokens_of tables.now)) }
{
    let mut entries = Sequence::new(alloc);
    for t in 0..sizes.tokens {
        let number = wanted_at(tables, sizes, policy, rule, usual, q, t);
        push_number(&mut entries, t, number)?;
    }
    Ok(entries)
}

/// The rule of the usual reduction of state `q`: the default rule, where it has one, and else the
/// rule that most of its cells reduce by.
fn usual_of(
    alloc: Global,
    tables: &Tables,
    sizes: &Sizes,
    policy: Policy,
    rule: Option<usize>,
    q: usize,
) -> Result<usize, AllocError>
    requires sizes { AreSizes tables.now sizes.now }
    requires state { q < states_of tables.now }
    requires rule { rule ≡ rule_for policy tables.now q }
    ensures { IfOk result (IsUsual policy tables.now q) }
{
    if let Some(rule) = rule {
        return Ok(rule);
    }
    let rules = reductions_of(alloc, tables, sizes, q)?;
    let rule = most_usual(alloc, &rules, sizes.rules)?;
    Ok(rule)
}

/// For each token, and then for what is none, whether state `q` makes its usual reduction at it.
fn members_of(
    alloc: Global,
    tables: &Tables,
    sizes: &Sizes,
    policy: Policy,
    rule: Option<usize>,
    usual: usize,
    q: usize,
) -> Result<Vec<bool>, AllocError>
    requires sizes { AreSizes tables.now sizes.now }
    requires state { q < states_of tables.now }
    requires rule { rule ≡ rule_for policy tables.now q }
    requires usual { IsUsual policy tables.now q usual }
    ensures { IfOk result (λ v. v.items ≡ members_in policy tables.now q) }
{
    let mut members = Vec::with_capacity(alloc, sizes.tokens + 1)?;
    for t in 0..sizes.tokens {
        members.push(reduces_by(act_at(tables, policy, rule, q, t), usual))?;
    }
    members.push(rule.is_some())?;
    Ok(members)
}

/// The number of the set of tokens at which state `q` makes its usual reduction: 0 where at each.
fn set_of(
    alloc: Global,
    tables: &Tables,
    sizes: &Sizes,
    policy: Policy,
    rule: Option<usize>,
    usual: usize,
    q: usize,
    sets: &mut Sets,
) -> Result<usize, AllocError>
    requires sizes { AreSizes tables.now sizes.now }
    requires state { q < states_of tables.now }
    requires rule { rule ≡ rule_for policy tables.now q }
    requires usual { IsUsual policy tables.now q usual }
    requires sets { AreSets policy tables.now q sets.old }
    ensures set { IfOk result (IsSetOf policy tables.now q usual sets.new) }
    ensures keeps { OnOk result (KeepsSets sets.old sets.new) }
    ensures listed { OnOk result (AreListed sets.new) }
    ensures exact { OnOk result (sets.new ≡ with_set_in policy tables.now sets.old q) }
    ensures number { IfOk result (λ n. n ≡ set_number policy tables.now sets.new q) }
{
    if is_always(tables, sizes, policy, rule, q) {
        return Ok(0);
    }
    let members = members_of(alloc, tables, sizes, policy, rule, usual, q)?;
    let n = sets.put(alloc, &members)?;
    Ok(n)
}

/// The cells of all states.
pub fn all_cells(
    alloc: Global,
    tables: &Tables,
    sizes: &Sizes,
    policy: Policy,
) -> Result<Cells, AllocError>
    requires { AreSizes tables.now sizes.now }
    ensures cells { IfOk result (λ c. AreCells policy tables.now (states_of tables.now)
        c.usual.items c.sets.items c.known c.rows.items) }
    ensures sets { IfOk result (λ c. AreSets policy tables.now (states_of tables.now) c.known) }
{
    let mut known = Sets::new(alloc, sizes.tokens + 1)?;
    let mut usual = Vec::with_capacity(alloc, sizes.states)?;
    let mut sets = Vec::with_capacity(alloc, sizes.states)?;
    let mut rows = Vec::with_capacity(alloc, sizes.states)?;
    for q in 0..sizes.states {
        let default = rule_of(alloc, tables, sizes, policy, q)?;
        let rule = usual_of(alloc, tables, sizes, policy, default, q)?;
        let set = set_of(alloc, tables, sizes, policy, default, rule, q, &mut known)?;
        let entries = entries_of(alloc, tables, sizes, policy, default, rule, q)?;
        usual.push(rule)?;
        sets.push(set)?;
        rows.push(entries)?;
    }
    Ok(Cells {
        usual,
        sets,
        known,
        rows,
    })
}
