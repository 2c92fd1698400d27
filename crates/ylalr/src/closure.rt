//! The closure of a kernel: its items and the first items of the rules that they lead to.

ghost use Rattle.std.specs.Prelude.{◌≡◌, ◌<◌, ◌≤◌, ◌+◌, ◌^◌, All, OnOk, IfOk};
ghost use Rattle.ysymbols.specs.Grammar.{most_rules};
ghost use Rattle.ybitsets.specs.Rows.{IsSized};
ghost use Rattle.ylalr.specs.Sets.{AreFirstRules, HasRules, Wants, IsClosure, IsAscending, InRange};
ghost use Rattle.ylalr.specs.Sets.{AddsFirst, IsMerged};

use crate::items::{Item, symbol_after};
use std::alloc::{AllocError, Global};
use ybitsets::list::Sequence;
use ybitsets::rows::Rows;
use ysymbols::Grammar;

/// Sets the row of the rules that the kernel's items lead to.
fn want(grammar: &Grammar, first_rules: &Rows, kernel: &[Item], wanted: &mut Rows)
    requires first_rules { AreFirstRules grammar.now.bare first_rules.now }
    requires range { InRange grammar.now.bare kernel.now }
    requires wanted { HasRules grammar.now.bare 1 wanted.old }
    ensures sized { HasRules grammar.now.bare 1 wanted.new }
    ensures exact { Wants grammar.now.bare kernel.now wanted.new }
{
    wanted.clear();
    for item in kernel {
        if let Some(s) = symbol_after(grammar, *item) {
            wanted.add_from(0, first_rules, s);
        }
    }
}

/// Adds the first items of the wanted rules from `from` up to `to`.
fn push_first_items(
    items: &mut Sequence<Item>,
    wanted: &Rows,
    from: usize,
    to: usize,
) -> Result<(), AllocError>
    requires row { 0 < wanted.now.height }
    requires columns { to ≤ wanted.now.width }
    requires order { from ≤ to }
    requires ascending { IsAscending items.old }
    requires below { All (λ i. i.rule < from) items.old }
    ensures ascending { OnOk result (IsAscending items.new) }
    ensures below { OnOk result (All (λ i. i.rule < to) items.new) }
    ensures exact { OnOk result (AddsFirst wanted.now from to items.old items.new) }
{
    let mut r = from;
    while r < to {
        if wanted.has(0, r) {
            items.push(Item { rule: r, dot: 0 })?;
            r += 1;
        } else {
            r = wanted.after(0, r).min(to);
        }
    }
    Ok(())
}

/// Up to which rule the first items stand before this item of a kernel.
fn until(item: Item) -> usize
    requires { item.rule < 2 ^ 63 }
    ensures first { item.dot ≡ 0 → result ≡ item.rule }
    ensures later { 0 < item.dot → result ≡ item.rule + 1 }
{
    if item.dot == 0 {
        item.rule
    } else {
        item.rule + 1
    }
}

/// The kernel's items and the first items of the wanted rules, in order.
fn merge(
    alloc: Global,
    rules: usize,
    wanted: &Rows,
    kernel: &[Item],
) -> Result<Sequence<Item>, AllocError>
    requires sized { IsSized 1 rules wanted.now }
    requires few { rules ≤ most_rules }
    requires ascending { IsAscending kernel.now }
    requires range { All (λ i. i.rule < rules) kernel.now }
    ensures ascending { IfOk result (λ w. IsAscending w) }
    ensures exact { IfOk result (λ w. IsMerged wanted.now kernel.now w) }
{
    let mut items = Sequence::new(alloc);
    let mut at = 0;
    for item in kernel {
        push_first_items(&mut items, wanted, at, until(*item))?;
        items.push(*item)?;
        at = item.rule + 1;
    }
    push_first_items(&mut items, wanted, at, rules)?;
    Ok(items)
}

/// The closure of a kernel: its items, and the first items of the rules that they lead to, by rule
/// and then by dot. `wanted` is a row of rules to work in. It fails only when memory runs out.
pub fn closure(
    alloc: Global,
    grammar: &Grammar,
    first_rules: &Rows,
    wanted: &mut Rows,
    kernel: &[Item],
) -> Result<Sequence<Item>, AllocError>
    requires first_rules { AreFirstRules grammar.now.bare first_rules.now }
    requires range { InRange grammar.now.bare kernel.now }
    requires ascending { IsAscending kernel.now }
    requires wanted { HasRules grammar.now.bare 1 wanted.old }
    ensures wanted { HasRules grammar.now.bare 1 wanted.new }
    ensures closure { IfOk result (λ w. IsClosure grammar.now.bare kernel.now w) }
    ensures ascending { IfOk result (λ w. IsAscending w) }
    ensures range { IfOk result (λ w. InRange grammar.now.bare w) }
{
    let _well_formed = grammar.symbols();
    want(grammar, first_rules, kernel, wanted);
    let items = merge(alloc, grammar.rules(), wanted, kernel)?;
    Ok(items)
}
