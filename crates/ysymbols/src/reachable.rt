//! Which symbols can be reached from the first rule, by a worklist.

ghost use Rattle.std.specs.Prelude.{◌≡◌, ◌≤◌, ◌<◌, ◌↔◌, ◌⊎◌, ℕ, length, slice_index, EachIndex};
ghost use Rattle.std.specs.Prelude.{SomeIndex, IfOk, OnOk, vec_len};
ghost use Rattle.ysymbols.specs.Forms.{IsReachable};
ghost use Rattle.ysymbols.specs.Marking.{AreIn, Grows, IsMarked, IsSpread, IsWaiting, Keeps};
ghost use Rattle.ysymbols.specs.Marking.{OnlyReachable, numbered_grammar, rule_at};

use crate::occurrences::{body_at, left_at, rules_by_left};
use crate::rule::Rule;
use crate::worklist::Worklist;
use std::alloc::{AllocError, Global};

/// Marks the symbols of a rule's body.
fn mark_body(rules: &[Rule], r: usize, list: &mut Worklist) -> Result<(), AllocError>
    requires within { r < length rules.now }
    requires in_range { AreIn (length list.old.marks) rules.now }
    ensures grows { OnOk result (Grows list.old list.new) }
    ensures all { OnOk result
        (EachIndex (rule_at rules.now r).body
        (λ k. IsMarked list.new.marks (slice_index (rule_at rules.now r).body k))) }
    ensures sound { OnOk result ((tokens symbols : ℕ) →
        IsReachable (numbered_grammar tokens symbols rules.now) (rule_at rules.now r).left →
        OnlyReachable (numbered_grammar tokens symbols rules.now) list.old.marks →
        OnlyReachable (numbered_grammar tokens symbols rules.now) list.new.marks) }
{
    for s in body_at(rules, r) {
        list.mark(*s)?;
    }
    Ok(())
}

/// Marks the symbols of the bodies of the rules listed.
fn mark_bodies(rules: &[Rule], listed: &[usize], list: &mut Worklist) -> Result<(), AllocError>
    requires listed { EachIndex listed.now (λ k. slice_index listed.now k < length rules.now) }
    requires in_range { AreIn (length list.old.marks) rules.now }
    ensures grows { OnOk result (Grows list.old list.new) }
    ensures spread { OnOk result (EachIndex listed.now
        (λ k. IsSpread (rule_at rules.now (slice_index listed.now k)) list.new)) }
    ensures sound { OnOk result ((tokens symbols : ℕ) →
        EachIndex listed.now (λ k. IsReachable (numbered_grammar tokens symbols rules.now)
        (rule_at rules.now (slice_index listed.now k)).left) →
        OnlyReachable (numbered_grammar tokens symbols rules.now) list.old.marks →
        OnlyReachable (numbered_grammar tokens symbols rules.now) list.new.marks) }
{
    for r in listed {
        mark_body(rules, *r, list)?;
    }
    Ok(())
}

/// Takes the symbols in their order, and marks the bodies of their rules.
fn spread(alloc: Global, rules: &[Rule], list: &mut Worklist) -> Result<(), AllocError>
    requires in_range { AreIn (length list.old.marks) rules.now }
    requires spread { (r : ℕ) → r < length rules.now → IsSpread (rule_at rules.now r) list.old }
    ensures keeps { OnOk result (Keeps list.old.marks list.new.marks) }
    ensures spread { OnOk result ((r : ℕ) → r < length rules.now →
        IsSpread (rule_at rules.now r) list.new) }
    ensures empty { OnOk result ((s : ℕ) → IsWaiting list.new s → ⊥) }
    ensures sound { OnOk result ((tokens symbols : ℕ) →
        OnlyReachable (numbered_grammar tokens symbols rules.now) list.old.marks →
        OnlyReachable (numbered_grammar tokens symbols rules.now) list.new.marks) }
{
    let by_left = rules_by_left(alloc, rules, list.marks().len())?;
    while let Some(s) = list.take() {
        mark_bodies(rules, &by_left[s], list)?;
    }
    Ok(())
}

/// For each symbol, whether it can be reached from the first rule, in time linear in the length of
/// the rules. It fails only when memory runs out.
pub fn reachable(alloc: Global, rules: &[Rule], symbols: usize) -> Result<Vec<bool>, AllocError>
    requires some { 0 < length rules.now }
    requires in_range { AreIn symbols rules.now }
    ensures sized { IfOk result (λ marks. vec_len marks ≡ symbols) }
    ensures exact { IfOk result (λ marks. (tokens s : ℕ) → s < symbols →
        (IsMarked marks.items s ↔ IsReachable (numbered_grammar tokens symbols rules.now) s)) }
{
    let mut list = Worklist::new(alloc, vec![in alloc; false; symbols]?);
    list.mark(left_at(rules, 0))?;
    spread(alloc, rules, &mut list)?;
    Ok(list.into_marks())
}
