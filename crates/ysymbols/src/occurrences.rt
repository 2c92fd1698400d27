//! Lists of rules, one for each symbol: those in whose bodies it stands, and those of which it is
//! the left side.

ghost use Rattle.std.specs.Prelude.{◌≡◌, ◌<◌, [], ℕ, length, slice_index, EachIndex, IfOk, OnOk};
ghost use Rattle.ysymbols.specs.Marking.{AreByLeft, AreIn, AreOccurrences, IsFiled, IsFiledEach};
ghost use Rattle.ysymbols.specs.Marking.{list_at, lists_of, rule_at};

use crate::rule::{Rule, Sym};
use std::alloc::{AllocError, Global};

/// The left side of the rule of this number.
pub fn left_at(rules: &[Rule], r: usize) -> Sym
    requires { r < length rules.now }
    ensures { result ≡ (rule_at rules.now r).left }
{
    rules[r].left()
}

/// The body of the rule of this number.
pub fn body_at<'r>(rules: &'r [Rule], r: usize) -> &'r [Sym]
    requires { r < length rules.now }
    ensures { result.now ≡ (rule_at rules.now r).body }
{
    rules[r].body()
}

/// Empty lists.
fn empty_lists(alloc: Global, count: usize) -> Result<Vec<Vec<usize>>, AllocError>
    ensures sized { IfOk result (λ v. length v.items ≡ count) }
    ensures empty { IfOk result (λ v. (s : ℕ) → list_at (lists_of v) s ≡ []) }
{
    let mut lists = Vec::new(alloc);
    for _ in 0..count {
        lists.push(Vec::new(alloc))?;
    }
    Ok(lists)
}

/// Adds a rule to the list of a symbol.
fn file(lists: &mut Vec<Vec<usize>>, s: Sym, r: usize) -> Result<(), AllocError>
    requires { s < length lists.old.items }
    ensures sized { OnOk result (length lists.new.items ≡ length lists.old.items) }
    ensures filed { OnOk result (IsFiled s r (lists_of lists.old) (lists_of lists.new)) }
{
    lists[s].push(r)?;
    Ok(())
}

/// Adds a rule to the list of each symbol of its body.
fn file_body(lists: &mut Vec<Vec<usize>>, body: &[Sym], r: usize) -> Result<(), AllocError>
    requires { EachIndex body.now (λ k. slice_index body.now k < length lists.old.items) }
    ensures sized { OnOk result (length lists.new.items ≡ length lists.old.items) }
    ensures filed { OnOk result (IsFiledEach body.now r (lists_of lists.old)
        (lists_of lists.new)) }
{
    for s in body {
        file(lists, *s, r)?;
    }
    Ok(())
}

/// For each symbol, the rules in whose bodies it stands. It fails only when memory runs out.
pub fn occurrences(
    alloc: Global,
    rules: &[Rule],
    symbols: usize,
) -> Result<Vec<Vec<usize>>, AllocError>
    requires { AreIn symbols rules.now }
    ensures { IfOk result (λ v. AreOccurrences rules.now (length rules.now) symbols (lists_of v)) }
{
    let mut lists = empty_lists(alloc, symbols)?;
    for r in 0..rules.len() {
        file_body(&mut lists, body_at(rules, r), r)?;
    }
    Ok(lists)
}

/// For each symbol, the rules of which it is the left side. It fails only when memory runs out.
pub fn rules_by_left(
    alloc: Global,
    rules: &[Rule],
    symbols: usize,
) -> Result<Vec<Vec<usize>>, AllocError>
    requires { AreIn symbols rules.now }
    ensures { IfOk result (λ v. AreByLeft rules.now (length rules.now) symbols (lists_of v)) }
{
    let mut lists = empty_lists(alloc, symbols)?;
    for r in 0..rules.len() {
        file(&mut lists, left_at(rules, r), r)?;
    }
    Ok(lists)
}
