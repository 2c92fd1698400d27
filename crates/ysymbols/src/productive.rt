//! Which symbols derive a list of tokens, by a worklist over the places where symbols stand.

ghost use Rattle.std.specs.Prelude.{◌≡◌, ◌≤◌, ◌<◌, ◌↔◌, ℕ, length, slice_index};
ghost use Rattle.std.specs.Prelude.{EachIndex, false, IfOk, OnOk, vec_len};
ghost use Rattle.ysymbols.specs.Forms.{Productive};
ghost use Rattle.ysymbols.specs.Marking.{AreDots, AreIn, DotFits, Grows, IsMarked, IsSettled};
ghost use Rattle.ysymbols.specs.Marking.{IsUnmarked, IsWaiting, Keeps, OnlyProductive};
ghost use Rattle.ysymbols.specs.Marking.{numbered_grammar, rule_at};

use crate::occurrences::{body_at, left_at, occurrences};
use crate::rule::{Rule, Sym};
use crate::worklist::Worklist;
use std::alloc::{AllocError, Global};

/// Where the dot of a body stands once it has moved past the marked symbols.
fn advance(body: &[Sym], marks: &[bool], dot: usize) -> usize
    requires body { EachIndex body.now (λ k. slice_index body.now k < length marks.now) }
    requires dot { DotFits body.now marks.now dot }
    ensures fits { DotFits body.now marks.now result }
    ensures stuck { result < length body.now → IsUnmarked marks.now (slice_index body.now result) }
{
    for at in dot..body.len() {
        if !marks[body[at]] {
            return at;
        }
    }
    body.len()
}

/// Moves the dot of a rule, and marks its left side once its body is marked.
fn visit(
    rules: &[Rule],
    r: usize,
    dots: &mut Vec<usize>,
    list: &mut Worklist,
) -> Result<(), AllocError>
    requires within { r < length rules.now }
    requires in_range { AreIn (length list.old.marks) rules.now }
    requires dots { AreDots rules.now dots.old.items list.old.marks }
    ensures grows { OnOk result (Grows list.old list.new) }
    ensures dots { OnOk result (AreDots rules.now dots.new.items list.new.marks) }
    ensures settled { OnOk result (IsSettled (rule_at rules.now r) list.new) }
    ensures sound { OnOk result ((tokens symbols : ℕ) →
        OnlyProductive (numbered_grammar tokens symbols rules.now) list.old.marks →
        OnlyProductive (numbered_grammar tokens symbols rules.now) list.new.marks) }
{
    let body = body_at(rules, r);
    let dot = advance(body, list.marks(), dots[r]);
    dots[r] = dot;
    if dot == body.len() {
        list.mark(left_at(rules, r))?;
    }
    Ok(())
}

/// Visits the rules listed.
fn visit_listed(
    rules: &[Rule],
    listed: &[usize],
    dots: &mut Vec<usize>,
    list: &mut Worklist,
) -> Result<(), AllocError>
    requires listed { EachIndex listed.now (λ k. slice_index listed.now k < length rules.now) }
    requires in_range { AreIn (length list.old.marks) rules.now }
    requires dots { AreDots rules.now dots.old.items list.old.marks }
    ensures grows { OnOk result (Grows list.old list.new) }
    ensures dots { OnOk result (AreDots rules.now dots.new.items list.new.marks) }
    ensures settled { OnOk result (EachIndex listed.now
        (λ k. IsSettled (rule_at rules.now (slice_index listed.now k)) list.new)) }
    ensures sound { OnOk result ((tokens symbols : ℕ) →
        OnlyProductive (numbered_grammar tokens symbols rules.now) list.old.marks →
        OnlyProductive (numbered_grammar tokens symbols rules.now) list.new.marks) }
{
    for r in listed {
        visit(rules, *r, dots, list)?;
    }
    Ok(())
}

/// Visits every rule once.
fn visit_each(rules: &[Rule], dots: &mut Vec<usize>, list: &mut Worklist) -> Result<(), AllocError>
    requires in_range { AreIn (length list.old.marks) rules.now }
    requires dots { AreDots rules.now dots.old.items list.old.marks }
    ensures grows { OnOk result (Grows list.old list.new) }
    ensures dots { OnOk result (AreDots rules.now dots.new.items list.new.marks) }
    ensures settled { OnOk result ((r : ℕ) → r < length rules.now →
        IsSettled (rule_at rules.now r) list.new) }
    ensures sound { OnOk result ((tokens symbols : ℕ) →
        OnlyProductive (numbered_grammar tokens symbols rules.now) list.old.marks →
        OnlyProductive (numbered_grammar tokens symbols rules.now) list.new.marks) }
{
    for r in 0..rules.len() {
        visit(rules, r, dots, list)?;
    }
    Ok(())
}

/// Takes the symbols in their order, and visits the rules in whose bodies they stand.
fn drain(
    alloc: Global,
    rules: &[Rule],
    dots: &mut Vec<usize>,
    list: &mut Worklist,
) -> Result<(), AllocError>
    requires in_range { AreIn (length list.old.marks) rules.now }
    requires dots { AreDots rules.now dots.old.items list.old.marks }
    requires settled { (r : ℕ) → r < length rules.now → IsSettled (rule_at rules.now r) list.old }
    ensures keeps { OnOk result (Keeps list.old.marks list.new.marks) }
    ensures settled { OnOk result ((r : ℕ) → r < length rules.now →
        IsSettled (rule_at rules.now r) list.new) }
    ensures empty { OnOk result ((s : ℕ) → IsWaiting list.new s → ⊥) }
    ensures sound { OnOk result ((tokens symbols : ℕ) →
        OnlyProductive (numbered_grammar tokens symbols rules.now) list.old.marks →
        OnlyProductive (numbered_grammar tokens symbols rules.now) list.new.marks) }
{
    let places = occurrences(alloc, rules, list.marks().len())?;
    while let Some(s) = list.take() {
        visit_listed(rules, &places[s], dots, list)?;
    }
    Ok(())
}

/// Marks of the tokens alone.
fn token_marks(alloc: Global, tokens: usize, symbols: usize) -> Result<Vec<bool>, AllocError>
    requires { tokens ≤ symbols }
    ensures sized { IfOk result (λ v. vec_len v ≡ symbols) }
    ensures marked { IfOk result (λ v. (s : ℕ) → IsMarked v.items s ↔ s < tokens) }
{
    let mut marks = vec![in alloc; false; symbols]?;
    for t in 0..tokens {
        marks[t] = true;
    }
    Ok(marks)
}

/// For each symbol, whether it derives a list of tokens, in time linear in the length of the
/// rules. It fails only when memory runs out.
pub fn productive(
    alloc: Global,
    rules: &[Rule],
    tokens: usize,
    symbols: usize,
) -> Result<Vec<bool>, AllocError>
    requires within { tokens ≤ symbols }
    requires in_range { AreIn symbols rules.now }
    ensures sized { IfOk result (λ marks. vec_len marks ≡ symbols) }
    ensures exact { IfOk result (λ marks. (s : ℕ) → s < symbols →
        (IsMarked marks.items s ↔ Productive (numbered_grammar tokens symbols rules.now) s)) }
{
    let mut list = Worklist::new(alloc, token_marks(alloc, tokens, symbols)?);
    let mut dots = vec![in alloc; 0; rules.len()]?;
    visit_each(rules, &mut dots, &mut list)?;
    drain(alloc, rules, &mut dots, &mut list)?;
    Ok(list.into_marks())
}
