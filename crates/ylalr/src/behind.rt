//! What forms begin with; and, made once for each rule, what stands after the first symbol of its
//! body. Each state that has the rule with the dot at 0 asks for that.

ghost use Rattle.std.specs.Prelude.{◌≡◌, ◌<◌, ◌≤◌, ◌↔◌, length, All, IfOk, IsTrue};
ghost use Rattle.ybitsets.specs.Marks.{Has};
ghost use Rattle.ybitsets.specs.Rows.{Grows, IsSized};
ghost use Rattle.ylalr.specs.Behind.{AddsAtMost, HasForm, IsBehind, rest_of};

use crate::tokens::token_count;
use std::alloc::{AllocError, Global};
use ybitsets::marks::Marks;
use ybitsets::rows::Rows;
use ysymbols::{Grammar, Sym, let_go};

/// What stands after the first symbol of the body of each rule.
pub struct Behind {
    /// For each rule, the tokens with which that begins.
    pub rows: Rows,
    /// Whether it vanishes.
    pub vanishing: Marks,
}

impl Drop for Behind {
    fn drop(self) {
        let_go!(self: Behind { rows, vanishing });
    }
}

/// Adds to row `to` what the form begins with, and says whether the form vanishes.
pub fn add_form(nullable: &Marks, first: &Rows, form: &[Sym], rows: &mut Rows, to: usize) -> bool
    requires form { All (λ s. s < length nullable.now) form.now }
    requires first { length nullable.now ≤ first.now.height }
    requires columns { first.now.width ≡ rows.old.width }
    requires to_in { to < rows.old.height }
    ensures sized { IsSized rows.old.height rows.old.width rows.new }
    ensures grows { Grows rows.old rows.new }
    ensures sound { AddsAtMost nullable.now first.now form.now to rows.old rows.new }
    ensures every { HasForm nullable.now first.now form.now to rows.new }
    ensures vanishes { IsTrue result ↔ All (Has nullable.now) form.now }
{
    for s in form {
        rows.add_from(to, first, *s);
        if !nullable.has(*s) {
            return false;
        }
    }
    true
}

/// What stands after the first symbol of the body of rule `r`: nothing, where the body is empty.
fn rest(grammar: &Grammar, r: usize) -> &[Sym]
    requires { r < length grammar.now.bare.rules }
    ensures value { result.now ≡ rest_of grammar.now.bare r }
    ensures symbols { All (λ s. s < grammar.now.bare.symbols) result.now }
{
    let _well_formed = grammar.symbols();
    let body = grammar.rule(r).body();
    if body.is_empty() { body } else { &body[1..] }
}

/// What stands after the first symbol of each body. It fails only when memory runs out.
pub fn behind_of(
    alloc: Global,
    grammar: &Grammar,
    nullable: &Marks,
    first: &Rows,
) -> Result<Behind, AllocError>
    requires marks { length nullable.now ≡ grammar.now.bare.symbols }
    requires first { IsSized grammar.now.bare.symbols grammar.now.bare.tokens first.now }
    ensures { IfOk result (λ b. IsBehind grammar.now.bare nullable.now first.now b) }
{
    let _well_formed = grammar.symbols();
    let mut rows = Rows::new(alloc, grammar.rules(), token_count(grammar))?;
    let mut vanishing = Marks::new(alloc, grammar.rules())?;
    for r in 0..grammar.rules() {
        if add_form(nullable, first, rest(grammar, r), &mut rows, r) {
            vanishing.mark(r);
        }
    }
    Ok(Behind { rows, vanishing })
}
