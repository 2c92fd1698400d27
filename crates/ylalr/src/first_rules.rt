//! The rules that a symbol after a dot leads to: its own, and those of what their bodies begin
//! with. They are found as first tokens are, but no symbol is passed over.

ghost use Rattle.std.specs.Prelude.{IfOk, length};
ghost use Rattle.ysymbols.specs.Grammar.{left_of};
ghost use Rattle.ylalr.specs.Fronts.{HasEach};
ghost use Rattle.ylalr.specs.Sets.{AreFirstRules, HasRules};

use crate::fronts::front_links;
use std::alloc::{AllocError, Global};
use ybitsets::marks::Marks;
use ybitsets::rows::Rows;
use ybitsets::spread::spread;
use ysymbols::Grammar;

/// Rows in which each left side has its own rules.
fn own_rules(alloc: Global, grammar: &Grammar) -> Result<Rows, AllocError>
    ensures sized { IfOk result (λ m. HasRules grammar.now.bare grammar.now.bare.symbols m) }
    ensures own { IfOk result (λ m.
        HasEach (left_of grammar.now.bare) (length grammar.now.bare.rules) m) }
{
    let mut rows = Rows::new(alloc, grammar.symbols(), grammar.rules())?;
    for r in 0..grammar.rules() {
        rows.mark(grammar.rule(r).left(), r);
    }
    Ok(rows)
}

/// The rules that each symbol leads to, a row for each symbol. It fails only when memory runs out.
pub fn first_rules(alloc: Global, grammar: &Grammar) -> Result<Rows, AllocError>
    ensures { IfOk result (λ m. AreFirstRules grammar.now.bare m) }
{
    let mut rows = own_rules(alloc, grammar)?;
    let none = Marks::new(alloc, grammar.symbols())?;
    let links = front_links(alloc, grammar, &none)?;
    spread(alloc, &links, &mut rows)?;
    Ok(rows)
}
