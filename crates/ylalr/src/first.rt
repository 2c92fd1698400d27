//! The symbols that derive the empty form, and the tokens that a symbol can begin with: rows that
//! are passed on to left sides.

ghost use Rattle.std.specs.Prelude.{◌≡◌, length, IfOk};
ghost use Rattle.ylalr.specs.First.{IsNullable, IsFirst};
ghost use Rattle.ylalr.specs.Fronts.{HasEach};
ghost use Rattle.ybitsets.specs.Rows.{IsSized};

use crate::fronts::front_links;
use crate::tokens::token_count;
use std::alloc::{AllocError, Global};
use ybitsets::marks::Marks;
use ybitsets::rows::Rows;
use ybitsets::spread::spread;
use ysymbols::Grammar;

/// The symbols that derive the empty form. It fails only when memory runs out.
pub fn nullable_symbols(alloc: Global, grammar: &Grammar) -> Result<Marks, AllocError>
    ensures sized { IfOk result (λ marks. length marks ≡ grammar.now.bare.symbols) }
    ensures exact { IfOk result (λ marks. IsNullable grammar.now.bare marks) }
{
    let _well_formed = grammar.symbols();
    let item_rows = grammar.nullable(alloc)?;
    Ok(Marks::of(item_rows))
}

/// Rows in which each token has itself.
fn own_tokens(alloc: Global, grammar: &Grammar) -> Result<Rows, AllocError>
    ensures sized { IfOk result (λ m. IsSized grammar.now.bare.symbols grammar.now.bare.tokens m) }
    ensures own { IfOk result (λ m. HasEach (λ t. t) grammar.now.bare.tokens m) }
{
    let tokens = token_count(grammar);
    let mut first = Rows::new(alloc, grammar.symbols(), tokens)?;
    for t in 0..tokens {
        first.mark(t, t);
    }
    Ok(first)
}

/// The tokens that each symbol can begin with, a row for each symbol. It fails only when memory
/// runs out.
pub fn first_tokens(alloc: Global, grammar: &Grammar, nullable: &Marks) -> Result<Rows, AllocError>
    requires marks { length nullable.now ≡ grammar.now.bare.symbols }
    requires exact { IsNullable grammar.now.bare nullable.now }
    ensures sized { IfOk result (λ m. IsSized grammar.now.bare.symbols grammar.now.bare.tokens m) }
    ensures exact { IfOk result (λ m. IsFirst grammar.now.bare m) }
{
    let mut first = own_tokens(alloc, grammar)?;
    let links = front_links(alloc, grammar, nullable)?;
    spread(alloc, &links, &mut first)?;
    Ok(first)
}
