//! An order of rows in which most stand behind those to which they give: depth first along links.

ghost use Rattle.std.specs.Prelude.{ℕ, ◌≡◌, ◌<◌, ◌++◌, [], ◌∷◌, length, map, All, IfOk, OnOk};
ghost use Rattle.std.specs.List.{Contains};
ghost use Rattle.ybitsets.specs.Marks.{Has};
ghost use Rattle.ybitsets.specs.Links.{AreLinks, links_of};
ghost use Rattle.ybitsets.specs.Order.{AreTurns};
ghost use Rattle.ybitsets.specs.declared.order.Turn.TheVariants.{Enter, Leave};

use crate::links::Links;
use crate::marks::Marks;
use std::alloc::{AllocError, Global};

/// What is to be done with a row: enter it, or leave it, once all rows to which it leads were
/// entered.
#[derive(Clone, Copy, Drop)]
pub enum Turn {
    /// Enter this row.
    Enter(usize),
    /// Leave this row.
    Leave(usize),
}

/// Lets row `p` be left later, and before that the rows entered to which it has a link.
fn enter(links: &Links, p: usize, turns: &mut Vec<Turn>) -> Result<(), AllocError>
    requires { p < length links.now }
    ensures { OnOk result
        (turns.new.items ≡ turns.old.items ++ Leave p ∷ map Enter (links_of links.now p)) }
{
    turns.push(Turn::Leave(p))?;
    for to in links.of(p) {
        turns.push(Turn::Enter(*to))?;
    }
    Ok(())
}

/// Takes the turns, the last one first, and those that follow from them. Each row that is left
/// goes to the end of the order.
fn walk(
    links: &Links,
    turns: &mut Vec<Turn>,
    seen: &mut Marks,
    order: &mut Vec<usize>,
) -> Result<(), AllocError>
    requires links { AreLinks (length seen.old) links.now }
    requires turns { AreTurns seen.old turns.old.items order.old.items }
    ensures sized { OnOk result (length seen.new ≡ length seen.old) }
    ensures turns { OnOk result (AreTurns seen.new turns.new.items order.new.items) }
    ensures none { OnOk result (turns.new.items ≡ []) }
    ensures kept { OnOk result ((p : ℕ) → Has seen.old p → Has seen.new p) }
{
    while let Some(turn) = turns.pop() {
        match turn {
            Turn::Enter(p) => {
                if seen.mark(p) {
                    enter(links, p, turns)?;
                }
            }
            Turn::Leave(p) => order.push(p)?,
        }
    }
    Ok(())
}

/// All rows, each behind those to which it leads, unless links lead back. It fails only when
/// memory runs out.
pub fn order_of(alloc: Global, links: &Links, count: usize) -> Result<Vec<usize>, AllocError>
    requires { AreLinks count links.now }
    ensures within { IfOk result (λ v. All (λ p. p < count) v.items) }
    ensures every { IfOk result (λ v. (p : ℕ) → p < count → Contains v.items p) }
{
    let mut seen = Marks::new(alloc, count)?;
    let mut turns = Vec::new(alloc);
    let mut order = Vec::new(alloc);
    for p in 0..count {
        if seen.mark(p) {
            enter(links, p, &mut turns)?;
            walk(links, &mut turns, &mut seen, &mut order)?;
        }
    }
    Ok(order)
}
