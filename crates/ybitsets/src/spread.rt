//! Rows that give what they have along links, until nothing is new. Rows wait in rounds. In the
//! first, rows stand in front of those to which they lead; each further round goes the other way.
//! So what runs down a chain of links and up again takes two rounds, however long the chain.

ghost use Rattle.std.specs.Prelude.{◌≡◌, ◌<◌, ◌≤◌, [], length, slice_index_or, OnOk};
ghost use Rattle.ybitsets.specs.Rows.{IsSized};
ghost use Rattle.ybitsets.specs.Links.{AreLinks, IsSpread};
ghost use Rattle.ybitsets.specs.Spread.{Gives};

use crate::links::Links;
use crate::order::order_of;
use crate::rows::Rows;
use crate::waiting::Waiting;
use std::alloc::{AllocError, Global};

/// Lets row `p` give what it has to each row to which it has a link. Each row that grows has to
/// wait.
fn give(links: &Links, p: usize, rows: &mut Rows, waiting: &mut Waiting) -> Result<(), AllocError>
    requires links { AreLinks rows.old.height links.now }
    requires row { p < rows.old.height }
    requires marks { length waiting.old ≡ rows.old.height }
    ensures { OnOk result
        (Gives (slice_index_or links.now p []) p rows.old waiting.old rows.new waiting.new) }
{
    for to in links.of(p) {
        if rows.add_row(*to, p) {
            waiting.put(*to)?;
        }
    }
    Ok(())
}

/// Lets each row give along its links, until no row grows any more. A row that grew waits until it
/// is taken, at most once at a time. At first all rows wait, in such an order that only links that
/// lead back give to rows that were taken. It fails only when memory runs out.
pub fn spread(alloc: Global, links: &Links, rows: &mut Rows) -> Result<(), AllocError>
    requires { AreLinks rows.old.height links.now }
    ensures sized { OnOk result (IsSized rows.old.height rows.old.width rows.new) }
    ensures exact { OnOk result (IsSpread links.now rows.old rows.new) }
{
    let count = rows.height();
    let order = order_of(alloc, links, count)?;
    let mut waiting = Waiting::from_back(alloc, count, &order)?;
    while let Some(p) = waiting.take() {
        give(links, p, rows, &mut waiting)?;
    }
    Ok(())
}
