//! The conflicts of tables in short, in the blocks that the report has, without sentences.

use crate::block_text::BlockText;
use crate::blocks::{Block, blocks_of};
use crate::cause_text::CauseText;
use crate::causes::causes_of;
use crate::offer::Offer;
use std::alloc::Global;
use std::io::Write;
use yexplain::lines::Lines;
use yexplain::reads::{Made, grammar_of};
use yexplain::why::put_cell;
use ylists::kinds::put_counts;
use ysearch::groups::Conflicts;
use ytables::Tables;
use yview::page::Page;

/// How many blocks are explained, and how many are named after these.
const EXPLAINED: usize = 20;

const NAMED: usize = 1_000;

/// What is said of changes that were tried on cells alone.
const UNTRIED: &str = "  A precedence may lose sentences: ydebug conflicts tries it on some.";

/// Writes why the conflicts of a block are settled so; how to choose isn't said, since that wants
/// to be tried.
pub fn put_why<W: Write>(page: &mut Page<W>, tables: &Tables, lines: &Lines, block: &Block) {
    let text = BlockText {
        path: "",
        tables,
        lines,
        offer: Offer::Lookahead,
    };
    text.put_reasons(page, block);
    text.put_further(page, block);
}

/// Writes the conflicts of tables: how many there are, what they come from, the first blocks with
/// what settled them, and a cell of each further one.
pub fn put_brief<W: Write>(
    alloc: Global,
    page: &mut Page<W>,
    tables: &Tables,
    lines: &Lines,
) -> Made<()> {
    let found = Conflicts::new(alloc, tables)?;
    if found.cells == 0 {
        page.line("The tables have no conflict.");
        return Ok(());
    }
    let (grammar, blocks) = (grammar_of(tables), blocks_of(alloc, tables, lines, &found)?);
    put_counts(page, tables, &found, blocks.groups(&found));
    if let Some(causes) = causes_of(alloc, tables, lines, &found)? {
        // The page remembers a fault.
        let _ = CauseText { grammar, lines }.put(page, &causes);
        if !causes.changes.is_empty() {
            page.line(UNTRIED);
        }
    }
    for (place, block) in blocks.list.iter().take(NAMED).enumerate() {
        let _ = put_cell(page, block.first.cell(tables, lines));
        if place < EXPLAINED {
            put_why(page, tables, lines, block);
        }
    }
    let rest = found.groups.len().saturating_sub(blocks.kinds);
    if rest > 0 {
        page.put("and ");
        page.count(rest, "conflict", "conflicts");
        page.line(" more");
    }
    page.line("ydebug conflicts has sentences for each, and tries how to choose otherwise.");
    Ok(())
}
