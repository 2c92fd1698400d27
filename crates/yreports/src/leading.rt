//! Which kernel items of a state lead to the shift of a conflict, where others don't.

use std::alloc::Global;
use std::io::Write;
use yexplain::reads::{Made, is_kernel, leading_at, next_of};
use yexplain::text::{ItemText, Numbered};
use yexplain::why::Question;
use yview::page::Page;

/// The most items that are shown.
const MOST_SHOWN: usize = 10;

/// Writes which kernel items of a state lead to the shift of a conflict, where others don't.
pub fn put_leading<W: Write>(alloc: Global, page: &mut Page<W>, asked: Question<'_>) -> Made<()> {
    let (grammar, token) = (asked.grammar(), asked.token);
    let (mut all, mut is_begun) = (0usize, false);
    for item in asked.items() {
        if is_kernel(*item) {
            all = all.saturating_add(1);
        } else {
            is_begun = is_begun || next_of(grammar, *item) == Some(token);
        }
    }
    if all < 2 || !is_begun {
        return Ok(());
    }
    let mut kernel = Vec::new(alloc);
    for item in &leading_at(alloc, asked.tables.automaton(), asked.state, token)? {
        if is_kernel(*item) {
            kernel.push(*item)?;
        }
    }
    if kernel.len() == all {
        return Ok(());
    }
    let name = asked.name();
    let _ = writeln!(page, "  {name} can begin what comes next in:");
    for item in kernel.iter().take(MOST_SHOWN) {
        let number = Numbered(asked.lines, item.rule);
        let text = ItemText(grammar, *item);
        let _ = writeln!(page, "    {number}  {text}");
    }
    let more = kernel.len().saturating_sub(MOST_SHOWN);
    if more > 0 {
        let _ = writeln!(page, "    and {more} items more");
    }
    Ok(())
}
