//! A block of conflicts as it is written, but for the lists of tokens that get to it.

use crate::blocks::{Block, Class, Entry};
use crate::lost::put_losses;
use crate::numbers::Ranges;
use crate::offer::Offer;
use std::io::Write;
use yexplain::lines::Lines;
use yexplain::reads::{grammar_of, name_of};
use yexplain::text::Name;
use yexplain::why::put_cell;
use ylists::kinds::{put_front, put_states};
use ytables::Tables;
use yview::page::Page;

/// How far tokens are indented, and how long their lines are.
const INDENT: usize = 4;

const WIDTH: usize = 78;

/// The most tokens of a block that is told on one line.
const MOST_NAMED: usize = 8;

/// What blocks are written with.
#[derive(Clone, Copy)]
pub struct BlockText<'a> {
    /// The path of the grammar file.
    pub path: &'a str,
    /// The tables.
    pub tables: &'a Tables,
    /// What is offered.
    pub offer: Offer,
    /// Where rules stand in the file.
    pub lines: &'a Lines,
}

/// The least number of a block's conflicts that is greater than this one.
fn number_after(block: &Block, last: Option<usize>) -> Option<usize> {
    let mut next: Option<usize> = None;
    for class in &block.classes {
        for entry in &class.entries {
            let number = entry.number;
            let is_after = match last {
                Some(last) => number > last,
                None => true,
            };
            next = match next {
                Some(next) if next <= number || !is_after => Some(next),
                None if !is_after => None,
                _ => Some(number),
            };
        }
    }
    next
}

/// Writes which other conflicts a hint settles.
fn put_also<W: Write>(page: &mut Page<W>, class: &Class) {
    if class.also.is_empty() {
        return;
    }
    page.put("  In a line of %left after all others, what the first hint names also settles ");
    let mut ranges = Ranges::begin(page, class.also.len());
    for number in &class.also {
        ranges.add(page, *number);
    }
    ranges.end(page);
    page.line(".");
}

impl BlockText<'_> {
    /// Writes the tokens of conflicts on lines of their own.
    fn put_tokens<W: Write>(&self, page: &mut Page<W>, entries: &[Entry]) {
        let grammar = grammar_of(self.tables);
        page.spaces(INDENT - 1);
        for entry in entries {
            let token = entry.kind.token;
            let width = page.column.saturating_add(name_of(grammar, token).len());
            if width >= WIDTH && page.column >= INDENT {
                page.end();
                page.spaces(INDENT - 1);
            }
            page.put(" ");
            page.show(Name(grammar, token));
        }
        page.end();
    }

    /// Writes the tokens and numbers of conflicts after some words.
    fn put_others<W: Write>(&self, page: &mut Page<W>, entries: &[Entry], words: (&str, &str)) {
        page.put(words.0);
        page.count(entries.len(), "other token", "other tokens");
        page.put(words.1);
        let mut ranges = Ranges::begin(page, entries.len());
        for entry in entries {
            ranges.add(page, entry.number);
        }
        ranges.end(page);
        page.line(":");
        self.put_tokens(page, entries);
    }

    /// Writes how to choose otherwise in a class of conflicts, where that is offered.
    fn put_choice<W: Write>(&self, page: &mut Page<W>, class: &Class) {
        if let (true, Some(entry)) = (self.offer.has_hints(), class.entries.first()) {
            let _ = entry.cell(self.tables, self.lines).put_hint(page);
            put_also(page, class);
            if !class.losses.is_empty() {
                page.put("  ");
                let _ = put_losses(page, grammar_of(self.tables), &class.losses);
            }
        }
    }

    /// Writes why no hints are offered, where none are.
    pub fn put_offer<W: Write>(&self, page: &mut Page<W>) {
        for reason in self.offer.reasons() {
            page.put("  ");
            page.line(reason);
        }
    }

    /// Writes the first conflict of a block, why it is settled so, and on which tokens it is the
    /// same.
    pub fn put<W: Write>(&self, page: &mut Page<W>, block: &Block) {
        let entry = block.first;
        page.end();
        put_front(page, self.path, entry.kind.spot(self.lines));
        page.put("conflict ");
        page.number(entry.number.saturating_add(1));
        page.put(": ");
        let _ = put_cell(page, entry.cell(self.tables, self.lines));
        self.put_reasons(page, block);
    }

    /// Writes why the first conflict of a block is settled so, and on which tokens it is the same.
    pub fn put_reasons<W: Write>(&self, page: &mut Page<W>, block: &Block) {
        let entry = block.first;
        let _ = entry.cell(self.tables, self.lines).put_reason(page);
        if let Some(class) = block.classes.first() {
            self.put_choice(page, class);
            let rest = class.entries.get(1..).unwrap_or(&[]);
            if !rest.is_empty() {
                self.put_others(page, rest, ("  The same on ", ", "));
            }
        }
        put_states(page, entry.group);
    }

    /// Writes on one line that the conflicts of a block come of the same cause as one before.
    pub fn put_as<W: Write>(&self, page: &mut Page<W>, block: &Block, number: usize) {
        let grammar = grammar_of(self.tables);
        put_front(page, self.path, block.first.kind.spot(self.lines));
        let mut count: usize = 0;
        for class in &block.classes {
            count = count.saturating_add(class.entries.len());
        }
        let (mut ranges, mut last) = (Ranges::begin(page, count), None);
        for _ in 0..count {
            last = number_after(block, last);
            ranges.add(page, last.unwrap_or(0));
        }
        ranges.end(page);
        page.put(" as conflict ");
        page.number(number.saturating_add(1));
        page.put(": state ");
        page.number(block.first.group.state);
        page.put(" on");
        let mut left = MOST_NAMED;
        for class in &block.classes {
            for entry in class.entries.iter().take(left) {
                page.put(" ");
                page.show(Name(grammar, entry.kind.token));
            }
            left = left.saturating_sub(class.entries.len());
        }
        page.line(if count > MOST_NAMED { " .." } else { "" });
    }

    /// Writes what is said on the tokens of a block on which it is otherwise than on the first one.
    pub fn put_further<W: Write>(&self, page: &mut Page<W>, block: &Block) {
        for class in block.classes.get(1..).unwrap_or(&[]) {
            self.put_others(page, &class.entries, ("  Also on ", ", "));
            if let Some(entry) = class.entries.first() {
                let _ = entry.cell(self.tables, self.lines).put_grounds(page);
            }
            self.put_choice(page, class);
        }
    }
}
