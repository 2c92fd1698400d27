//! Causes as they are written.

use crate::causes::{Causes, Change};
use crate::covered::Covered;
use std::io::{self, Write};
use yexplain::lines::Lines;
use yexplain::text::{Name, Numbered};
use ysymbols::{Grammar, Sym};
use yview::page::Page;

/// The most tokens that are named, and the most pairs of rules.
const MOST_TOKENS: usize = 20;

const MOST_PAIRS: usize = 5;

/// What causes are written with.
#[derive(Clone, Copy)]
pub struct CauseText<'a> {
    /// The grammar.
    pub grammar: &'a Grammar,
    /// Where rules stand in its file.
    pub lines: &'a Lines,
}

/// What stands before a part of a list: `A, B and C`.
fn front_of(place: usize, is_last: bool) -> &'static str {
    match place {
        0 => "",
        _ if is_last => " and ",
        _ => ", ",
    }
}

impl CauseText<'_> {
    /// Writes a list of tokens.
    fn put_tokens<W: Write>(self, page: &mut Page<W>, tokens: &[Sym]) {
        let shown = tokens.get(..MOST_TOKENS).unwrap_or(tokens);
        let more = tokens.len().saturating_sub(shown.len());
        for (place, token) in shown.iter().enumerate() {
            let is_last = more == 0 && place.saturating_add(1) == shown.len();
            page.put(front_of(place, is_last));
            page.show(Name(self.grammar, *token));
        }
        if more > 0 {
            page.put(" and ");
            page.number(more);
            page.put(" tokens more");
        }
    }

    /// Writes what a change is.
    fn put_what<W: Write>(self, page: &mut Page<W>, change: &Change) {
        let has_tokens = !change.tokens.is_empty();
        if has_tokens {
            self.put_tokens(page, &change.tokens);
            page.put(if change.tokens.len() > 1 {
                " get precedence lines"
            } else {
                " gets a precedence line"
            });
        }
        if let Some(rule) = change.rule {
            page.put(if has_tokens { ", and " } else { "" });
            page.show(Numbered(self.lines, rule));
            page.put(" a precedence of its own by %prec");
        }
        page.end();
    }

    /// Writes the pairs of rules between which conflicts are that no precedence settles.
    fn put_pairs<W: Write>(self, page: &mut Page<W>, causes: &Causes) {
        for ((taken, other), count) in causes.pairs.iter().take(MOST_PAIRS) {
            page.put("  ");
            page.number(*count);
            page.put(" of ");
            page.number(causes.all);
            page.put(if *count == 1 {
                " conflicts stands between "
            } else {
                " conflicts stand between "
            });
            page.show(Numbered(self.lines, *taken));
            page.put(", which is taken, and ");
            page.show(Numbered(self.lines, *other));
            page.end();
        }
        let more = causes.pairs.len().saturating_sub(MOST_PAIRS);
        if more > 0 {
            page.put("  and ");
            page.number(more);
            page.line(" pairs of rules more");
        }
    }

    /// Writes which conflicts go without a rule that others cover.
    fn put_covered<W: Write>(self, page: &mut Page<W>, covered: &Covered, all: usize) {
        page.put("  ");
        page.number(covered.settles);
        page.put(" of ");
        page.number(all);
        page.put(if covered.settles == 1 {
            " conflicts goes without "
        } else {
            " conflicts go without "
        });
        page.show(Numbered(self.lines, covered.rule));
        page.put(": what it derives comes of ");
        for (place, rule) in covered.by.iter().enumerate() {
            let is_last = place.saturating_add(1) == covered.by.len();
            page.put(front_of(place, is_last));
            page.show(Numbered(self.lines, *rule));
        }
        page.line(" too");
    }

    /// Writes the changes that settle the most conflicts, and the rules that others are between.
    pub fn put<W: Write>(self, out: &mut W, causes: &Causes) -> io::Result<()> {
        let mut page = Page::new(&mut *out, false);
        for (place, change) in causes.changes.iter().enumerate() {
            page.put("  ");
            page.number(change.settles);
            if place > 0 {
                page.put(" more when ");
            } else {
                page.put(" of ");
                page.number(causes.all);
                page.put(if change.settles == 1 {
                    " conflicts goes when "
                } else {
                    " conflicts go when "
                });
            }
            self.put_what(&mut page, change);
        }
        self.put_pairs(&mut page, causes);
        for covered in &causes.covered {
            self.put_covered(&mut page, covered, causes.all);
        }
        page.checked()
    }
}
