//! Where lookaheads come from: for each rule of a cell the chain of items that gives it the token.

use crate::question::Question;
use crate::reads::{Made, body_of};
use crate::text::{ItemText, Numbered};
use std::alloc::Global;
use std::io::{self, Write};
use ylalr::Item;
use yprovenance::{Cause, Place, Reason, Reasons};

/// The most rules of a cell whose chains are made.
const MOST_RULES: usize = 3;

/// The most items of a chain that are shown.
const MOST_ITEMS: usize = 12;

/// A rule that could be reduced in a cell, and why the token is among its lookaheads.
#[derive(Drop)]
pub struct Source {
    /// The number of the rule.
    rule: usize,
    chain: Vec<Reason>,
}

impl Source {
    /// The item with the left side after its dot, where a part of the chain comes from one.
    fn opener(&self, index: usize) -> Option<Place> {
        let reason = self.chain.get(index)?;
        match reason.cause {
            Cause::Begins(item) => Some(Place {
                state: reason.place.state,
                item,
            }),
            Cause::Passes => Some(self.chain.get(index.checked_sub(1)?)?.place),
            Cause::Starts | Cause::Moves => None,
        }
    }
}

/// For each rule that could be reduced in a cell, up to so many, why the token is among its
/// lookaheads.
pub fn sources_of(alloc: Global, reasons: &Reasons<'_>, asked: Question<'_>) -> Made<Vec<Source>> {
    let mut sources = Vec::new(alloc);
    let (automaton, state, token) = (reasons.automaton(), asked.state, asked.token);
    for candidate in asked.candidates().take(MOST_RULES) {
        let rule = candidate.rule;
        let dot = body_of(asked.grammar(), rule).len();
        if state < automaton.states() && token < automaton.grammar().symbols() {
            if let Some(chain) = reasons.chain(alloc, state, Item { rule, dot }, token)? {
                sources.push(Source { rule, chain })?;
            }
        }
    }
    Ok(sources)
}

impl Question<'_> {
    /// Writes, for each of these rules, where the token comes from that can come after it, by the
    /// items that put it there: the first has the token after the symbol next to its dot, and each
    /// other ends with that symbol or with symbols that are nullable.
    pub fn put_sources<W: Write>(self, out: &mut W, sources: &[Source]) -> io::Result<()> {
        let name = self.name();
        for source in sources {
            let rule = source.rule;
            writeln!(out, "  {name} can come after rule {rule} from:")?;
            let mut shown: usize = 0;
            for index in 0..source.chain.len() {
                if let Some(place) = source.opener(index) {
                    if shown < MOST_ITEMS {
                        let state = place.state;
                        let number = Numbered(self.lines, place.item.rule);
                        let text = ItemText(self.grammar(), place.item);
                        writeln!(out, "    state {state}  {number}  {text}")?;
                    }
                    shown = shown.saturating_add(1);
                }
            }
            let more = shown.saturating_sub(MOST_ITEMS);
            if more > 0 {
                writeln!(out, "    and {more} items more")?;
            }
        }
        Ok(())
    }
}
