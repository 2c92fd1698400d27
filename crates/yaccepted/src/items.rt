//! Items as texts in which no number stands: `stmt: IF expr stmt . ELSE stmt`. An inner action is
//! `{}`, and its rule the item before it.

use std::alloc::Global;
use std::io::{self, Write};
use yexplain::lines::is_inner;
use yexplain::reads::{Made, body_of, left_of, name_of, set};
use yexplain::text::Name;
use ysymbols::{Grammar, Sym};

/// A place in a body: the rule, and how many symbols stand before it.
pub type Dotted = (usize, usize);

/// Where each symbol that stands for an inner action is used.
#[derive(Drop)]
pub struct Hosts(Vec<Option<Dotted>>);

/// Whether a symbol stands for an inner action.
fn is_action(grammar: &Grammar, symbol: Sym) -> bool {
    name_of(grammar, symbol).starts_with(b"$$")
}

impl Hosts {
    /// Those of a grammar.
    pub fn new(alloc: Global, grammar: &Grammar) -> Made<Hosts> {
        let mut hosts = Hosts(vec![in alloc; None; grammar.symbols()]?);
        for rule in 0..grammar.rules() {
            for (dot, symbol) in body_of(grammar, rule).iter().enumerate() {
                if is_action(grammar, *symbol) {
                    set(&mut hosts.0, *symbol, Some((rule, dot)));
                }
            }
        }
        Ok(hosts)
    }

    /// An item as a text: that before the action, for the rule of an inner action.
    pub fn text(&self, alloc: Global, grammar: &Grammar, item: Dotted) -> io::Result<Vec<u8>> {
        let mut out = Vec::new(alloc);
        let left = left_of(grammar, item.0);
        let (rule, dot) = match left.and_then(|left| self.0.get(left).copied().flatten()) {
            Some(host) if is_inner(grammar, item.0) => host,
            _ => item,
        };
        let left = Name(grammar, left_of(grammar, rule).unwrap_or(0));
        let body = body_of(grammar, rule);
        write!(out, "{left}:")?;
        for (place, symbol) in body.iter().enumerate() {
            let front = if place == dot { " . " } else { " " };
            if is_action(grammar, *symbol) {
                write!(out, "{front}{}", "{}")?;
            } else {
                write!(out, "{front}{}", Name(grammar, *symbol))?;
            }
        }
        if dot >= body.len() {
            write!(out, " .")?;
        }
        Ok(out)
    }
}
