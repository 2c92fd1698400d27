//! What deserves a warning in a grammar without a fault.

use crate::unused::Done;
use std::alloc::Global;
use std::io;
use yexplain::lines::{Lines, Mention, Spot};
use yexplain::reads::{Made, grammar_of, is_reachable, is_set, left_of, level_of, set};
use yexplain::text::{Name, RuleText};
use yfiles::category::Category;
use yfiles::diagnostic::{Diagnostic, Diagnostics, Severity};
use yfiles::output::Output;
use ylalr::ERROR;
use ysymbols::{Grammar, Sym, let_go};
use ysyntax::Role;
use ytables::Tables;

/// How symbols are named in a file.
struct Named {
    /// Where each symbol is named first.
    first: Vec<Option<Spot>>,
    /// Where each stands in a line of precedence.
    levelled: Vec<Option<Spot>>,
    /// Which are named in a rule, and which in a body.
    used: Vec<bool>,
    in_body: Vec<bool>,
}

impl Drop for Named {
    // A call in each owner, which keeps their proofs short.
    fn drop(self) {
        let_go!(self: Named { first, levelled, used, in_body });
    }
}

/// What seeks warnings.
#[derive(Drop)]
struct Warner<'a> {
    alloc: Global,
    path: &'a str,
    grammar: &'a Grammar,
    lines: &'a Lines,
    found: Diagnostics,
}

impl Named {
    fn new(alloc: Global, grammar: &Grammar, mentions: &[Mention]) -> Made<Named> {
        let mut named = Named {
            first: vec![in alloc; None; grammar.symbols()]?,
            levelled: vec![in alloc; None; grammar.symbols()]?,
            used: vec![in alloc; false; grammar.symbols()]?,
            in_body: vec![in alloc; false; grammar.symbols()]?,
        };
        for mention in mentions {
            named.take(*mention);
        }
        Ok(named)
    }

    fn take(&mut self, mention: Mention) {
        note(&mut self.first, mention);
        match mention.role {
            Role::Levelled => note(&mut self.levelled, mention),
            Role::Symbol(_) => {
                set(&mut self.in_body, mention.symbol, true);
                set(&mut self.used, mention.symbol, true);
            }
            Role::PrecName(_) => set(&mut self.used, mention.symbol, true),
            _ => {}
        }
    }

    fn is_used(&self, symbol: Sym) -> bool {
        is_set(&self.used, symbol)
    }

    fn spot(&self, symbol: Sym) -> Option<Spot> {
        self.first.get(symbol).copied().flatten()
    }
}

/// Notes where a symbol is named, unless a place was noted before.
fn note(spots: &mut [Option<Spot>], mention: Mention) {
    if let Some(spot) = spots.get_mut(mention.symbol) {
        *spot = spot.or(Some(mention.spot));
    }
}

impl Warner<'_> {
    /// Adds a warning of a category.
    fn add(&mut self, spot: Option<Spot>, category: Category, message: Output) -> io::Result<()> {
        let mut one = Diagnostic::new(self.alloc, Some(self.path), spot)?;
        one.severity = Severity::Warning;
        one.category = Some(category);
        one.message = message.into_bytes()?;
        Ok(self.found.add(one)?)
    }

    /// Adds a warning of a category about a symbol between two texts.
    fn warn(
        &mut self,
        spot: Option<Spot>,
        category: Category,
        (before, symbol, after): (&str, Sym, &str),
    ) -> io::Result<()> {
        let mut message = Output::new(self.alloc);
        message.put(before);
        message.show(Name(self.grammar, symbol));
        message.put(after);
        self.add(spot, category, message)
    }

    /// Rules of symbols that can be reached, which are never reduced.
    fn add_lost(&mut self, done: &Done) -> io::Result<()> {
        for rule in 1..self.grammar.rules() {
            let is_done = done.reduced.get(rule).copied().unwrap_or(true);
            if !is_done && self.is_live(rule) {
                let mut message = Output::new(self.alloc);
                message.put("rule ");
                message.number(rule);
                message.put(" is useless in the parser due to conflicts:  ");
                message.show(RuleText(self.grammar, rule));
                self.add(self.lines.spot(rule), Category::Other, message)?;
            }
        }
        Ok(())
    }

    /// Whether the left side of a rule can be reached.
    fn is_live(&self, rule: usize) -> bool {
        left_of(self.grammar, rule).map_or(false, |left| is_reachable(self.grammar, left))
    }

    /// Precedences of tokens that are used, but settled no cell.
    fn add_idle_tokens(&mut self, done: &Done, named: &Named) -> io::Result<()> {
        for token in 0..self.grammar.symbols() {
            let settles = done.by_token.get(token).copied().unwrap_or(true);
            let is_meant = named.is_used(token) && level_of(self.grammar, token).is_some();
            if is_meant && !settles {
                let spot = named.levelled.get(token).copied().flatten();
                let words = ("useless precedence for ", token, "");
                self.warn(spot, Category::Precedence, words)?;
            }
        }
        Ok(())
    }

    /// Precedences by `%prec` that settled no cell.
    fn add_idle_rules(&mut self, done: &Done) -> io::Result<()> {
        for rule in 1..self.grammar.rules() {
            let settles = done.by_rule.get(rule).copied().unwrap_or(true);
            if !settles && self.lines.prec(rule).is_some() && self.is_live(rule) {
                let (front, rest) = if done.all_tried {
                    ("useless %prec in rule ", "")
                } else {
                    ("%prec in rule ", " may be useless")
                };
                let mut message = Output::new(self.alloc);
                message.put(front);
                message.number(rule);
                message.put(rest);
                self.add(self.lines.spot(rule), Category::Precedence, message)?;
            }
        }
        Ok(())
    }

    /// Tokens that are declared and named in no rule.
    fn add_unused(&mut self, named: &Named) -> io::Result<()> {
        for token in 0..self.grammar.symbols() {
            let is_token = self.grammar.is_token(token) && token > ERROR;
            if is_token && !named.is_used(token) {
                let spot = named.spot(token);
                let words = ("token ", token, " is declared but never used");
                self.warn(spot, Category::Other, words)?;
            }
        }
        Ok(())
    }

    /// Symbols that are used, but can't be reached.
    fn add_unreachable(&mut self, named: &Named) -> io::Result<()> {
        for symbol in 0..self.grammar.symbols() {
            let is_left = !self.grammar.is_token(symbol);
            let is_in_rules = is_left || is_set(&named.in_body, symbol);
            let spot = named.spot(symbol);
            let is_meant = is_in_rules && spot.is_some();
            if is_meant && symbol != ERROR && !is_reachable(self.grammar, symbol) {
                let front = if is_left {
                    "useless nonterminal "
                } else {
                    "useless token "
                };
                let words = (front, symbol, ": it can't be reached from the start symbol");
                self.warn(spot, Category::Other, words)?;
            }
        }
        Ok(())
    }
}

/// What deserves a warning in a grammar, of the file of this path.
pub fn warnings_of(
    alloc: Global,
    path: &str,
    tables: &Tables,
    lines: &Lines,
) -> io::Result<Diagnostics> {
    let grammar = grammar_of(tables);
    let mut done = Done::new(alloc, tables, lines)?;
    done.spread(grammar, lines);
    let named = Named::new(alloc, grammar, lines.mentions.as_slice())?;
    let mut warner = Warner {
        alloc,
        path,
        grammar,
        lines,
        found: Diagnostics::new(alloc),
    };
    warner.add_lost(&done)?;
    warner.add_idle_tokens(&done, &named)?;
    warner.add_idle_rules(&done)?;
    warner.add_unused(&named)?;
    warner.add_unreachable(&named)?;
    let Warner { found, .. } = warner;
    Ok(found)
}
