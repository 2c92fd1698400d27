//! The automaton as a graph in DOT, laid out as bison or byacc writes it.

use crate::layout::Layout;
use yexplain::reads::{
    Made, action_of, body_of, goto_of, grammar_of, is_complete, is_kernel, items_of, left_of,
    looks_at,
};
use yfiles::output::Output;
use ylalr::{ERROR, Item, token_count};
use ysymbols::Sym;
use ytables::Action;

/// What stands before the states.
const HEAD: &str = "\"\n{
  node [fontname = courier, shape = box, colorscheme = paired6]
  edge [fontname = courier]

";

/// What stands before the states for byacc.
const OLD_HEAD: &str = " {
\tedge [fontsize=10];
\tnode [shape=box,fontsize=10];
\torientation=landscape;
\trankdir=LR;
\t/*
\tmargin=0.2;
\tpage=\"8.27,11.69\"; // for A4 printing
\tratio=auto;
\t*/
";

/// Writes bytes within quotes.
fn put_quoted(out: &mut Output, bytes: &[u8]) {
    for byte in bytes {
        if matches!(*byte, b'"' | b'\\') {
            out.put("\\");
        }
        out.put_bytes(&[*byte]);
    }
}

impl Layout<'_> {
    /// Writes what a symbol is called.
    fn put_name(&self, out: &mut Output, symbol: Sym) {
        put_quoted(out, self.manner.name(symbol));
    }

    /// Writes the body of an item with a dot.
    fn put_body(&self, out: &mut Output, item: Item, dot: &str) {
        let body = body_of(grammar_of(self.tables), item.rule);
        for symbol in body.get(..item.dot).unwrap_or(body) {
            self.put_name(out, *symbol);
            out.put(" ");
        }
        out.put(dot);
        for symbol in body.get(item.dot..).unwrap_or(&[]) {
            out.put(" ");
            self.put_name(out, *symbol);
        }
    }

    /// Writes an item, whose left side may be that of the rule before.
    fn put_item(&self, out: &mut Output, item: Item, before: Option<usize>) {
        let rule = self.rule(item.rule);
        if rule < 100 {
            out.put(if rule < 10 { "  " } else { " " });
        }
        out.number(rule);
        out.put(" ");
        match self.new_left(item.rule, before) {
            Some(left) => {
                self.put_name(out, left);
                out.put(": ");
            }
            None => {
                let left = left_of(self.grammar, item.rule).unwrap_or(0);
                out.spaces(self.manner.width(left));
                out.put("| ");
            }
        }
        self.put_body(out, item, "•");
        out.put("\\l");
    }

    /// Writes the kernel of a state.
    fn put_kernel(&self, out: &mut Output, state: usize) {
        let mut before = None;
        for item in items_of(self.tables.automaton(), state) {
            if is_kernel(*item) {
                self.put_item(out, *item, before);
                before = Some(item.rule);
            }
        }
        out.put("\"]\n");
    }

    /// Writes where symbols lead from a state: shifts, gotos, and `error`.
    fn put_ways(&self, out: &mut Output, state: usize) {
        for symbol in &self.numbering.order {
            let symbol = *symbol;
            let Some(next) = self.way(state, symbol) else {
                continue;
            };
            out.put("  ");
            out.number(self.number(state));
            out.put(" -> ");
            out.number(self.number(next));
            if symbol == ERROR {
                out.put(" [style=dotted]\n");
                continue;
            }
            let is_shift = self.grammar.is_token(symbol);
            out.put(" [style=");
            out.put(if is_shift { "solid" } else { "dashed" });
            out.put(" label=\"");
            self.put_name(out, symbol);
            out.put("\"]\n");
        }
    }

    /// Writes the tokens at which a rule is left in a state: those that other actions own, or the
    /// rest; and says whether there are any.
    fn put_tokens(
        &self,
        out: &mut Output,
        (state, rule): (usize, usize),
        owned: &[bool],
        is_lost: bool,
    ) -> bool {
        let mut any = false;
        for token in self.tokens {
            let is_meant = owned.get(*token) == Some(&is_lost);
            if is_meant && self.is_left(state, *token, rule) {
                out.put(if any { ", " } else { "" });
                self.put_name(out, *token);
                any = true;
            }
        }
        any
    }

    /// Writes the reductions of a state, each apart at tokens at which it loses a conflict.
    fn put_reductions(&self, out: &mut Output, state: usize) -> Made<()> {
        let mut owned = Vec::new(self.alloc);
        for token in 0..token_count(self.grammar) {
            let is_free = matches!(action_of(self.tables, state, token), Action::Reduce(_));
            owned.push(!is_free)?;
        }
        let (default, number) = (self.default_rule(state), self.number(state));
        for item in &self.ready(state)? {
            let (rule, named) = (item.rule, self.rule(item.rule));
            let (mut lost, mut taken) = (Output::new(self.alloc), Output::new(self.alloc));
            if self.put_tokens(&mut lost, (state, rule), &owned, true) {
                put_reduction(out, (number, named), Some(&lost), "d", "5");
            }
            let is_taken = self.put_tokens(&mut taken, (state, rule), &owned, false);
            if default == Some(rule) {
                put_reduction(out, (number, named), None, "", "3");
            } else if is_taken {
                put_reduction(out, (number, named), Some(&taken), "", "3");
            }
            for (token, it) in owned.iter_mut().enumerate() {
                *it = *it || self.is_left(state, token, rule);
            }
        }
        Ok(())
    }

    /// Writes a state as byacc does, with all its items.
    fn put_old_state(&self, out: &mut Output, state: usize) {
        let grammar = grammar_of(self.tables);
        let automaton = self.tables.automaton();
        out.put("\n\tq");
        out.number(state);
        out.put(" [label=\"");
        out.number(state);
        out.put(":\\l");
        for item in items_of(automaton, state) {
            out.put("  ");
            if let Some(left) = left_of(grammar, item.rule) {
                self.put_name(out, left);
            }
            out.put(" -> ");
            self.put_body(out, *item, ".");
            if item.rule > 0 && is_complete(grammar, *item) {
                out.put(" { ");
                for token in (0..token_count(grammar)).rev() {
                    if looks_at(automaton, state, *item, token) {
                        self.put_name(out, token);
                        out.put(" ");
                    }
                }
                out.put("}");
            }
            out.put("\\l");
        }
        out.put("\"];");
    }

    /// The graph as byacc writes it, by this name.
    pub fn old_graph(&self, name: &str) -> Made<Vec<u8>> {
        let (automaton, mut out) = (self.tables.automaton(), Output::new(self.alloc));
        out.put("digraph ");
        out.put(name);
        out.put(OLD_HEAD);
        for state in 0..automaton.states() {
            self.put_old_state(&mut out, state);
        }
        out.put("\n\n");
        for state in 0..automaton.states() {
            for symbol in 0..grammar_of(self.tables).symbols() {
                if let Some(next) = goto_of(automaton, state, symbol) {
                    out.put("\tq");
                    out.number(state);
                    out.put(" -> q");
                    out.number(next);
                    out.put(" [label=\"");
                    self.put_name(&mut out, symbol);
                    out.put("\"];\n");
                }
            }
        }
        out.put("}\n");
        out.into_bytes()
    }

    /// The graph of a grammar file of this path.
    pub fn graph(&self, path: &str) -> Made<Vec<u8>> {
        let mut out = Output::new(self.alloc);
        out.put("// Generated by ycc.\n\ndigraph \"");
        put_quoted(&mut out, path.as_bytes());
        out.put(HEAD);
        for (number, state) in &self.drawn()? {
            put_head(&mut out, *number);
            if *state == self.code.states {
                let dot = body_of(self.grammar, 0).len();
                self.put_item(&mut out, Item { rule: 0, dot }, None);
                out.put("\"]\n");
                put_reduction(&mut out, (*number, 0), None, "", "1");
            } else {
                self.put_kernel(&mut out, *state);
                self.put_ways(&mut out, *state);
                self.put_reductions(&mut out, *state)?;
            }
        }
        out.put("}\n");
        out.into_bytes()
    }
}

/// Writes the head of a state.
fn put_head(out: &mut Output, state: usize) {
    out.put("  ");
    out.number(state);
    out.put(" [label=\"State ");
    out.number(state);
    out.put("\\n\\l");
}

/// Writes the reduction of a state by a rule, at these tokens or by default, and its own node.
fn put_reduction(
    out: &mut Output,
    (state, rule): (usize, usize),
    tokens: Option<&Output>,
    end: &str,
    color: &str,
) {
    for is_node in [false, true] {
        if is_node {
            out.put(" \"");
        } else {
            out.put("  ");
            out.number(state);
            out.put(" -> \"");
        }
        out.number(state);
        out.put("R");
        out.number(rule);
        out.put(end);
        out.put("\" [");
        if let (Some(tokens), false) = (tokens, is_node) {
            out.put("label=\"[");
            out.put_output(tokens);
            out.put("]\", ");
        }
        if !is_node {
            out.put("style=solid]\n");
        }
    }
    out.put("label=\"");
    if rule == 0 {
        out.put("Acc");
    } else {
        out.put("R");
        out.number(rule);
    }
    out.put("\", fillcolor=");
    out.put(color);
    out.put(", shape=diamond, style=filled]\n");
}
