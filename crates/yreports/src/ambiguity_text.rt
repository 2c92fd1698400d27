//! Sentences and trees for the rivals of a conflict, as they are written.

use std::alloc::Global;
use std::io::Write;
use yambiguity::answer::{Answer, Sentence, Twins};
use yambiguity::choice::Choice;
use yambiguity::trees::{Node, Trees};
use yexplain::lines::Lines;
use yexplain::reads::Made;
use yexplain::text::{Name, Names, Numbered};
use ysymbols::{Grammar, Sym};
use yview::page::Page;

/// How far a tree is indented, and how much further the children of a node are.
const INDENT: usize = 4;

const STEP: usize = 2;

/// What stands where the conflict is.
const DOT: &str = ".";

/// The most nodes of a tree that are drawn.
const MOST_NODES: usize = 100;

/// What sentences and trees are written with.
#[derive(Clone, Copy)]
pub struct AmbiguityText<'a> {
    /// The grammar.
    pub grammar: &'a Grammar,
    /// Where rules stand in the file.
    pub lines: &'a Lines,
    /// The trees.
    pub trees: &'a Trees,
}

/// A tree that is being drawn.
#[derive(Clone, Copy, Drop)]
struct Drawn {
    /// How many leaves are drawn.
    leaves: usize,
    /// How many leaves stand before the conflict.
    dot: usize,
    /// The level of the leaves of the line, where one is begun.
    line: Option<usize>,
}

impl Drawn {
    /// Ends the line of leaves, where one is begun.
    fn end_line<W: Write>(self, page: &mut Page<W>) {
        if self.line.is_some() {
            page.end();
        }
    }
}

/// Begins a line of a level.
fn begin<W: Write>(page: &mut Page<W>, level: usize) {
    page.spaces(INDENT.saturating_add(level.saturating_mul(STEP)).min(80));
}

impl AmbiguityText<'_> {
    /// Writes a rival; at the end of its sentence nothing is left to be shifted.
    fn put_choice<W: Write>(&self, page: &mut Page<W>, choice: Choice, sentence: &Sentence) {
        match choice {
            Choice::Shift if sentence.dot >= sentence.tokens.len() => {
                page.put("  by the acceptance:");
            }
            Choice::Shift => page.put("  by the shift:"),
            Choice::Reduce(rule) => {
                page.put("  by ");
                page.show(Numbered(self.lines, rule));
                page.put(":");
            }
        }
    }

    /// Writes the tokens of a sentence with a period where the conflict is, and ends the line.
    fn put_tokens<W: Write>(&self, page: &mut Page<W>, sentence: &Sentence) {
        let (tokens, dot) = (sentence.tokens.as_slice(), sentence.dot);
        let before = Names(self.grammar, tokens.get(..dot).unwrap_or(tokens));
        let after = Names(self.grammar, tokens.get(dot..).unwrap_or(&[]));
        page.show(before);
        page.put(" ");
        page.put(DOT);
        page.show(after);
        page.end();
    }

    /// Writes where the tables refuse a sentence, where they do: what is taken loses it.
    fn put_refused<W: Write>(&self, page: &mut Page<W>, sentence: &Sentence) {
        match sentence.refused {
            Some(place) if place > sentence.tokens.len() => {
                page.line("    The tables refuse it at its end.");
            }
            Some(place) => {
                page.put("    The tables refuse it at token ");
                page.number(place);
                page.line(".");
            }
            None => {}
        }
    }

    /// Writes a leaf, on the line of the leaves beside it.
    fn put_leaf<W: Write>(&self, page: &mut Page<W>, drawn: &mut Drawn, level: usize, symbol: Sym) {
        if drawn.line == Some(level) {
            page.put(" ");
        } else {
            drawn.end_line(page);
            begin(page, level);
        }
        if drawn.leaves == 0 && drawn.dot == 0 {
            page.put(DOT);
            page.put(" ");
        }
        page.show(Name(self.grammar, symbol));
        drawn.leaves = drawn.leaves.saturating_add(1);
        drawn.line = Some(level);
        if drawn.leaves == drawn.dot {
            page.put(" ");
            page.put(DOT);
        }
    }

    /// Writes the root of a tree: its left side and its rule.
    fn put_root<W: Write>(&self, page: &mut Page<W>, drawn: &mut Drawn, level: usize, node: Node) {
        drawn.end_line(page);
        begin(page, level);
        page.show(Name(self.grammar, node.symbol));
        if let Some(rule) = node.rule {
            page.put("  rule ");
            page.number(rule);
        }
        page.end();
        drawn.line = None;
    }

    /// Draws a tree: each rule on a line, its children below it, leaves beside one another.
    fn put_tree<W: Write>(
        &self,
        alloc: Global,
        page: &mut Page<W>,
        tree: usize,
        dot: usize,
    ) -> Made<()> {
        let mut open = Vec::new(alloc);
        open.push((0usize, tree))?;
        let mut drawn = Drawn {
            leaves: 0,
            dot,
            line: None,
        };
        for _ in 0..MOST_NODES {
            let Some((level, tree)) = open.pop() else {
                break;
            };
            let Some(node) = self.trees.node(tree) else {
                break;
            };
            if node.stands {
                self.put_leaf(page, &mut drawn, level, node.symbol);
            } else {
                self.put_root(page, &mut drawn, level, node);
                self.push_children(&mut open, level, tree)?;
            }
        }
        drawn.end_line(page);
        if !open.is_empty() {
            page.line("    ..");
        }
        Ok(())
    }

    /// Puts the children of a tree on those that are to be drawn, the first one last.
    fn push_children(&self, open: &mut Vec<(usize, usize)>, level: usize, tree: usize) -> Made<()> {
        for child in self.trees.children(tree).iter().rev() {
            open.push((level.saturating_add(1), *child))?;
        }
        Ok(())
    }

    /// Writes a sentence with two trees.
    pub fn put_twins<W: Write>(
        &self,
        alloc: Global,
        page: &mut Page<W>,
        twins: &Twins,
    ) -> Made<()> {
        page.put("  The grammar is ambiguous: two trees for ");
        self.put_tokens(page, &twins.sentence);
        self.put_choice(page, twins.sentence.choice, &twins.sentence);
        page.end();
        self.put_tree(alloc, page, twins.trees.0, twins.dot)?;
        self.put_choice(page, twins.second, &twins.sentence);
        page.end();
        self.put_tree(alloc, page, twins.trees.1, twins.dot)
    }

    /// Writes the sentences of rivals for which none is written yet.
    pub fn put_apart<W: Write>(
        &self,
        page: &mut Page<W>,
        answer: &Answer,
        written: &mut Vec<Choice>,
    ) -> Made<()> {
        for sentence in &answer.sentences {
            if !written.contains(&sentence.choice) {
                self.put_choice(page, sentence.choice, sentence);
                page.put(" ");
                self.put_tokens(page, sentence);
                self.put_refused(page, sentence);
                written.push(sentence.choice)?;
            }
        }
        Ok(())
    }
}
