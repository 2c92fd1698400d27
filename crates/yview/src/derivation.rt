//! The rightmost derivation that a parse has made up to here, read off its trees.

use crate::page::Page;
use crate::reading::{MOST_NODES, child_of, name_of, tree_at, upcoming_token};
use std::alloc::Global;
use std::io::Write;
use yexplain::reads::{Made, grammar_of, left_of};
use ylalr::{END, ERROR};
use yparse::{Session, TreeNode, TreeView};
use ysymbols::{Grammar, Sym, let_go};

/// What is written for a form without a symbol.
const EMPTY: &str = " (empty)";

/// How many forms are written unless all are asked for.
pub const SOME_FORMS: usize = 100;

/// A form of the derivation: trees, of which the last may be replaced by its children, and then
/// tokens, the last one first.
struct Form<'a> {
    grammar: &'a Grammar,
    trees: Vec<TreeView<'a>>,
    tokens: Vec<Sym>,
}

impl Drop for Form<'_> {
    // A call in each owner, which keeps their proofs short.
    fn drop(self) {
        let_go!(self: Form { grammar, trees, tokens });
    }
}

/// The symbol at the root of a tree.
fn symbol_of(grammar: &Grammar, node: TreeNode) -> Sym {
    match node {
        TreeNode::Leaf(token, _) => token,
        TreeNode::ErrorLeaf => ERROR,
        TreeNode::Rule(rule) => left_of(grammar, rule).unwrap_or(END),
    }
}

impl<'a> Form<'a> {
    /// The form of the configuration now.
    fn now(alloc: Global, session: &'a Session) -> Made<Form<'a>> {
        let view = session.view();
        Ok(Form {
            grammar: grammar_of(session.tables()),
            trees: (0..view.stack_len())
                .filter_map(|index| tree_at(session, index))
                .collect(alloc)?,
            tokens: (0..view.rest_len())
                .rev()
                .map(|index| upcoming_token(session, index).0)
                .collect(alloc)?,
        })
    }

    /// The children of a tree come in its place.
    fn open(&mut self, tree: &TreeView<'a>) -> Made<()> {
        for index in 0..tree.children() {
            if let Some(child) = child_of(tree, index) {
                self.trees.push(child)?;
            }
        }
        Ok(())
    }

    /// How many bytes it takes.
    fn width(&self) -> u64 {
        let mut width: u64 = 0;
        for tree in &self.trees {
            let symbol = symbol_of(self.grammar, tree.node());
            width = width.saturating_add(width_of(self.grammar, symbol));
        }
        for token in &self.tokens {
            width = width.saturating_add(width_of(self.grammar, *token));
        }
        width
    }

    /// Writes the form.
    fn put<W: Write>(&self, page: &mut Page<W>) {
        let grammar = self.grammar;
        if self.trees.is_empty() && self.tokens.is_empty() {
            page.line(EMPTY);
            return;
        }
        for tree in &self.trees {
            page.put(" ");
            page.put(name_of(grammar, symbol_of(grammar, tree.node())));
        }
        for token in self.tokens.iter().rev() {
            page.put(" ");
            page.put(name_of(grammar, *token));
        }
        page.end();
    }
}

/// How many bytes a symbol takes in a form.
fn width_of(grammar: &Grammar, symbol: Sym) -> u64 {
    (name_of(grammar, symbol).len() as u64).saturating_add(1)
}

/// How many bytes a line takes for a form of so many.
fn line_of(width: u64) -> u64 {
    match width {
        0 => EMPTY.len() as u64 + 1,
        _ => width.saturating_add(1),
    }
}

/// How many bytes all forms take.
pub fn size_of_derivation(alloc: Global, session: &Session) -> Made<u64> {
    let mut form = Form::now(alloc, session)?;
    let grammar = form.grammar;
    let mut width = form.width();
    let mut size = line_of(width);
    for _ in 0..=MOST_NODES {
        let Some(tree) = form.trees.pop() else {
            break;
        };
        if let TreeNode::Rule(_) = tree.node() {
            width = width.saturating_sub(width_of(grammar, symbol_of(grammar, tree.node())));
            for index in 0..tree.children() {
                if let Some(child) = child_of(&tree, index) {
                    let symbol = symbol_of(grammar, child.node());
                    width = width.saturating_add(width_of(grammar, symbol));
                }
            }
            size = size.saturating_add(line_of(width));
            form.open(&tree)?;
        }
    }
    Ok(size)
}

/// The forms from the one now to the tokens, at most so many, up to a fault of the page. The last
/// tree is taken: a rule is replaced by its body, which makes another form, and anything else moves
/// to the tokens.
pub fn put_derivation<W: Write>(
    alloc: Global,
    page: &mut Page<W>,
    session: &Session,
    most: usize,
) -> Made<()> {
    let mut form = Form::now(alloc, session)?;
    form.put(page);
    let mut written = 1usize;
    for _ in 0..=MOST_NODES {
        if page.checked().is_err() {
            break;
        }
        let Some(tree) = form.trees.pop() else {
            break;
        };
        let TreeNode::Rule(_) = tree.node() else {
            let symbol = symbol_of(form.grammar, tree.node());
            form.tokens.push(symbol)?;
            continue;
        };
        form.open(&tree)?;
        if written >= most {
            page.line("  ..  (derivation all writes every form)");
            break;
        }
        form.put(page);
        written = written.saturating_add(1);
    }
    Ok(())
}
