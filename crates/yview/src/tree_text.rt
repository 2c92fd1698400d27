//! Trees as indented text.

use crate::page::Page;
use crate::reading::{MOST_NODES, child_of, name_of, tree_at};
use std::alloc::Global;
use std::io::Write;
use yexplain::lines::Spots;
use yexplain::reads::{Made, grammar_of, left_of};
use yexplain::text::Escaped;
use ylalr::END;
use yparse::{Session, TreeNode, TreeView};
use ysymbols::Grammar;

/// How deep a line is indented at most, in levels.
const DEEPEST: usize = 40;

/// How many lines are written unless all are asked for.
pub const SOME_LINES: usize = 1_000;

/// The most bytes of a word that are shown.
const MOST_OF_WORD: usize = 40;

/// A tree that is still to be written, and its level.
type Open<'a> = (usize, TreeView<'a>);

/// The text that tokens were read from: its bytes, and where each token begins and ends. Without a
/// text there are none.
#[derive(Clone, Copy)]
pub struct Words<'a> {
    /// Its bytes.
    pub bytes: &'a [u8],
    /// How many of them stand before each token.
    pub places: &'a [usize],
    /// How many of them stand before what follows each token.
    pub ends: &'a [usize],
}

/// Writes a token of the file, counted from 1: its name, its word, unless it is a literal, and its
/// place in the text; or its number, where there is no text.
pub fn put_word<W: Write>(
    page: &mut Page<W>,
    name: &str,
    words: Words<'_>,
    spots: &mut Spots<'_>,
    number: usize,
) {
    page.put(name);
    let index = number.wrapping_sub(1);
    let (Some(at), Some(end)) = (words.places.get(index), words.ends.get(index)) else {
        let _ = write!(page, "  @{number}");
        return;
    };
    let word = words.bytes.get(*at..*end).unwrap_or(&[]);
    if !name.starts_with('\'') {
        let shown = Escaped(word.get(..MOST_OF_WORD).unwrap_or(word));
        let dots = if word.len() > MOST_OF_WORD { ".." } else { "" };
        let _ = write!(page, " {shown}{dots}");
    }
    let (line, column) = spots.reach(*at);
    let _ = write!(page, "  @{line}:{column}");
}

/// What stands at the root of a tree: a token with its place, or as one that was inserted;
/// `error`; or a left side with its rule.
fn put_root<W: Write>(
    page: &mut Page<W>,
    grammar: &Grammar,
    (words, spots): (Words<'_>, &mut Spots<'_>),
    node: TreeNode,
) {
    let _ = match node {
        TreeNode::Leaf(token, 0) => write!(page, "{}  (inserted)", name_of(grammar, token)),
        TreeNode::Leaf(token, number) => {
            return put_word(page, name_of(grammar, token), words, spots, number);
        }
        TreeNode::ErrorLeaf => write!(page, "error"),
        TreeNode::Rule(rule) => {
            let left = left_of(grammar, rule).unwrap_or(END);
            write!(page, "{}  rule {rule}", name_of(grammar, left))
        }
    };
}

/// The line of a tree's root, with the number of its level where it is deep; its children are to be
/// written next, the leftmost first.
fn put_line<'a, W: Write>(
    page: &mut Page<W>,
    grammar: &Grammar,
    by: (Words<'_>, &mut Spots<'_>),
    open: &mut Vec<Open<'a>>,
    next: Open<'a>,
) -> Made<()> {
    let (level, tree) = next;
    page.spaces(level.min(DEEPEST).saturating_mul(2));
    if level > DEEPEST {
        let _ = write!(page, "({level}) ");
    }
    put_root(page, grammar, by, tree.node());
    page.end();
    for index in (0..tree.children()).rev() {
        if let Some(child) = child_of(&tree, index) {
            open.push((level.saturating_add(1), child))?;
        }
    }
    Ok(())
}

/// The open trees, at most so many lines.
fn put_open<'a, W: Write>(
    page: &mut Page<W>,
    grammar: &Grammar,
    words: Words<'_>,
    open: &mut Vec<Open<'a>>,
    most: usize,
) -> Made<()> {
    let mut spots = Spots::new(words.bytes);
    for count in 0..MOST_NODES {
        let Some(next) = open.pop() else {
            break;
        };
        if count >= most {
            let _ = writeln!(page, "  .. after {most} lines; tree all writes the rest");
            break;
        }
        put_line(page, grammar, (words, &mut spots), open, next)?;
    }
    Ok(())
}

/// The trees of all entries of the stack, at most so many lines.
pub fn put_trees<W: Write>(
    alloc: Global,
    page: &mut Page<W>,
    session: &Session,
    words: Words<'_>,
    most: usize,
) -> Made<()> {
    let mut open = Vec::new(alloc);
    for index in (0..session.view().stack_len()).rev() {
        if let Some(tree) = tree_at(session, index) {
            open.push((0, tree))?;
        }
    }
    if open.is_empty() {
        page.line("The stack is empty: there is no tree.");
    }
    put_open(page, grammar_of(session.tables()), words, &mut open, most)
}

/// The tree of one entry of the stack, counted from 1 at the bottom.
pub fn put_tree<W: Write>(
    alloc: Global,
    page: &mut Page<W>,
    (session, words): (&Session, Words<'_>),
    entry: usize,
    most: usize,
) -> Made<()> {
    let index = entry.checked_sub(1);
    let Some(tree) = index.and_then(|index| tree_at(session, index)) else {
        let entries = session.view().stack_len();
        let _ = writeln!(page, "There is no such entry: the stack has {entries}.");
        return Ok(());
    };
    let mut open = Vec::new(alloc);
    open.push((0, tree))?;
    put_open(page, grammar_of(session.tables()), words, &mut open, most)
}
