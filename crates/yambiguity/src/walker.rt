//! A check that rests on nothing but rules: whether a tree derives a sentence, with a rival of a
//! conflict at its place.

use crate::choice::Choice;
use crate::trees::{MOST_NODES, Node, Trees};
use std::alloc::Global;
use yexplain::reads::{Made, body_of, left_of};
use ylalr::END;
use ysymbols::{Grammar, Sym, let_go};

/// What a tree is to be: one of the start symbol, with these tokens, in which the rival stands
/// after so many of them, with a way before it: the symbols that a parse has on its stack there.
#[derive(Clone, Copy)]
pub struct Claim<'a> {
    /// The sentence.
    pub tokens: &'a [Sym],
    /// How many of its tokens stand before the conflict.
    pub dot: usize,
    /// The token of the conflict.
    pub token: Sym,
    /// The symbols on the stack.
    pub way: &'a [Sym],
    /// The rival.
    pub choice: Choice,
}

/// What is still to be done.
#[derive(Clone, Copy, Drop)]
enum Visit {
    /// A tree is gone over.
    Open(usize),
    /// A tree was gone over: its symbol stands for its children.
    Close(Node, usize),
}

/// A walk over a tree, from left to right.
struct Walk {
    open: Vec<Visit>,
    /// The symbols of the whole trees to the left.
    before: Vec<Sym>,
    /// The tokens to the left.
    tokens: Vec<Sym>,
    /// Whether the rival was met.
    is_met: bool,
}

impl Drop for Walk {
    // A call in each owner, which keeps their proofs short.
    fn drop(self) {
        let_go!(self: Walk { open, before, tokens, is_met });
    }
}

impl Walk {
    /// Goes over a tree of a rule, whose children come next, and says whether it is one.
    fn enter_rule(
        &mut self,
        grammar: &Grammar,
        trees: &Trees,
        (tree, node): (usize, Node),
        rule: usize,
    ) -> Made<bool> {
        let (children, body) = (trees.children(tree), body_of(grammar, rule));
        self.open.push(Visit::Close(node, self.before.len()))?;
        for child in children.iter().rev() {
            self.open.push(Visit::Open(*child))?;
        }
        for (place, child) in children.iter().enumerate() {
            let Some(symbol) = body.get(place).copied() else {
                return Ok(false);
            };
            match trees.node(*child) {
                Some(node) if node.symbol == symbol => {}
                _ => return Ok(false),
            }
        }
        Ok(left_of(grammar, rule) == Some(node.symbol) && body.len() == children.len())
    }

    /// Goes over all, and says whether each tree is one of its rule. After its children the symbol
    /// of a tree comes in place of these.
    fn go(&mut self, grammar: &Grammar, trees: &Trees, claim: Claim<'_>) -> Made<bool> {
        for _ in 0..MOST_NODES {
            // whether the walk stands at the place of the conflict
            let is_there = self.tokens.len() == claim.dot && self.before.as_slice() == claim.way;
            let tree = match self.open.pop() {
                None => return Ok(true),
                Some(Visit::Close(node, before)) => {
                    let rule = claim.choice.rule();
                    let is_rule = rule.is_some() && rule == node.rule;
                    self.is_met = self.is_met || (is_rule && is_there);
                    self.before.truncate(before);
                    self.before.push(node.symbol)?;
                    continue;
                }
                Some(Visit::Open(tree)) => tree,
            };
            let Some(node) = trees.node(tree) else {
                break;
            };
            let is_right = match node.rule {
                Some(rule) => self.enter_rule(grammar, trees, (tree, node), rule)?,
                None => {
                    let is_shift = claim.choice == Choice::Shift && node.symbol == claim.token;
                    self.is_met = self.is_met || (is_shift && is_there);
                    self.before.push(node.symbol)?;
                    self.tokens.push(node.symbol)?;
                    grammar.is_token(node.symbol)
                }
            };
            if !is_right {
                break;
            }
        }
        Ok(false)
    }
}

/// Whether a tree is what is claimed.
pub fn is_derivation(
    alloc: Global,
    grammar: &Grammar,
    trees: &Trees,
    tree: usize,
    claim: Claim<'_>,
) -> Made<bool> {
    let mut walk = Walk {
        open: Vec::new(alloc),
        before: Vec::new(alloc),
        tokens: Vec::new(alloc),
        is_met: false,
    };
    walk.open.push(Visit::Open(tree))?;
    let is_whole = walk.go(grammar, trees, claim)?;
    let start = body_of(grammar, 0).get(..1).unwrap_or(&[]);
    // where the end is the token, the input is accepted: nothing is shifted
    let is_last = claim.choice == Choice::Shift && claim.token == END;
    let is_accepted = is_last && claim.way == start;
    // the token of the conflict comes after those before it
    let has_token = match claim.tokens.get(claim.dot) {
        Some(token) => *token == claim.token,
        None => claim.token == END && claim.tokens.len() == claim.dot,
    };
    Ok(
        is_whole
            && (walk.is_met || is_accepted)
            && has_token
            && walk.before.as_slice() == start
            && walk.tokens.as_slice() == claim.tokens,
    )
}
