//! A tree as callers see it.

ghost use Rattle.std.specs.Prelude.{◌≡◌, ◌<◌, IsTrue, length};
ghost use Rattle.ymachine.specs.Content.{nodes_fit};

use crate::parts::{Node, StackEntry};
use ysymbols::Sym;

/// What stands at the root of a tree.
#[derive(Clone, Copy, Debug, PartialEq, Eq)]
pub enum TreeNode {
    /// A token, and its place in the input, counted from 1; 0 for one that was inserted.
    Leaf(Sym, usize),
    /// An error that recovery shifted.
    ErrorLeaf,
    /// A rule, by its number; its body is the children.
    Rule(usize),
}

/// A tree of a parse: its root and its children.
#[derive(Clone, Copy)]
pub struct TreeView<'a> {
    nodes: &'a [Node],
    children: &'a [StackEntry],
    number: usize,
    ghost there: { number < length nodes.now },
    ghost fit: { IsTrue (nodes_fit children.now 0 nodes.now) },
}

impl<'a> TreeView<'a> {
    ghost use Rattle.std.specs.Prelude.{map, slice_index_or};
    ghost use Rattle.ymachine.specs.Content.{all_below, node_tree, trees_over};
    ghost use Rattle.ymachine.specs.Tree.{children_of, error_leaf};
    ghost use Rattle.ymachine.specs.View.{tree_by, root_of};

    /// The tree of a node.
    #[tactic(auto, unfolding(crate::specs::View::tree_by))]
    pub(crate) fn new(nodes: &'a [Node], children: &'a [StackEntry], number: usize) -> Self
        requires there { number < length nodes.now }
        requires fit { IsTrue (nodes_fit children.now 0 nodes.now) }
        ensures { tree_by result ≡ slice_index_or (trees_over children.entry.now
            nodes.entry.now) number error_leaf }
    {
        TreeView {
            nodes,
            children,
            number,
        }
    }

    /// The root.
    #[tactic(auto, unfolding(crate::specs::View::tree_by))]
    pub fn node(&self) -> TreeNode
        ensures { result ≡ root_of (tree_by self.now) }
    {
        match self.nodes[self.number] {
            Node::Leaf(token, place) => TreeNode::Leaf(token, place),
            Node::ErrorLeaf => TreeNode::ErrorLeaf,
            Node::Rule(rule, _, _) => TreeNode::Rule(rule),
        }
    }

    /// The children of the root, by their entries.
    #[tactic(auto, unfolding(crate::specs::View::tree_by))]
    fn entries(&self) -> &'a [StackEntry]
        ensures trees { map (node_tree (trees_over self.now.children.now self.now.nodes.now))
            result.now ≡ children_of (tree_by self.now) }
        ensures below { IsTrue (all_below self.now.number result.now) }
    {
        match self.nodes[self.number] {
            Node::Rule(_, from, count) => &self.children[from..from + count],
            Node::Leaf(_, _) => &[],
            Node::ErrorLeaf => &[],
        }
    }

    /// How many children the root has.
    #[tactic(auto, unfolding(crate::specs::View::tree_by))]
    pub fn children(&self) -> usize
        ensures { result ≡ length (children_of (tree_by self.now)) }
    {
        self.entries().len()
    }

    /// The tree of a child, counted from 0 on the left.
    #[tactic(auto, unfolding(crate::specs::View::tree_by))]
    pub fn child(&self, index: usize) -> TreeView<'a>
        requires { index < length (children_of (tree_by self.now)) }
        ensures { tree_by result
            ≡ slice_index_or (children_of (tree_by self.now)) index error_leaf }
    {
        let number = self.entries()[index].node;
        TreeView::new(self.nodes, self.children, number)
    }
}
