//! Trees as text, written by a walk that takes no memory.

ghost use Rattle.std.specs.Prelude.{◌≡◌, ◌<◌, ◌≤◌, ◌++◌, IsTrue, IfSome, is_some, length};
ghost use Rattle.std.specs.Prelude.{slice_index_or, codes, vec_len, vec_capacity, map};
ghost use Rattle.ylink.specs.Sends.{Sends};
ghost use Rattle.ymachine.specs.Content.{node_fits, nodes_fit, all_below, trees_over, entry_view};
ghost use Rattle.ymachine.specs.MachineOver.{machine_over};
ghost use Rattle.ymachine.specs.Tree.{error_leaf};
ghost use Rattle.ymachine.specs.Unwinding.{tree_text, tree_lines};
ghost use Rattle.ymachine.specs.Walk.{head_text, frames_of, open_text, frames_fit};

use crate::parts::{Frame, Node, StackEntry};
use crate::tables::{grammar_of, name_of};
use std::io::Write;
use ylink::pieces::Piece::{Number, Words};
use ylink::pieces::put_pieces;
use ylink::put::put;
use ytables::{Link, Tables};

/// Writes the beginning of a node, and opens it where it has children.
#[tactic(auto, unfolding(crate::specs::MachineOver::machine_over))]
fn open_node<W: Write>(
    link: &mut Link<W>,
    tables: &Tables,
    children: &[StackEntry],
    number: usize,
    node: Node,
    walk: &mut Vec<Frame>,
) -> Option<()>
    requires room { vec_len walk.old < vec_capacity walk.old }
    requires fits { IsTrue (node_fits children.now number node) }
    ensures text { Sends W.contents link.old link.new (is_some result)
        (head_text (machine_over tables.now) node) }
    ensures walk { IfSome result (λ _. walk.new.items ≡ walk.old.items ++ frames_of node) }
    ensures capacity { vec_capacity walk.old ≤ vec_capacity walk.new }
{
    match node {
        Node::Leaf(token, place) => {
            let name = Words(name_of(grammar_of(tables), token));
            put_pieces(link, &[name, Words(b"@"), Number(place)])
        }
        Node::ErrorLeaf => put(link, b"error"),
        Node::Rule(rule, from, count) => {
            let end = from + count;
            put_pieces(link, &[Words(b"("), Number(rule)])?;
            walk.push(Frame { next: from, end }).unwrap();
            Some(())
        }
    }
}

/// Writes what is still to be written of the open nodes.
fn write_open<W: Write>(
    link: &mut Link<W>,
    tables: &Tables,
    nodes: &[Node],
    children: &[StackEntry],
    root: usize,
    walk: &mut Vec<Frame>,
) -> Option<()>
    requires fit { IsTrue (nodes_fit children.now 0 nodes.now) }
    requires root { root < length nodes.now }
    requires frames { IsTrue (frames_fit children.now root walk.old.items) }
    requires room { length nodes.now ≤ vec_capacity walk.old }
    ensures text { Sends W.contents link.old link.new (is_some result) (open_text
        (machine_over tables.now) children.now (trees_over children.now nodes.now)
        walk.old.items) }
    ensures capacity { vec_capacity walk.old ≤ vec_capacity walk.new }
{
    while let Some(frame) = walk.pop() {
        if frame.next == frame.end {
            put(link, b")")?;
            continue;
        }
        let child = children[frame.next].node;
        let after = Frame {
            next: frame.next + 1,
            end: frame.end,
        };
        walk.push(after).unwrap();
        put(link, b" ")?;
        open_node(link, tables, children, child, nodes[child], walk)?;
    }
    Some(())
}

/// Writes the tree of a node, and a newline.
fn write_tree<W: Write>(
    link: &mut Link<W>,
    tables: &Tables,
    nodes: &[Node],
    children: &[StackEntry],
    root: usize,
    walk: &mut Vec<Frame>,
) -> Option<()>
    requires fit { IsTrue (nodes_fit children.now 0 nodes.now) }
    requires root { root < length nodes.now }
    requires room { length nodes.now ≤ vec_capacity walk.old }
    ensures text { Sends W.contents link.old link.new (is_some result)
        (tree_text (machine_over tables.now) (slice_index_or (trees_over children.now nodes.now)
        root error_leaf) ++ codes "\n") }
    ensures capacity { vec_capacity walk.old ≤ vec_capacity walk.new }
{
    walk.clear();
    open_node(link, tables, children, root, nodes[root], walk)?;
    write_open(link, tables, nodes, children, root, walk)?;
    put(link, b"\n")
}

/// Writes a line for each entry of the stack, from the bottom: its tree. `None` where the link
/// failed.
pub(crate) fn write_lines<W: Write>(
    link: &mut Link<W>,
    tables: &Tables,
    stack: &[StackEntry],
    nodes: &[Node],
    children: &[StackEntry],
    walk: &mut Vec<Frame>,
) -> Option<()>
    requires fit { IsTrue (nodes_fit children.now 0 nodes.now) }
    requires below { IsTrue (all_below (length nodes.now) stack.now) }
    requires room { length nodes.now ≤ vec_capacity walk.old }
    ensures text { Sends W.contents link.old link.new (is_some result)
        (tree_lines (machine_over tables.now)
        (map (entry_view (trees_over children.now nodes.now)) stack.now)) }
    ensures capacity { vec_capacity walk.old ≤ vec_capacity walk.new }
{
    for entry in stack {
        write_tree(link, tables, nodes, children, entry.node, walk)?;
    }
    Some(())
}
