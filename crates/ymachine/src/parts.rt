//! What a parse in place holds, as flat lists, and the steps on them, forward and backward.

ghost use Rattle.std.specs.Prelude.{◌≡◌, ◌<◌, ◌≤◌, ◌+◌, ◌-◌, ◌^◌, length, drop, OnOk, vec_len};
ghost use Rattle.std.specs.Prelude.{vec_capacity};
ghost use Rattle.ymachine.specs.Content.{state_from, lead, with_entry, with_parent, without_parent};
ghost use Rattle.ymachine.specs.Content.{with_error, content_after, one_step};
ghost use Rattle.ymachine.specs.Content.{first_content};
ghost use Rattle.ymachine.specs.Content.{content_before, one_back, change_at};
ghost use Rattle.ymachine.specs.Content.{taken_by};
ghost use Rattle.ymachine.specs.declared.machine.StepKind.TheVariants as kinds;
ghost use Rattle.ymachine.specs.Parts.{content_of, HasRoom, HasRoomFor, KeepsRoom};

use crate::machine::{Mode, StepKind};
use crate::rest::{self, Remaining};
use crate::tables::{goto, rule_of};
use std::alloc::{AllocError, Global};
use ylalr::ERROR;
use ysymbols::{Sym, let_go};
use ytables::Tables;

/// A symbol of the stack, the state to which the stack up to it leads, and its node.
#[derive(Clone, Copy, Drop)]
pub struct StackEntry {
    /// The state.
    pub(crate) state: usize,
    /// The symbol.
    pub(crate) symbol: Sym,
    /// The number of its node.
    pub(crate) node: usize,
}

/// A node of a tree.
#[derive(Clone, Copy, Drop)]
pub enum Node {
    /// A token, and its place in the input.
    Leaf(Sym, usize),
    /// An error that recovery shifted.
    ErrorLeaf,
    /// A rule, where its children begin in the list of children, and how many they are.
    Rule(usize, usize, usize),
}

/// What a parse holds now.
pub struct Parts {
    /// The stack, from the bottom.
    pub(crate) stack: Vec<StackEntry>,
    /// The nodes, each after its children.
    pub(crate) nodes: Vec<Node>,
    /// The entries that became children.
    pub(crate) children: Vec<StackEntry>,
    /// The upcoming tokens.
    pub(crate) rest: Remaining,
    /// The recovery counter, 0 to 3.
    pub(crate) counter: usize,
    /// How many errors were reported.
    pub(crate) errors: usize,
    /// What the parse is doing.
    pub(crate) mode: Mode,
    /// How many steps and edits stand.
    pub(crate) steps: usize,
}

impl Drop for Parts {
    fn drop(self) {
        let_go!(self: Parts { stack, nodes, children, rest, counter, errors, mode, steps });
    }
}

/// What a step or an edit has changed.
#[derive(Clone, Copy, Drop)]
pub struct PlaceChange {
    /// Its kind.
    pub kind: StepKind,
    /// The recovery counter before it.
    pub(crate) counter: usize,
    /// The mode before it.
    pub(crate) mode: Mode,
    /// The state of the entry that was on top.
    pub(crate) state: usize,
    /// The node of that entry.
    pub(crate) node: usize,
    /// The place of the token that was ahead.
    pub(crate) place: usize,
}

/// A node whose children are being written.
#[derive(Clone, Copy, Drop)]
pub struct Frame {
    /// Which entry in the list of children is next.
    pub(crate) next: usize,
    /// Where its entries end in that list.
    pub(crate) end: usize,
}

impl Parts {
    /// What a parse holds before its first step.
    pub(crate) fn new(alloc: Global) -> Parts
        ensures { content_of result ≡ first_content }
    {
        Parts {
            stack: Vec::new(alloc),
            nodes: Vec::new(alloc),
            children: Vec::new(alloc),
            rest: rest::first_rest(alloc),
            counter: 0,
            errors: 0,
            mode: Mode::Running,
            steps: 0,
        }
    }
}

/// Makes room for one step or edit more, which has `count` entries become children, and for a walk
/// over the trees.
pub(crate) fn make_room(
    parts: &mut Parts,
    walk: &mut Vec<Frame>,
    count: usize,
) -> Result<(), AllocError>
    requires room { HasRoom parts.old }
    requires stack { vec_len parts.old.stack ≤ parts.old.steps }
    requires inserted { vec_len parts.old.rest.inserted ≤ parts.old.rest.edits }
    ensures content { content_of parts.new ≡ content_of parts.old }
    ensures capacity { KeepsRoom parts.old parts.new }
    ensures room { OnOk result (HasRoomFor parts.new count) }
    ensures steps { OnOk result (parts.new.steps + 2 ≤ vec_capacity parts.new.stack) }
    ensures walk { OnOk result (parts.new.steps + 2 ≤ vec_capacity walk.new) }
    ensures walk_kept { vec_capacity walk.old ≤ vec_capacity walk.new }
{
    let wanted = parts.steps + 2;
    walk.reserve(wanted)?;
    rest::make_room(&mut parts.rest)?;
    parts.stack.reserve(wanted - parts.stack.len())?;
    parts.nodes.reserve(1)?;
    parts.children.reserve(count)
}

/// The state after the first `count` entries of the stack.
#[tactic(auto, using(crate::proofs::States::state_rules))]
pub(crate) fn state_below(stack: &[StackEntry], count: usize) -> usize
    requires { count ≤ length stack.now }
    ensures { result ≡ state_from 0 count stack.now }
{
    if count == 0 {
        0
    } else {
        stack[count - 1].state
    }
}

/// An entry with a node of its own goes on top.
fn grow(parts: &mut Parts, state: usize, symbol: Sym, node: Node)
    requires { HasRoomFor parts.old 0 }
    ensures content { content_of parts.new ≡ with_entry (content_of parts.old) state symbol node }
    ensures capacity { KeepsRoom parts.old parts.new }
{
    let entry = StackEntry {
        state,
        symbol,
        node: parts.nodes.len(),
    };
    parts.stack.push(entry).unwrap();
    parts.nodes.push(node).unwrap();
}

/// The entries on top become the children of a new one.
fn fold(parts: &mut Parts, state: usize, left: Sym, rule: usize, width: usize)
    requires room { HasRoomFor parts.old width }
    ensures content { content_of parts.new
        ≡ with_parent (content_of parts.old) state left rule width }
    ensures capacity { KeepsRoom parts.old parts.new }
{
    let start = parts.stack.len().saturating_sub(width);
    let node = Node::Rule(rule, parts.children.len(), width);
    let entry = StackEntry {
        state,
        symbol: left,
        node: parts.nodes.len(),
    };
    parts
        .children
        .extend_from_slice(&parts.stack[start..])
        .unwrap();
    parts.stack.truncate(start);
    parts.stack.push(entry).unwrap();
    parts.nodes.push(node).unwrap();
}

/// The entry on top becomes as many of the last children.
fn unfold(parts: &mut Parts, width: usize)
    requires { (vec_len parts.old.stack - 1)
        + length (drop (vec_len parts.old.children - width) parts.old.children.items)
        ≤ vec_capacity parts.old.stack }
    ensures content { content_of parts.new ≡ without_parent (content_of parts.old) width }
    ensures capacity { KeepsRoom parts.old parts.new }
{
    let start = parts.children.len().saturating_sub(width);
    parts.stack.pop();
    parts.nodes.pop();
    parts
        .stack
        .extend_from_slice(&parts.children[start..])
        .unwrap();
    parts.children.truncate(start);
}

/// Where a symbol leads from a state, or state 0.
fn lead_of(tables: &Tables, state: usize, symbol: Sym) -> usize
    ensures { result ≡ lead tables.now state symbol }
{
    goto(tables, state, symbol).unwrap_or(0)
}

/// The change of a step of this kind, which isn't made yet.
fn change_for(parts: &Parts, kind: StepKind) -> PlaceChange
    requires { parts.now.rest.at < 2 ^ 63 }
    ensures { result ≡ change_at kind (content_of parts.now) }
{
    let len = parts.stack.len();
    let (state, node) = if len == 0 {
        (0, 0)
    } else {
        (parts.stack[len - 1].state, parts.stack[len - 1].node)
    };
    PlaceChange {
        kind,
        counter: parts.counter,
        mode: parts.mode,
        state,
        node,
        place: rest::place_left(&parts.rest),
    }
}

/// How many entries become children in a step of this kind.
pub(crate) fn children_of(tables: &Tables, kind: StepKind) -> usize
    ensures { result ≡ taken_by tables.now kind }
{
    match kind {
        StepKind::Reduce(rule) => rule_of(tables, rule).1.len(),
        _ => 0,
    }
}

/// The token ahead goes to the stack.
fn shift(tables: &Tables, parts: &mut Parts, token: Sym)
    requires room { HasRoomFor parts.old 0 }
    requires at { parts.old.rest.at < 2 ^ 63 }
    ensures content { content_of parts.new
        ≡ content_after tables.now (kinds.Shift token) (content_of parts.old) }
    ensures capacity { KeepsRoom parts.old parts.new }
{
    let state = lead_of(tables, state_below(&parts.stack, parts.stack.len()), token);
    let place = rest::place_left(&parts.rest);
    grow(parts, state, token, Node::Leaf(token, place));
    rest::take(&mut parts.rest);
    parts.counter = parts.counter.saturating_sub(1);
}

/// The left side of a rule takes the place of its body.
fn reduce(tables: &Tables, parts: &mut Parts, rule: usize)
    requires room { HasRoomFor parts.old (taken_by tables.now (kinds.Reduce rule)) }
    ensures content { content_of parts.new
        ≡ content_after tables.now (kinds.Reduce rule) (content_of parts.old) }
    ensures capacity { KeepsRoom parts.old parts.new }
{
    let (left, body) = rule_of(tables, rule);
    let count = parts.stack.len().saturating_sub(body.len());
    let state = lead_of(tables, state_below(&parts.stack[..count], count), left);
    fold(parts, state, left, rule, body.len());
}

/// An error is detected, and reported where the counter is 0.
fn detect(parts: &mut Parts)
    requires { parts.old.errors < 2 ^ 63 }
    ensures content { content_of parts.new ≡ with_error (content_of parts.old) }
    ensures capacity { KeepsRoom parts.old parts.new }
{
    if parts.counter == 0 {
        parts.errors += 1;
    }
    parts.counter = 3;
    parts.mode = Mode::Popping;
}

/// `error` goes to the stack.
fn shift_error(tables: &Tables, parts: &mut Parts)
    requires room { HasRoomFor parts.old 0 }
    ensures content { content_of parts.new
        ≡ content_after tables.now kinds.ShiftError (content_of parts.old) }
    ensures capacity { KeepsRoom parts.old parts.new }
{
    let state = lead_of(tables, state_below(&parts.stack, parts.stack.len()), ERROR);
    grow(parts, state, ERROR, Node::ErrorLeaf);
    parts.mode = Mode::Running;
}

/// Makes a step or an edit of this kind, for which there is room.
pub(crate) fn make(tables: &Tables, parts: &mut Parts, kind: StepKind) -> PlaceChange
    requires room { HasRoomFor parts.old (taken_by tables.now kind) }
    requires at { parts.old.rest.at < 2 ^ 63 }
    requires errors { parts.old.errors ≤ parts.old.steps }
    requires steps { parts.old.steps < 2 ^ 63 }
    requires few { vec_len parts.old.rest.inserted ≤ parts.old.rest.edits }
    ensures content { content_of parts.new
        ≡ one_step (content_after tables.now kind (content_of parts.old)) }
    ensures change { result ≡ change_at kind (content_of parts.old) }
    ensures capacity { KeepsRoom parts.old parts.new }
{
    let change = change_for(parts, kind);
    parts.steps += 1;
    match kind {
        StepKind::Shift(token) => shift(tables, parts, token),
        StepKind::Reduce(rule) => reduce(tables, parts, rule),
        StepKind::Accept => parts.mode = Mode::Accepted,
        StepKind::Detect => detect(parts),
        StepKind::Pop(_) => drop(parts.stack.pop()),
        StepKind::ShiftError => shift_error(tables, parts),
        StepKind::Discard(_) | StepKind::Drop(_) => rest::take(&mut parts.rest),
        StepKind::Fail => parts.mode = Mode::Failed,
        StepKind::Insert(token) => rest::insert(&mut parts.rest, token),
    }
    change
}

/// Takes a change back. It takes no memory.
pub(crate) fn unmake(tables: &Tables, parts: &mut Parts, change: PlaceChange)
    requires stack { length (one_back change (content_before tables.now change change.kind
        (content_of parts.old))).stack ≤ vec_capacity parts.old.stack }
    requires inserted { length (one_back change (content_before tables.now change change.kind
        (content_of parts.old))).rest.inserted ≤ vec_capacity parts.old.rest.inserted }
    ensures content { content_of parts.new
        ≡ one_back change (content_before tables.now change change.kind (content_of parts.old)) }
    ensures capacity { KeepsRoom parts.old parts.new }
{
    parts.counter = change.counter;
    parts.mode = change.mode;
    parts.steps = parts.steps.saturating_sub(1);
    match change.kind {
        StepKind::Shift(token) => {
            parts.stack.pop();
            parts.nodes.pop();
            rest::give_back(&mut parts.rest, change.place, token);
        }
        StepKind::Reduce(rule) => unfold(parts, rule_of(tables, rule).1.len()),
        StepKind::Detect => {
            if change.counter == 0 {
                parts.errors = parts.errors.saturating_sub(1);
            }
        }
        StepKind::Pop(symbol) => {
            let entry = StackEntry {
                state: change.state,
                symbol,
                node: change.node,
            };
            parts.stack.push(entry).unwrap();
        }
        StepKind::ShiftError => {
            parts.stack.pop();
            parts.nodes.pop();
        }
        StepKind::Discard(token) | StepKind::Drop(token) => {
            rest::give_back(&mut parts.rest, change.place, token);
        }
        StepKind::Insert(_) => rest::uninsert(&mut parts.rest),
        StepKind::Accept | StepKind::Fail => {}
    }
}
