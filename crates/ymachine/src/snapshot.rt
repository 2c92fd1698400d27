//! A parse by tables that keeps each earlier configuration whole.

ghost use Rattle.std.specs.Prelude.{◌≡◌, ◌≤◌, ◌+◌, IsTrue, IfOk, Option, vec_len, vec_capacity};
ghost use Rattle.ymachine.specs.Ahead.{LeadsOn};
ghost use Rattle.ymachine.specs.Content.{Place, configuration_of, first_place, place_after};
ghost use Rattle.ymachine.specs.Content.{place_next, valid};
ghost use Rattle.ymachine.specs.Parts.{content_of, HasRoom, HasRoomFor};
ghost use Rattle.ymachine.specs.Reversible.{Advances};
ghost use Rattle.ymachine.specs.Shown.{GoesByMachine};
ghost use Rattle.ymachine.specs.View.{configuration_by};
ghost use Rattle.ytokens.specs.Tokens.{Fits, symbols_of};
ghost use Rattle.ymachine.specs.declared.machine.StepKind.{StepKind as Kind};

use crate::kinds::{edit_ahead, step_ahead};
use crate::machine::{Edit, StepFault, StepKind};
use crate::parts::{Parts, children_of, make};
use crate::rest;
use crate::reversible::Reversible;
use crate::tables::known;
use crate::view::View;
use std::alloc::{AllocError, Global};
use std::marker::Model;
use std::mem;
use ytables::Tables;
use ytokens::tokens::Tokens;

/// What a step or an edit has changed.
#[derive(Drop)]
pub struct SnapshotChange {
    /// Its kind.
    pub kind: StepKind,
    /// All that the parse held before it.
    pub(crate) earlier: Parts,
    ghost room: { HasRoom earlier },
}

/// A parse of some tokens by some tables, as it is now. A step is made on a copy, so what was
/// before it stays unchanged.
#[derive(Drop)]
pub struct SnapshotParser {
    tables: Tables,
    tokens: Tokens,
    parts: Parts,
}

impl Model for SnapshotParser {
    ghost use Rattle.ymachine.specs.Content.{Place};

    ghost Value = { Place };

    ghost use Rattle.ymachine.specs.Place.{place_of};
    ghost use Rattle.ymachine.specs.Snapshot.{IsSnapshot};

    ghost view = { λ p. place_of p.tables p.tokens p.parts };

    ghost invariant = { λ p. IsSnapshot p.tables p.tokens p.parts };
}

/// A copy of what a parse holds. It fails only when memory runs out.
fn copy_of(parts: &Parts) -> Result<Parts, AllocError>
    ensures { IfOk result (λ copy. content_of copy ≡ content_of parts.now) }
{
    Ok(Parts {
        stack: parts.stack.clone()?,
        nodes: parts.nodes.clone()?,
        children: parts.children.clone()?,
        rest: rest::copy_of(&parts.rest)?,
        counter: parts.counter,
        errors: parts.errors,
        mode: parts.mode,
        steps: parts.steps,
    })
}

/// A copy with room for one step more, which has `count` entries become children.
fn roomy_copy(parts: &Parts, count: usize) -> Result<Parts, AllocError>
    requires room { HasRoom parts.now }
    requires stack { vec_len parts.now.stack ≤ parts.now.steps }
    requires inserted { vec_len parts.now.rest.inserted ≤ parts.now.rest.edits }
    ensures content { IfOk result (λ copy. content_of copy ≡ content_of parts.now) }
    ensures room { IfOk result (λ copy. HasRoomFor copy count) }
    ensures steps { IfOk result (λ copy. copy.steps + 2 ≤ vec_capacity copy.stack) }
{
    let mut copy = copy_of(parts)?;
    let wanted = copy.steps + 2 - copy.stack.len();
    rest::make_room(&mut copy.rest)?;
    copy.stack.reserve(wanted)?;
    copy.nodes.reserve(1)?;
    copy.children.reserve(count)?;
    Ok(copy)
}

impl SnapshotParser {
    ghost use Rattle.ymachine.specs.Snapshot.{snapshot_before, snapshot_fits};

    /// The first configuration. It takes no memory.
    pub fn new(alloc: Global, tables: Tables, tokens: Tokens) -> SnapshotParser
        requires { Fits tables.built.grammar (symbols_of tokens) }
        ensures { result ≡ first_place tables (symbols_of tokens) }
    {
        SnapshotParser {
            tables,
            tokens,
            parts: Parts::new(alloc),
        }
    }

    /// The configuration now.
    #[tactic(auto, unfolding(crate::specs::View::configuration_by))]
    pub fn view(&self) -> View<'_>
        ensures { configuration_by result ≡ configuration_of self.now }
    {
        View::new(&self.parts, &self.tokens.symbols)
    }

    /// This call does nothing. It says that the steps and edits are those of the machine of the
    /// tables.
    pub fn goes(&self)
        ensures { GoesByMachine self.now }
    {
        known(&self.tables);
        let _ = &self.tokens;
    }

    /// Makes a step or an edit of this kind on a copy, and keeps what was before. An `Err` changes
    /// nothing.
    fn change(&mut self, kind: StepKind) -> Result<SnapshotChange, StepFault>
        requires { IsTrue (valid (place_after kind self.old)) }
        ensures { (found : Place → Option (Kind × Place)) → LeadsOn self.old (found self.old) kind →
            Advances place_next found snapshot_before (λ c. c.kind) snapshot_fits
            self.old result self.new }
    {
        let count = children_of(&self.tables, kind);
        let mut after = roomy_copy(&self.parts, count)?;
        make(&self.tables, &mut after, kind);
        let earlier = mem::replace(&mut self.parts, after);
        Ok(SnapshotChange { kind, earlier })
    }
}

impl Reversible for SnapshotParser {
    ghost use Rattle.ymachine.specs.Content.{place_next, place_edited};
    ghost use Rattle.ymachine.specs.Snapshot.{snapshot_before, snapshot_fits};

    type Change = SnapshotChange;

    type Edit = Edit;

    type Kind = StepKind;

    ghost next = { place_next };

    ghost edited = { place_edited };

    ghost before = { snapshot_before };

    ghost kind = { λ change. change.kind };

    ghost fits = { snapshot_fits };

    fn advance(&mut self) -> Result<SnapshotChange, StepFault> {
        let kind = step_ahead(&self.tables, &self.tokens, &self.parts)?;
        self.change(kind)
    }

    fn edit(&mut self, edit: Edit) -> Result<SnapshotChange, StepFault> {
        let kind = edit_ahead(&self.tables, &self.tokens, &self.parts, edit)?;
        self.change(kind)
    }

    fn revert(&mut self, change: SnapshotChange) {
        self.parts = change.earlier;
    }
}
