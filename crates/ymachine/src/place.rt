//! A parse by tables that steps forward and back in place.

ghost use Rattle.std.specs.Prelude.{◌≡◌, ◌<◌, IsTrue, IfSome, Option, is_some, length};
ghost use Rattle.std.specs.Prelude.{◌+◌, slice_index_or, take, Some};
ghost use Rattle.ymachine.specs.Ahead.{LeadsOn};
ghost use Rattle.ymachine.specs.Content.{Place, configuration_of, first_place, place_after, valid};
ghost use Rattle.ymachine.specs.Content.{place_next, place_before, place_fits};
ghost use Rattle.ymachine.specs.History.{History};
ghost use Rattle.ymachine.specs.Machine.{symbols};
ghost use Rattle.ymachine.specs.MachineOver.{machine_over};
ghost use Rattle.ymachine.specs.Place.{IsKept};
ghost use Rattle.ymachine.specs.Reversible.{Advances};
ghost use Rattle.ymachine.specs.Rightmost.{UnwindsRight};
ghost use Rattle.ymachine.specs.declared.machine.StepKind.{StepKind as Kind};
ghost use Rattle.ymachine.specs.Shown.{GoesByMachine};
ghost use Rattle.ymachine.specs.Spelling.{Spells};
ghost use Rattle.ymachine.specs.Tables.{state_after};
ghost use Rattle.ytokens.specs.Symbols.{is_input};
ghost use Rattle.ytokens.specs.Tokens.{Fits, symbols_of};
ghost use Rattle.ymachine.specs.Tree.{error_leaf};
ghost use Rattle.ymachine.specs.Unwinding.{tree_lines};
ghost use Rattle.ymachine.specs.View.{configuration_by, tree_by, trees_in};
ghost use Rattle.ylink.specs.Sends.{Sends};

use crate::journal::Journal;
use crate::kinds::{edit_ahead, step_ahead};
use crate::machine::{Edit, StepFault, StepKind};
use crate::parts::{Frame, Parts, PlaceChange, children_of, make, make_room, state_below, unmake};
use crate::reversible::Reversible;
use crate::tables::{grammar_of, known, name_of};
use crate::tree_view::TreeView;
use crate::view::View;
use crate::walk::write_lines;
use std::alloc::Global;
use std::io::Write;
use std::marker::Model;
use ysymbols::Sym;
use ytables::{Link, Tables};
use ytokens::tokens::{Tokens, has_blank_end, only_token};

/// A parse of some tokens by some tables, as it is now. Trees lie in flat lists, and a step back
/// cuts off their ends. The walk has room for all nodes of a tree that may be open at once; each
/// step makes that room, so trees are written without memory.
#[derive(Drop)]
pub struct PlaceParser {
    tables: Tables,
    tokens: Tokens,
    parts: Parts,
    walk: Vec<Frame>,
}

impl Model for PlaceParser {
    ghost use Rattle.ymachine.specs.Content.{Place};

    ghost Value = { Place };

    ghost use Rattle.std.specs.Prelude.{vec_capacity};
    ghost use Rattle.ymachine.specs.Place.{place_of, IsPlace};

    ghost view = { λ p. place_of p.tables p.tokens p.parts };

    ghost invariant = { λ p. IsPlace p.tables p.tokens p.parts (vec_capacity p.walk) };
}

impl PlaceParser {
    /// The first configuration. It takes no memory.
    pub fn new(alloc: Global, tables: Tables, tokens: Tokens) -> PlaceParser
        requires { Fits tables.built.grammar (symbols_of tokens) }
        ensures { result ≡ first_place tables (symbols_of tokens) }
    {
        PlaceParser {
            tables,
            tokens,
            parts: Parts::new(alloc),
            walk: Vec::new(alloc),
        }
    }

    /// The tables of the parse.
    pub fn tables(&self) -> &Tables
        ensures { result.now ≡ self.now.tables }
    {
        &self.tables
    }

    /// The state to which the gotos lead over the stack's symbols: the one on top.
    pub fn state(&self) -> usize
        ensures { state_after self.now.tables (symbols (configuration_of self.now).stack)
            ≡ Some result }
    {
        state_below(&self.parts.stack, self.parts.stack.len())
    }

    /// The state to which the gotos lead over the symbols of the stack up to the entry at this
    /// index, counted from 0 at the bottom, and over its own.
    pub fn state_at(&self, index: usize) -> usize
        requires { index < length self.now.content.stack }
        ensures { state_after self.now.tables
            (take (index + 1) (symbols (configuration_of self.now).stack)) ≡ Some result }
    {
        self.parts.stack[index].state
    }

    /// Its tables, once the parse is done with.
    pub fn into_tables(self) -> Tables
        ensures { result ≡ self.tables }
    {
        let PlaceParser {
            tables,
            tokens: _,
            parts: _,
            walk: _,
        } = self;
        tables
    }

    /// The printed name of a symbol; empty for a number that is no symbol.
    #[tactic(auto, unfolding(crate::specs::MachineOver::machine_over))]
    pub fn name(&self, symbol: Sym) -> &[u8]
        ensures { result.now ≡ (machine_over self.now.tables).name symbol }
    {
        name_of(grammar_of(&self.tables), symbol)
    }

    /// The input token that these bytes spell, or `None` where they spell none. It takes no
    /// memory.
    #[tactic(auto, unfolding(crate::specs::MachineOver::machine_over))]
    pub fn token(&self, bytes: &[u8]) -> Option<Sym>
        ensures spells { Spells (machine_over self.now.tables) bytes.now result }
        ensures input { IfSome result (λ token. IsTrue
            (is_input (machine_over self.now.tables).tokens token)) }
    {
        if has_blank_end(bytes) {
            return None;
        }
        only_token(grammar_of(&self.tables), bytes)
    }

    /// The configuration now.
    #[tactic(auto, unfolding(crate::specs::View::configuration_by))]
    pub fn view(&self) -> View<'_>
        ensures { configuration_by result ≡ configuration_of self.now }
    {
        View::new(&self.parts, &self.tokens.symbols)
    }

    /// The tree of the entry of the stack at this index, counted from 0 at the bottom.
    pub fn tree_at(&self, index: usize) -> TreeView<'_>
        requires { index < length self.now.content.stack }
        ensures { tree_by result
            ≡ slice_index_or (trees_in (configuration_of self.now).stack) index error_leaf }
    {
        let parts = &self.parts;
        TreeView::new(&parts.nodes, &parts.children, parts.stack[index].node)
    }

    /// Writes a line for each entry of the stack, from the bottom: its tree. `None` where the link
    /// failed. It takes no memory.
    pub(crate) fn write_trees<W: Write>(&mut self, link: &mut Link<W>) -> Option<()>
        ensures text { Sends W.contents link.old link.new (is_some result)
            (tree_lines (machine_over self.old.tables) (configuration_of self.old).stack) }
        ensures place { self.new ≡ self.old }
    {
        let parts = &self.parts;
        write_lines(
            link,
            &self.tables,
            &parts.stack,
            &parts.nodes,
            &parts.children,
            &mut self.walk,
        )
    }

    /// Makes a step or an edit of this kind, which leads on. An `Err` changes nothing.
    fn change(&mut self, kind: StepKind) -> Result<PlaceChange, StepFault>
        requires { IsTrue (valid (place_after kind self.old)) }
        ensures { (found : Place → Option (Kind × Place)) → LeadsOn self.old (found self.old) kind →
            Advances place_next found place_before (λ c. c.kind) place_fits
            self.old result self.new }
    {
        let count = children_of(&self.tables, kind);
        make_room(&mut self.parts, &mut self.walk, count)?;
        Ok(make(&self.tables, &mut self.parts, kind))
    }

    /// This call does nothing. It says that what is accepted without error steps unwinds to a
    /// rightmost derivation.
    pub fn unwinds(&self)
        ensures { (h : History) → UnwindsRight self.now.tables.built.grammar.bare
            (machine_over self.now.tables) self.now.tokens h }
    {
        known(&self.tables);
        let _ = &self.tokens;
    }

    /// This call does nothing. It says that the steps and edits are those of the machine of the
    /// tables.
    pub fn goes(&self)
        ensures { GoesByMachine self.now }
    {
        known(&self.tables);
        let _ = &self.tokens;
    }

    /// This call does nothing. It says what every parse keeps: among it, that there are never more
    /// nodes than steps that stand, nor more stack entries and children together than nodes.
    pub fn kept(&self)
        ensures { IsKept self.now }
    {
        known(&self.tables);
        let _ = &self.tokens;
    }
}

impl Reversible for PlaceParser {
    ghost use Rattle.ymachine.specs.Content.{place_next, place_edited, place_before, place_fits};

    type Change = PlaceChange;

    type Edit = Edit;

    type Kind = StepKind;

    ghost next = { place_next };

    ghost edited = { place_edited };

    ghost before = { place_before };

    ghost kind = { λ change. change.kind };

    ghost fits = { place_fits };

    fn advance(&mut self) -> Result<PlaceChange, StepFault> {
        let kind = step_ahead(&self.tables, &self.tokens, &self.parts)?;
        self.change(kind)
    }

    fn edit(&mut self, edit: Edit) -> Result<PlaceChange, StepFault> {
        let kind = edit_ahead(&self.tables, &self.tokens, &self.parts, edit)?;
        self.change(kind)
    }

    fn revert(&mut self, change: PlaceChange) {
        unmake(&self.tables, &mut self.parts, change);
    }
}

impl Journal<PlaceParser> {
    ghost use Rattle.std.specs.Prelude.{is_some, if◌then◌else◌, false, true};
    ghost use Rattle.ylink.specs.Link.{device_of, has_failed};
    ghost use Rattle.ylink.specs.Sends.{Grows};
    ghost use Rattle.ymachine.specs.Content.{configuration_of};
    ghost use Rattle.ymachine.specs.MachineOver.{machine_over};
    ghost use Rattle.ymachine.specs.Unwinding.{tree_lines};

    /// Writes the trees of a parse as it is now: a line for each entry of the stack, from the
    /// bottom. `None` exactly where the link failed in this call; the text is cut off then. It
    /// takes no memory.
    pub fn write_trees<W: Write>(&mut self, link: &mut Link<W>) -> Option<()>
        ensures text { Grows (W.contents (device_of link.old)) (W.contents (device_of link.new))
            (is_some result)
            (tree_lines (machine_over self.old.now.tables) (configuration_of self.old.now).stack) }
        ensures failed { has_failed link.new ≡ (if is_some result then false else true) }
        ensures past { self.new ≡ self.old }
    {
        link.clear();
        self.machine.write_trees(link)
    }
}
