//! A session: a parse in place, and each configuration before it.

ghost use Rattle.std.specs.Prelude.{◌≡◌, ◌+◌, ◌≤◌, ◌<◌, All, Some, Ok, IfSome, is_some, false};
ghost use Rattle.std.specs.Prelude.{length, vec_len, vec_capacity, option_map, slice_get};
ghost use Rattle.ymachine.specs.declared.machine.AtStart.{AtStart};
ghost use Rattle.ymachine.specs.Content.{place_next, place_deed};
ghost use Rattle.ymachine.specs.Reversible.{StepsOn, StepsBack};
ghost use Rattle.ymachine.specs.History.{IsHistory};
ghost use Rattle.ymachine.specs.MachineOver.{machine_over};
ghost use Rattle.ymachine.specs.Shown.{Counts, KeepsGround, past_view};

use std::alloc::Global;
use ymachine::machine::{AtStart, Deed, Edit, StepFault, StepKind};
use ymachine::tables::known;
use ymachine::{Journal, PlaceParser};
use ysymbols::{Sym, let_go};
use ytables::Tables;
use ytokens::tokens::Tokens;

/// A session: the configuration of a parse now, and each one before it.
pub struct Session {
    pub(crate) journal: Journal<PlaceParser>,
    /// While it is unwound, the tokens that the undone steps have shifted, the last one first.
    /// There is room for a token for each step.
    pub(crate) later: Vec<Sym>,
    ghost steps: { ∥ IsHistory (machine_over journal.now.tables) journal.now.tokens
        (past_view journal) ∥₁ },
    ghost ground: { All (KeepsGround journal.now) journal.earlier },
    ghost count: { ∥ Counts journal.now journal.earlier ∥₁ },
    ghost room: { vec_len later + length journal.earlier ≤ vec_capacity later },
}

impl Drop for Session {
    fn drop(self) {
        let_go!(self: Session { journal, later });
    }
}

/// Makes a step or an edit.
fn make(journal: &mut Journal<PlaceParser>, deed: Deed) -> Result<(), StepFault>
    ensures { StepsOn place_next (place_deed deed) journal.old result journal.new }
{
    match deed {
        Deed::Step => journal.step(),
        Deed::Edit(edit) => journal.edit(edit),
    }
}

/// The kind of what was made last, once there is room for a token for each step. Where memory runs
/// out, the step is taken back.
fn settle(journal: &mut Journal<PlaceParser>, later: &mut Vec<Sym>) -> Option<StepKind>
    requires made { 0 < length journal.old.earlier }
    requires room { length journal.old.earlier ≤ vec_capacity later.old + 1 }
    ensures kind { IfSome result (λ kind. option_map (λ step. step.0)
        (slice_get journal.old.earlier 0) ≡ Some kind) }
    ensures kept { IfSome result (λ _. journal.new ≡ journal.old) }
    ensures back { is_some result ≡ false →
        StepsBack {E = AtStart} journal.old (Ok tt) journal.new }
    ensures room { vec_len later.new + length journal.new.earlier ≤ vec_capacity later.new }
{
    later.clear();
    let kind = match journal.last() {
        Some(change) => change.kind,
        None => unreachable!(),
    };
    if later.reserve(journal.position()).is_ok() {
        return Some(kind);
    }
    match journal.back() {
        Ok(()) => None,
        Err(AtStart) => unreachable!(),
    }
}

#[tactic(auto, unfolding(crate::specs::Session::setting_of, crate::specs::Session::history_of))]
impl Session {
    ghost use Rattle.std.specs.Prelude.{◌≤◌, IsTrue, slice_get, option_map};
    ghost use Rattle.ymachine.specs.declared.machine.Edit.TheVariants as edits;
    ghost use Rattle.ytokens.specs.Symbols.{is_input};
    ghost use Rattle.ymachine.specs.Spelling.{Spells};
    ghost use Rattle.std.specs.Prelude.{IfSome};
    ghost use Rattle.ymachine.specs.Machine.{next, edited, deed_by};
    ghost use Rattle.ymachine.specs.Past.{Steps, Changes, Undoes, position, kinds_of, most_steps};
    ghost use Rattle.ymachine.specs.History.{CountsToThree, first_history};
    ghost use Rattle.ymachine.specs.Headline.{IsMachineOf};
    ghost use Rattle.ymachine.specs.History.{History};
    ghost use Rattle.ymachine.specs.Rightmost.{UnwindsRight};
    ghost use Rattle.ytokens.specs.Tokens.{Fits, symbols_of};
    ghost use Rattle.ysession.specs.Session.{setting_of, machine_of, history_of, tokens_of};
    ghost use Rattle.ysession.specs.Session.{grammar_of, tables_of};
    ghost use Rattle.ysession.specs.Session.{past_of};

    /// The first configuration alone: an empty stack, all tokens, no error. The tokens fit the
    /// tables (`Tokens::fits`). It takes no memory.
    pub fn new(alloc: Global, tables: Tables, tokens: Tokens) -> Session
        requires { Fits tables.built.grammar (symbols_of tokens) }
        ensures tables { tables_of result ≡ tables }
        ensures machine { machine_of result ≡ machine_over tables }
        ensures tokens { tokens_of result ≡ symbols_of tokens }
        ensures grammar { grammar_of result ≡ tables.built.grammar }
        ensures history { history_of result ≡ first_history (symbols_of tokens) }
        ensures goes { IsMachineOf tables.built.grammar (machine_over tables) }
        ensures derives { (h : History) → UnwindsRight tables.built.grammar.bare
            (machine_over tables) (symbols_of tokens) h }
    {
        known(&tables);
        let parse = PlaceParser::new(alloc, tables, tokens);
        parse.unwinds();
        Session {
            journal: Journal::new(alloc, parse),
            later: Vec::new(alloc),
        }
    }

    /// The kind of the newest step or edit.
    fn last_kind(&self) -> Option<StepKind>
        ensures { result ≡ option_map (λ step. step.0) (slice_get (past_of self.now).earlier 0) }
    {
        self.journal.last().map(|change| change.kind)
    }

    /// One step forward, and its kind. An `Err` changes nothing: S1 where the parse has halted,
    /// else S2 where the position is 1,000,000, else S3 when memory runs out.
    pub fn step(&mut self) -> Result<StepKind, StepFault>
        ensures steps { Steps (next (machine_of self.old)) (history_of self.old) result
            (history_of self.new) }
        ensures setting { setting_of self.new ≡ setting_of self.old }
    {
        self.change(Deed::Step)
    }

    /// One step, or one edit of the upcoming tokens, and its kind.
    fn change(&mut self, deed: Deed) -> Result<StepKind, StepFault>
        ensures changes { Changes (next (machine_of self.old)) (deed_by (machine_of self.old) deed)
            (history_of self.old) result (history_of self.new) }
        ensures setting { setting_of self.new ≡ setting_of self.old }
    {
        self.journal.machine().kept();
        match make(&mut self.journal, deed) {
            Err(fault) => Err(fault),
            Ok(()) => match settle(&mut self.journal, &mut self.later) {
                Some(kind) => Ok(kind),
                None => Err(StepFault::Memory),
            },
        }
    }

    /// Inserts a token: it becomes the first upcoming one, with the place 0, and the position is
    /// one more. An `Err` changes nothing: S1 where the parse has halted, else S2 where the
    /// position is 1,000,000, else S3 when memory runs out.
    pub fn insert(&mut self, token: Sym) -> Result<StepKind, StepFault>
        requires { IsTrue (is_input (machine_of self.old).tokens token) }
        ensures edits { Changes (next (machine_of self.old))
            (edited (machine_of self.old) (edits.Insert token)) (history_of self.old) result
            (history_of self.new) }
        ensures setting { setting_of self.new ≡ setting_of self.old }
    {
        self.change(Deed::Edit(Edit::Insert(token)))
    }

    /// Takes out the first of the upcoming tokens; the position is one more. An `Err` changes
    /// nothing: S1 where the parse has halted, else S4 where there is no upcoming token, else S2
    /// where the position is 1,000,000, else S3 when memory runs out.
    pub fn drop_next(&mut self) -> Result<StepKind, StepFault>
        ensures edits { Changes (next (machine_of self.old))
            (edited (machine_of self.old) edits.Drop) (history_of self.old) result
            (history_of self.new) }
        ensures setting { setting_of self.new ≡ setting_of self.old }
    {
        self.change(Deed::Edit(Edit::Drop))
    }

    /// One step or edit back.
    pub(crate) fn undo(&mut self) -> Result<StepKind, AtStart>
        ensures undoes { Undoes (history_of self.old) result (history_of self.new) }
        ensures setting { setting_of self.new ≡ setting_of self.old }
        ensures later { self.new.later ≡ self.old.later }
    {
        let kind = match self.last_kind() {
            Some(kind) => kind,
            None => return Err(AtStart),
        };
        self.journal.back()?;
        Ok(kind)
    }

    /// One step or edit back, to the whole earlier configuration; the answer is the kind of what
    /// is undone. It takes no memory, and is refused only at position 0.
    pub fn back(&mut self) -> Result<StepKind, AtStart>
        ensures undoes { Undoes (history_of self.old) result (history_of self.new) }
        ensures setting { setting_of self.new ≡ setting_of self.old }
    {
        self.undo()
    }

    /// How many steps and edits stand, 0 to 1,000,000. This call also says that each configuration
    /// is made from the one before by a step or an edit, from the first one on, that the recovery
    /// counter of each is at most 3, and that the parse itself counts as many steps: so it has no
    /// more nodes than that (`PlaceParser::kept`).
    pub fn position(&self) -> usize
        ensures position { result ≡ position (history_of self.now) }
        ensures few { result ≤ most_steps }
        ensures history { ∥ IsHistory (machine_of self.now) (tokens_of self.now)
            (history_of self.now) ∥₁ }
        ensures counters { CountsToThree (history_of self.now) }
        ensures counted { (past_of self.now).now.content.steps ≡ result }
    {
        self.journal.position()
    }

    /// The kind of the step or edit at this index among those that stand, the first one at 0.
    /// `None` where no more stand. It takes no memory.
    pub fn kind_at(&self, index: usize) -> Option<StepKind>
        ensures { result ≡ slice_get (kinds_of (history_of self.now)) index }
    {
        self.journal.changes().get(index).map(|change| change.kind)
    }

    /// The tables, once the session is done with. It takes no memory.
    pub fn into_tables(self) -> Tables
        ensures { result ≡ tables_of self }
    {
        let Session { journal, later: _ } = self;
        journal.into_machine().into_tables()
    }

    /// The printed name of a symbol; empty for a number that is no symbol.
    pub fn name(&self, symbol: Sym) -> &[u8]
        ensures { result.now ≡ (machine_of self.now).name symbol }
    {
        self.journal.machine().name(symbol)
    }

    /// The input token that these bytes spell: one literal or one word, as in a tokens file, with
    /// no blank before or after it. `None` where they spell no such token. It takes no memory.
    pub fn token(&self, bytes: &[u8]) -> Option<Sym>
        ensures spells { Spells (machine_of self.now) bytes.now result }
        ensures input { IfSome result (λ token. IsTrue
            (is_input (machine_of self.now).tokens token)) }
    {
        self.journal.machine().token(bytes)
    }
}
