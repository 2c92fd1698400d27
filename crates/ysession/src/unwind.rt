//! Unwinding: the forms of an accepted parse, from the last one back to the input.

ghost use Rattle.std.specs.Prelude.{◌≡◌, ◌↔◌, ◌++◌, ◌+◌, ◌<◌, ◌≤◌, [], All, IsTrue, IfOk, false};
ghost use Rattle.std.specs.Prelude.{true};
ghost use Rattle.std.specs.Prelude.{length, slice_index, vec_len, vec_capacity};
ghost use Rattle.std.specs.Prelude.{is_some, codes, if◌then◌else◌};
ghost use Rattle.std.specs.Io.KnownBytes.{Keeps};
ghost use Rattle.ylink.specs.Link.{device_of, has_failed};
ghost use Rattle.ylink.specs.Sends.{Sends};
ghost use Rattle.ysession.specs.Session.{setting_of, machine_of, history_of, tokens_of, grammar_of};
ghost use Rattle.ysession.specs.Session.{later_of};
ghost use Rattle.ymachine.specs.Unwinding.{NoErrors, form_line, form_of, forms_of, shifts_from};
ghost use Rattle.ymachine.specs.Unwinding.{is_error_step, whole_input};
ghost use Rattle.ymachine.specs.Past.{position};
ghost use Rattle.ymachine.specs.Unwinding.{is_reduction, names_text};
ghost use Rattle.ysession.specs.Unwound.{Cuts, GoesBack, Unwinds, gap, is_write};

use crate::session::Session;
use std::io::Write;
use ylink::pieces::Piece::Words;
use ylink::pieces::put_pieces;
use ymachine::PlaceChange;
use ymachine::machine::{AtStart, Mode, StepKind, UnwindFault};
use ysymbols::Sym;
use ytables::Link;

/// Whether a step of this kind is one of recovery.
fn is_error_step(kind: StepKind) -> bool
    ensures { result ≡ is_error_step kind }
{
    match kind {
        StepKind::Detect | StepKind::Pop(_) | StepKind::ShiftError | StepKind::Discard(_) => true,
        StepKind::Shift(_) | StepKind::Reduce(_) | StepKind::Accept => false,
        StepKind::Fail | StepKind::Insert(_) | StepKind::Drop(_) => false,
    }
}

fn is_reduction(kind: StepKind) -> bool
    ensures { result ≡ is_reduction kind }
{
    matches!(kind, StepKind::Reduce(_))
}

/// Whether none of the changes is one of recovery.
fn are_quiet(changes: &[PlaceChange]) -> bool
    ensures { IsTrue result ↔ All (λ change. is_error_step change.kind ≡ false) changes.now }
{
    changes.iter().all(|change| !is_error_step(change.kind))
}

/// The space before a name that isn't the first.
fn gap(index: usize) -> &'static [u8]
    ensures { result.now ≡ gap index }
{
    match index {
        0 => b"",
        _ => b" ",
    }
}

/// A name of a form, with the space before it.
fn put_name<W: Write>(
    session: &Session,
    link: &mut Link<W>,
    index: usize,
    symbol: Sym,
) -> Option<()>
    ensures { Sends W.contents link.old link.new (is_some result)
        (gap index ++ (machine_of session.now).name symbol) }
{
    put_pieces(link, &[Words(gap(index)), Words(session.name(symbol))])
}

/// The names of a form, with one space between.
fn put_names<W: Write>(session: &Session, link: &mut Link<W>) -> Option<()>
    ensures { Sends W.contents link.old link.new (is_some result)
        (names_text (machine_of session.now)
        (form_of (history_of session.now).now (later_of session.now))) }
{
    for index in 0..session.form_len() {
        put_name(session, link, index, session.form(index))?;
    }
    Some(())
}

/// The end of a line, in one call of the link; where that fails nothing is written.
fn put_end<W: Write>(link: &mut Link<W>) -> Option<()>
    ensures sends { Sends W.contents link.old link.new (is_some result) (codes "\n") }
    ensures kept { is_some result ≡ false
        → Keeps (W.contents (device_of link.old)) (W.contents (device_of link.new)) }
{
    link.write(b"\n")?;
    Some(())
}

/// The line of the form that stands now. Where the link fails, its end is missing.
fn put_form<W: Write>(session: &Session, link: &mut Link<W>) -> Option<()>
    ensures sends { Sends W.contents link.old link.new (is_some result)
        (form_line (machine_of session.now)
        (form_of (history_of session.now).now (later_of session.now))) }
    ensures cut { is_some result ≡ false
        → Cuts (W.contents (device_of link.old)) (W.contents (device_of link.new))
        (form_line (machine_of session.now)
        (form_of (history_of session.now).now (later_of session.now))) }
{
    put_names(session, link)?;
    put_end(link)
}

/// The forms from the one that stands now back to the first, each after the undo that restores it.
fn put_forms<W: Write>(session: &mut Session, link: &mut Link<W>) -> Option<()>
    requires { later_of session.old ≡ [] }
    ensures forms { GoesBack (W.contents (device_of link.old)) (W.contents (device_of link.new))
        (machine_of session.old) (history_of session.old) (is_some result)
        (history_of session.new) }
    ensures failed { has_failed link.new ≡ (if is_some result then has_failed link.old else true) }
    ensures setting { setting_of session.new ≡ setting_of session.old }
{
    put_form(session, link)?;
    loop {
        match session.step_back() {
            Ok(kind) => {
                if is_reduction(kind) {
                    put_form(session, link)?;
                }
            }
            Err(AtStart) => return Some(()),
        }
    }
}

/// The forms of a session, the last one first.
fn write_forms<W: Write>(session: &mut Session, link: &mut Link<W>) -> Option<()>
    ensures forms { GoesBack (W.contents (device_of link.old)) (W.contents (device_of link.new))
        (machine_of session.old) (history_of session.old) (is_some result)
        (history_of session.new) }
    ensures failed { has_failed link.new ≡ (if is_some result then has_failed link.old else true) }
    ensures setting { setting_of session.new ≡ setting_of session.old }
{
    session.forget_later();
    put_forms(session, link)
}

impl Session {
    ghost use Rattle.ysymbols.specs.Grammar.{start_of};
    ghost use Rattle.std.specs.Prelude.{[], ◌∷◌};
    ghost use Rattle.ymachine.specs.History.{first_history};
    ghost use Rattle.ymachine.specs.Past.{to_first, Undoes};
    ghost use Rattle.ymachine.specs.Rightmost.{IsRightmostDerivation};
    ghost use Rattle.ymachine.specs.declared.machine.Mode.TheVariants.{Accepted};

    /// How many symbols the form has: those of the stack, and the tokens that were shifted later.
    fn form_len(&self) -> usize
        ensures { result ≡ length (form_of (history_of self.now).now (later_of self.now)) }
    {
        self.view().stack_len() + self.later.len()
    }

    /// A symbol of the form.
    #[tactic(auto, unfolding(crate::specs::Session::history_of))]
    fn form(&self, index: usize) -> Sym
        requires { index < length (form_of (history_of self.now).now (later_of self.now)) }
        ensures { result
            ≡ slice_index (form_of (history_of self.now).now (later_of self.now)) index }
    {
        let view = self.view();
        let height = view.stack_len();
        if index < height {
            view.stack(index)
        } else {
            self.later[self.later.len() - 1 - (index - height)]
        }
    }

    /// No step is undone yet.
    #[tactic(auto, unfolding(crate::specs::Session::setting_of, crate::specs::Session::history_of))]
    fn forget_later(&mut self)
        ensures later { later_of self.new ≡ [] }
        ensures history { history_of self.new ≡ history_of self.old }
        ensures setting { setting_of self.new ≡ setting_of self.old }
    {
        self.later.clear();
    }

    /// Keeps the token that an undone step has shifted.
    #[tactic(auto, unfolding(crate::specs::Session::setting_of, crate::specs::Session::history_of))]
    fn keep_later(&mut self, kind: StepKind)
        requires { vec_len self.old.later + position (history_of self.old)
            < vec_capacity self.old.later }
        ensures later { later_of self.new ≡ shifts_from kind (later_of self.old) }
        ensures history { history_of self.new ≡ history_of self.old }
        ensures setting { setting_of self.new ≡ setting_of self.old }
    {
        if let StepKind::Shift(token) = kind {
            self.later.push(token).unwrap();
        }
    }

    /// One step or edit back, keeping the token that it has shifted.
    fn step_back(&mut self) -> Result<StepKind, AtStart>
        ensures undoes { Undoes (history_of self.old) result (history_of self.new) }
        ensures later { IfOk result (λ kind. later_of self.new
            ≡ shifts_from kind (later_of self.old)) }
        ensures setting { setting_of self.new ≡ setting_of self.old }
    {
        let kind = match self.undo() {
            Ok(kind) => kind,
            Err(AtStart) => return Err(AtStart),
        };
        self.keep_later(kind);
        Ok(kind)
    }

    /// Whether none of the steps that stand is one of recovery.
    #[tactic(auto, unfolding(crate::specs::Session::history_of))]
    fn is_quiet(&self) -> bool
        ensures { IsTrue result ↔ NoErrors (history_of self.now).earlier }
    {
        are_quiet(self.journal.changes())
    }

    /// This call does nothing. It says that a history begins with the first configuration, and
    /// that it unwinds to a rightmost derivation where it is accepted without error steps.
    fn derivation(&self)
        ensures first { ∥ to_first (history_of self.now) ≡ first_history (tokens_of self.now) ∥₁ }
        ensures derives { (history_of self.now).now.mode ≡ Accepted
            → NoErrors (history_of self.now).earlier
            → ∥ IsRightmostDerivation (grammar_of self.now).bare
            (start_of (grammar_of self.now).bare ∷ []) (forms_of (history_of self.now))
            (whole_input (history_of self.now)) ∥₁ }
    {
        self.journal.machine().unwinds();
    }

    /// Unwinds an accepted parse: writes the form of the accepted configuration, and undoes all
    /// steps, writing the form that stands after each undone reduction. This is the parse as a
    /// rightmost derivation, the last form first. A form stands on a line of its own: the names of
    /// the stack's symbols and of the tokens that are shifted after it, with one space between.
    /// Edits are undone too, and have no form.
    ///
    /// U1 where the parse isn't accepted, else U2 where an error step was made; both change
    /// nothing. U3 exactly where the link failed: the session then stands at the configuration
    /// whose form was being written, and only a beginning of its line was written. It takes no
    /// memory.
    pub fn unwind<W: Write>(&mut self, link: &mut Link<W>) -> Result<(), UnwindFault>
        ensures unwinds { Unwinds (W.contents (device_of link.old))
            (W.contents (device_of link.new)) (machine_of self.old) (history_of self.old) result
            (history_of self.new) }
        ensures derives { IfOk result (λ _. ∥ IsRightmostDerivation (grammar_of self.old).bare
            (start_of (grammar_of self.old).bare ∷ []) (forms_of (history_of self.old))
            (whole_input (history_of self.old)) ∥₁) }
        ensures first { IfOk result (λ _. ∥ history_of self.new
            ≡ first_history (tokens_of self.old) ∥₁) }
        ensures failed { has_failed link.new ≡ is_write result }
        ensures setting { setting_of self.new ≡ setting_of self.old }
    {
        link.clear();
        if self.view().mode() != Mode::Accepted {
            return Err(UnwindFault::NotAccepted);
        }
        if !self.is_quiet() {
            return Err(UnwindFault::HadError);
        }
        self.derivation();
        write_forms(self, link).ok_or(UnwindFault::Write)
    }
}
