//! Why a cell says what it says: its candidates, what settled it, and how to choose otherwise.

use crate::advice::{Hint, hint_on};
pub use crate::question::Question;
use crate::reads::{action_of, conflict_of, default_of, next_of};
use crate::rivals::Rivals;
use crate::text::{ItemText, Name, Numbered, RuleText};
use std::io::{self, Write};
use ylalr::{END, Item};
use yprovenance::Candidate;
use ysymbols::Associativity;
use ytables::{Action, Standing};

/// The most candidates of one kind that are shown.
const MOST_SHOWN: usize = 10;

/// How a cell with several candidates is settled, whatever its token and the state of its shift are.
#[derive(Clone, Copy, Drop, PartialEq, Eq)]
pub struct Settled {
    /// The rule that is reduced, where one is.
    reduced: Option<usize>,
    /// Whether the token can't come.
    is_error: bool,
    /// Whether a conflict is counted.
    is_conflict: bool,
    /// Whether the token is the end.
    is_end: bool,
    /// How the first rules stand to the token, where it could be shifted.
    standings: [Option<Standing>; MOST_SHOWN],
    /// How to choose otherwise.
    pub hint: Option<Hint>,
    /// Whether a conflict stays in the cell where the hint is followed to shift.
    left_by_shift: bool,
    /// Whether one does where it is followed to reduce.
    left_by_rule: bool,
}

/// Writes what a cell says: `state 33 on ELSE: shift, to state 35`.
pub fn put_cell<W: Write>(out: &mut W, asked: Question<'_>) -> io::Result<()> {
    let state = asked.state;
    let name = asked.name();
    write!(out, "state {state} on {name}: ")?;
    match action_of(asked.tables, state, asked.token) {
        Action::Shift(to) => writeln!(out, "shift, to state {to}"),
        Action::Reduce(rule) => writeln!(out, "reduce by {}", Numbered(asked.lines, rule)),
        Action::Accept => writeln!(out, "accept"),
        Action::Error => writeln!(out, "error"),
    }
}

/// Writes why a cell says what it says: its candidates, what settled it, and how to choose
/// otherwise.
pub fn explain<W: Write>(out: &mut W, asked: Question<'_>) -> io::Result<()> {
    put_cell(out, asked)?;
    asked.put_reason(out)?;
    asked.put_choice(out)
}

impl Question<'_> {
    /// Writes how to choose otherwise, where precedences have settled the cell; of a conflict, what
    /// tries that, since a choice may lose sentences.
    pub fn put_choice<W: Write>(self, out: &mut W) -> io::Result<()> {
        match conflict_of(self.tables, self.state, self.token) {
            Some(_) => writeln!(out, "  ydebug conflicts tries how to choose otherwise."),
            None => self.put_hint(out),
        }
    }
}

impl<'a> Question<'a> {
    /// Writes what settled the cell, with its candidates where there are several.
    pub fn put_reason<W: Write>(self, out: &mut W) -> io::Result<()> {
        let shifts = self.shift().is_some();
        let rules = self.candidates().take(2).count();
        match (shifts, rules) {
            (false, 0) => self.put_empty(out),
            (true, 0) if self.token == END => writeln!(
                out,
                "  At end of input the only action is accept."
            ),
            (true, 0) => writeln!(out, "  {} can only be shifted here.", self.name()),
            (false, 1) => match default_of(self.tables, self.state) {
                Some(_) => writeln!(out, "  The state reduces by this rule whatever comes."),
                None => writeln!(out, "  Nothing else can be done here."),
            },
            _ => {
                if shifts {
                    self.put_shifts(out)?;
                }
                self.put_rules(out)?;
                self.put_grounds(out)
            }
        }
    }

    /// Writes how a cell with several candidates is settled: how the rules stand to the shift, where
    /// there is one, and what is done.
    pub fn put_grounds<W: Write>(self, out: &mut W) -> io::Result<()> {
        let shifts = self.shift().is_some();
        if shifts {
            for candidate in self.candidates().take(MOST_SHOWN) {
                self.put_standing(out, candidate)?;
            }
        }
        self.put_settled(out, shifts)
    }

    /// Writes how to choose otherwise, where the cell has several candidates.
    pub fn put_hint<W: Write>(self, out: &mut W) -> io::Result<()> {
        let rules = self.candidates().take(2).count();
        match hint_on(self) {
            Some(hint) if rules > 1 || (rules == 1 && self.shift().is_some()) => {
                Rivals::new(self).put_hint(out, hint)
            }
            _ => Ok(()),
        }
    }

    /// How the cell is settled, where it has several candidates.
    pub fn settled(self) -> Settled {
        let mut standings = [None; MOST_SHOWN];
        let shifts = self.shift().is_some();
        if shifts {
            for (place, candidate) in standings.iter_mut().zip(self.candidates()) {
                *place = Some(candidate.standing);
            }
        }
        let action = action_of(self.tables, self.state, self.token);
        let hint = hint_on(self);
        let (left_by_shift, left_by_rule) = match hint {
            Some(hint) => Rivals::new(self).left_by(hint),
            None => (false, false),
        };
        Settled {
            reduced: match action {
                Action::Reduce(rule) => Some(rule),
                _ => None,
            },
            is_error: action == Action::Error,
            is_conflict: conflict_of(self.tables, self.state, self.token).is_some(),
            is_end: shifts && self.token == END,
            standings,
            hint,
            left_by_shift,
            left_by_rule,
        }
    }

    /// Writes that nothing can be done.
    fn put_empty<W: Write>(self, out: &mut W) -> io::Result<()> {
        let name = self.name();
        write!(out, "  No item of the state allows {name}")?;
        match default_of(self.tables, self.state) {
            Some(_) => writeln!(
                out,
                ". The state reduces whatever comes, so the error is found after that."
            ),
            None => writeln!(out, ", so it is an error here."),
        }
    }

    /// Writes the items that could shift.
    fn put_shifts<W: Write>(self, out: &mut W) -> io::Result<()> {
        let (grammar, token) = (self.grammar(), self.token);
        let deed = if token == END { "accept" } else { "shift " };
        let shifts = |item: &&Item| next_of(grammar, **item) == Some(token);
        for item in self.items().iter().filter(shifts).take(MOST_SHOWN) {
            let number = Numbered(self.lines, item.rule);
            let text = ItemText(grammar, *item);
            writeln!(out, "  {deed}  {number}  {text}")?;
        }
        Ok(())
    }

    /// Writes the rules that could be reduced.
    fn put_rules<W: Write>(self, out: &mut W) -> io::Result<()> {
        for candidate in self.candidates().take(MOST_SHOWN) {
            let number = Numbered(self.lines, candidate.rule);
            let text = RuleText(self.grammar(), candidate.rule);
            writeln!(out, "  reduce  {number}  {text}")?;
        }
        let more = self.candidates().skip(MOST_SHOWN).count();
        if more > 0 {
            writeln!(out, "  and {more} rules more")?;
        }
        Ok(())
    }

    /// Writes how a rule stands to the token.
    fn put_standing<W: Write>(self, out: &mut W, candidate: Candidate) -> io::Result<()> {
        let rule = candidate.rule;
        let name = self.name();
        match candidate.standing {
            Standing::Higher => writeln!(out, "  Rule {rule} binds tighter than {name}."),
            Standing::Lower => writeln!(out, "  {name} binds tighter than rule {rule}."),
            Standing::Level(kind) => {
                write!(out, "  Rule {rule} and {name} have one level: ")?;
                match kind {
                    Associativity::Left => writeln!(out, "%left reduces."),
                    Associativity::Right => writeln!(out, "%right shifts."),
                    Associativity::Nonassoc => writeln!(out, "%nonassoc allows neither."),
                }
            }
            Standing::NoToken => writeln!(out, "  Rule {rule} has a precedence, {name} has none."),
            Standing::NoRule => {
                writeln!(out, "  {name} has a precedence, rule {rule} has none.")?;
                match self.lines.giver(self.grammar(), rule) {
                    Some(token) => {
                        let token = Name(self.grammar(), token);
                        writeln!(out, "  Rule {rule} would take that of {token}.")
                    }
                    None => writeln!(out, "  Rule {rule} has no token to take one from."),
                }
            }
            Standing::Neither => {
                writeln!(out, "  Neither rule {rule} nor {name} has a precedence.")
            }
        }
    }

    /// Writes what is done in a cell with several candidates.
    fn put_settled<W: Write>(self, out: &mut W, shifts: bool) -> io::Result<()> {
        let is_conflict = conflict_of(self.tables, self.state, self.token).is_some();
        let name = self.name();
        match action_of(self.tables, self.state, self.token) {
            Action::Reduce(rule) if shifts => {
                writeln!(out, "  Resolved as reduce by rule {rule}.")?;
                if is_conflict {
                    writeln!(
                        out,
                        "  Of the rules that don't lose, the first in the file is taken: a conflict."
                    )?;
                }
                Ok(())
            }
            Action::Reduce(rule) => writeln!(
                out,
                "  A reduce/reduce conflict: rule {rule} is reduced, the first of them in the file."
            ),
            Action::Error => { writeln!(out, "  Resolved as an error: {name} can't come here.") }
            Action::Shift(_) | Action::Accept if is_conflict => {
                let is_end = self.token == END;
                let deed = if is_end { "accepts" } else { "shifts" };
                writeln!(
                    out,
                    "  A shift/reduce conflict, counted once for each such rule: yacc {deed}."
                )
            }
            Action::Shift(_) | Action::Accept => writeln!(out, "  Resolved as shift."),
        }
    }
}
