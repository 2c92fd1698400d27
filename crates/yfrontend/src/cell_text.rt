//! What is said of a cell that isn't bison's.

use crate::compared::{Compared, Other};
use crate::notes::{Source, at_place, at_span};
use crate::peer::Peer;
use std::alloc::Global;
use std::io::{self, Write};
use yexplain::lines::{Lines, Spot};
use yexplain::text::{Name, Numbered, RuleText};
use yfiles::category::Category;
use yfiles::diagnostic::{Diagnostic, Diagnostics, Severity};
use yforeign::lexeme::Span;
use yimport::symbols::Ended;

/// A cell of what a file becomes.
#[derive(Clone, Copy)]
pub struct CellText<'a> {
    /// The file.
    pub source: Source<'a>,
    /// What bison compares rules and tokens by.
    pub peer: Peer<'a>,
    /// Where rules stand in the file.
    pub lines: &'a Lines,
    /// The ends that were taken out of bodies.
    pub ends: &'a [Ended],
    /// The cell.
    pub other: Other,
}

impl<'a> CellText<'a> {
    fn name(&self) -> Name<'a> {
        Name(self.peer.grammar(), self.other.token)
    }

    fn numbered(&self, rule: usize) -> Numbered<'a> {
        Numbered(self.lines, rule)
    }

    fn text(&self, rule: usize) -> RuleText<'a> {
        RuleText(self.peer.grammar(), rule)
    }

    /// What is said of a rule: at its place, where it has one.
    fn of_rule(&self, alloc: Global, rule: usize) -> io::Result<Diagnostic> {
        let spot = self.lines.spot(rule).unwrap_or(Spot {
            line: 1,
            column: None,
        });
        at_place(alloc, self.source.path, spot, (b"", ""))
    }

    /// Says what bison does.
    fn say_peer(&self, one: &mut Diagnostic) -> io::Result<()> {
        match (self.other.left.shift, self.other.left.first) {
            (false, Some(rule)) => {
                write!(one.message, "bison reduces by {}", self.numbered(rule))
            }
            _ => write!(one.message, "bison shifts {}", self.name()),
        }
    }

    /// That a file is refused for a rule of the token's level that bison doesn't compare, since
    /// another wins before.
    fn passed(&self, alloc: Global, rule: usize, winner: usize) -> io::Result<Diagnostic> {
        let (name, state) = (self.name(), self.other.state);
        let (number, text) = (self.numbered(rule), self.text(rule));
        let mut one = self.of_rule(alloc, rule)?;
        write!(
            one.message,
            "{name} in state {state}: {} {} wins against the shift, and bison compares no \
             rule after it; ",
            self.numbered(winner),
            self.text(winner)
        )?;
        self.say_peer(&mut one)?;
        write!(
            one.message,
            "; {number} {text} has the level of {name}, a nonassociative one, so yacc has an error"
        )?;
        Ok(one)
    }

    /// That a file is refused for a rule of the token's level, which is one of `%precedence`.
    fn equal(&self, alloc: Global, rule: usize, level: Span) -> io::Result<Diagnostic> {
        let (name, state, source) = (self.name(), self.other.state, self.source);
        let mut one = at_place(alloc, source.path, source.spot(level), (b"%precedence", ""))?;
        write!(
            one.message,
            "{name} and the rule {} have one level of it, and meet in state {state}: ",
            self.text(rule)
        )?;
        match self.other.left.winner {
            None => one.say("a conflict to bison, an error to yacc")?,
            Some(_) => {
                one.say("an error to yacc; ")?;
                self.say_peer(&mut one)?;
            }
        }
        Ok(one)
    }

    /// What comes of an end that was taken out of a rule: the file is refused, or bison has a
    /// conflict of another kind.
    fn ended(&self, alloc: Global, rule: usize, is_refused: bool) -> io::Result<Diagnostic> {
        let state = self.other.state;
        let first = self.other.left.first.unwrap_or(rule);
        let mut one = match self.peer.end_of(rule).and_then(|end| self.ends.get(end)) {
            Some(end) => at_span(alloc, self.source, end.span)?,
            None => self.of_rule(alloc, rule)?,
        };
        let (ended, other) = (self.numbered(rule), self.numbered(first));
        if is_refused {
            write!(
                one.message,
                "without it {ended} and {other} could both be reduced at the end in state \
                 {state}, and yacc would reduce by {other}; bison has a shift/reduce conflict, and \
                 shifts it"
            )?;
        } else {
            write!(
                one.message,
                "without it {ended} and {other} have a reduce/reduce conflict at the end in state \
                 {state}, a shift/reduce one to bison; both choose {ended}"
            )?;
        }
        Ok(one)
    }

    /// Why a file is refused for a cell in which bison does something else.
    pub fn refused(&self, alloc: Global) -> io::Result<Diagnostic> {
        let left = self.other.left;
        if let Some(rule) = left.ended {
            return self.ended(alloc, rule, true);
        }
        let rule = left.passed.or(left.first).unwrap_or(0);
        match (self.peer.level_of(rule), left.winner) {
            (Some(level), _) => self.equal(alloc, rule, level),
            (None, Some(winner)) => self.passed(alloc, rule, winner),
            (None, None) => {
                let mut one = self.of_rule(alloc, rule)?;
                let (name, state) = (self.name(), self.other.state);
                write!(
                    one.message,
                    "yacc does something else in state {state} on {name}: "
                )?;
                self.say_peer(&mut one)?;
                Ok(one)
            }
        }
    }

    /// That a cell has a conflict to bison and none here, or one of another kind.
    pub fn conflict(&self, alloc: Global) -> io::Result<Diagnostic> {
        let left = self.other.left;
        if let Some(rule) = left.ended {
            return self.ended(alloc, rule, false);
        }
        let rule = left.second.or(left.first).unwrap_or(0);
        let first = left.first.unwrap_or(rule);
        let (name, state) = (self.name(), self.other.state);
        let mut one = self.of_rule(alloc, rule)?;
        write!(
            one.message,
            "{} and {} have a reduce/reduce conflict to bison on {name} in state {state}, since it \
             compares no rule with {name} once that can't be shifted; yacc counts none, and does \
             the same",
            self.numbered(first),
            self.numbered(rule)
        )?;
        Ok(one)
    }
}

/// Tells how many cells more have conflicts of bison alone, and how many of `yacc` alone.
pub fn add_cells(
    alloc: Global,
    told: &mut Diagnostics,
    path: &str,
    found: &Compared,
) -> io::Result<()> {
    let more = found.conflicts.saturating_sub(1);
    for (count, what) in [
        (
            more,
            "more table entries with conflicts that bison doesn't have",
        ),
        (
            found.cut,
            "table entries with conflicts in states that no parse reaches, which bison leaves out",
        ),
    ] {
        if count > 0 {
            let mut one = Diagnostic::new(alloc, Some(path), None)?;
            one.severity = Severity::Warning;
            one.category = Some(Category::Yacc);
            write!(one.message, "{what}: {count}")?;
            told.add(one)?;
        }
    }
    Ok(())
}
