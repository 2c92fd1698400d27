//! Hints as they are written.

use crate::advice::{Advice, Deed, Hint, Words};
use crate::lines::is_inner;
use crate::reads::level_of;
use crate::rivals::{Kinds, Rivals};
use crate::text::Name;
use std::io::{self, Write};
use ylalr::END;
use ysymbols::{Grammar, Sym};

/// Names for a precedence of a rule's own, one of which a grammar has no symbol of.
const NAMES: &[&str] = &[
    "LOW", "LOW1", "LOW2", "LOW3", "LOW4", "LOW5", "LOW6", "LOW7",
];

/// The first of these names that is no symbol of the grammar.
fn fresh_name(grammar: &Grammar) -> &'static str {
    for name in NAMES {
        if grammar.find(name.as_bytes()).is_none() {
            return name;
        }
    }
    "LOW8"
}

impl Rivals<'_> {
    /// Writes how the cell can be settled otherwise, and whether a conflict stays in it then.
    pub fn put_hint<W: Write>(&self, out: &mut W, hint: Hint) -> io::Result<()> {
        self.put_how(out, hint)?;
        match self.left_by(hint) {
            (false, false) => Ok(()),
            (true, true) => writeln!(out, "  Either way a conflict with another rule stays."),
            (true, false) => writeln!(out, "  The shift leaves a conflict with another rule."),
            (false, true) => writeln!(out, "  The reduction leaves a conflict with another rule."),
        }
    }

    /// Writes how the cell can be settled otherwise.
    fn put_how<W: Write>(&self, out: &mut W, hint: Hint) -> io::Result<()> {
        match hint {
            Hint::First => writeln!(
                out,
                "  To choose, change the grammar so that one alone fits here: another order of the \
                 rules takes another of them, and what only the one taken now accepts is lost."
            ),
            Hint::Settle(rule, advice) => self.put_advice(out, rule, advice),
            Hint::General => self.put_general(out),
            Hint::Turn { reduces, shifts } => self.put_turn(out, (reduces, shifts)),
            Hint::Word(deed) => {
                let name = self.asked.name();
                let (deed, word) = match deed {
                    Deed::Shift => ("shift", "%right"),
                    Deed::Reduce => ("reduce", "%left"),
                };
                writeln!(
                    out,
                    "  To {deed} instead, write {word} for the line of {name}."
                )
            }
            Hint::Order(deed, token, kinds) => self.put_order(out, deed, token, kinds),
        }
    }

    /// Writes how precedences of all rules choose, which is always so.
    fn put_general<W: Write>(&self, out: &mut W) -> io::Result<()> {
        let name = self.asked.name();
        let mut inner = self.contest.first_rules().iter();
        if self.asked.token == END || inner.any(|rule| is_inner(self.asked.grammar(), *rule)) {
            return writeln!(out, "  To choose, change the grammar.");
        }
        write!(out, "  To choose, ")?;
        if level_of(self.asked.grammar(), self.asked.token).is_none() {
            write!(out, "name {name} on a line of %right, and ")?;
        }
        writeln!(
            out,
            "give each of these rules a %prec: {name} is shifted where all their lines stand above \
             that of {name}, and one rule whose line stands below it is reduced."
        )
    }

    /// Writes how to turn what is forbidden.
    fn put_turn<W: Write>(&self, out: &mut W, turns: (bool, bool)) -> io::Result<()> {
        let how = match turns {
            (true, true) => {
                "choose otherwise, write %left in place of %nonassoc to reduce, %right to shift"
            }
            (true, false) => "reduce instead, write %left in place of %nonassoc",
            _ => "shift instead, write %right in place of %nonassoc",
        };
        writeln!(out, "  To {how}.")
    }

    /// Writes that another order of lines of these words does something else.
    fn put_order<W: Write>(
        &self,
        out: &mut W,
        deed: Deed,
        token: Sym,
        kinds: Kinds,
    ) -> io::Result<()> {
        let (name, token) = (self.asked.name(), Name(self.asked.grammar(), token));
        let (deed, order) = match deed {
            Deed::Shift => ("shift", "a later"),
            Deed::Reduce => ("reduce", "an earlier"),
        };
        write!(
            out,
            "  To {deed} instead, name {name} on {order} line than {token}"
        )?;
        if kinds.left && kinds.right && kinds.nonassoc {
            return writeln!(out, ".");
        }
        writeln!(out, ", one of {kinds}.")
    }

    /// Writes what settles a conflict with a rule.
    fn put_advice<W: Write>(&self, out: &mut W, rule: usize, advice: Advice) -> io::Result<()> {
        match advice {
            Advice::End => writeln!(
                out,
                "  The end takes no precedence: change the grammar to choose."
            ),
            Advice::Inner => writeln!(
                out,
                "  The rule of an action inside a body takes no precedence: change the grammar to \
                 choose."
            ),
            Advice::General => self.put_general(out),
            Advice::Both { reduces, shifts } => self.put_both(out, rule, (reduces, shifts)),
            Advice::Token(words) => self.put_token_line(out, rule, words),
            Advice::Rule(giver) => {
                let (name, giver) = (self.asked.name(), Name(self.asked.grammar(), giver));
                writeln!(
                    out,
                    "  To choose, name {giver} on a line of %left or %right: earlier than {name} \
                     shifts {name}, later reduces by rule {rule}."
                )
            }
            Advice::Lines { words, own } => self.put_lines(out, rule, (words, own)),
            Advice::Own => self.put_own(out, rule),
        }
    }

    /// Writes how a line for the token that gives the rule its precedence too chooses.
    fn put_both<W: Write>(&self, out: &mut W, rule: usize, turns: (bool, bool)) -> io::Result<()> {
        let name = self.asked.name();
        match turns {
            (true, true) => writeln!(
                out,
                "  To choose, name {name} in a line: %left reduces, %right shifts."
            ),
            (true, false) => writeln!(
                out,
                "  To reduce by rule {rule}, name {name} in a line of %left."
            ),
            _ => writeln!(out, "  To shift {name}, name it in a line of %right."),
        }
    }

    /// Writes how a line for the token chooses, where the rule has one of another token.
    fn put_token_line<W: Write>(&self, out: &mut W, rule: usize, words: Words) -> io::Result<()> {
        let (shifts, reduces) = (words.shifts, words.reduces);
        let both = shifts.and(reduces);
        let (name, other) = (self.asked.name(), Name(self.asked.grammar(), words.giver));
        if both.any() {
            return writeln!(
                out,
                "  To choose, name {name} on a line of {both}: later than {other} shifts {name}, \
                 earlier reduces by rule {rule}."
            );
        }
        if shifts.any() {
            return writeln!(
                out,
                "  To shift {name}, name it on a line of {shifts} later than {other}."
            );
        }
        writeln!(
            out,
            "  To reduce by rule {rule}, name {name} on a line of {reduces} earlier than {other}."
        )
    }

    /// Writes how a name of its own gives a rule a precedence.
    fn put_own<W: Write>(&self, out: &mut W, rule: usize) -> io::Result<()> {
        let name = self.asked.name();
        let line = match level_of(self.asked.grammar(), self.asked.token) {
            Some(_) => "the line of",
            None => "%right",
        };
        let low = fresh_name(self.asked.grammar());
        writeln!(
            out,
            "  To choose, write %right {low} above {line} {name}, and %prec {low} at the end of \
             rule {rule}: that shifts, and the other order of the lines reduces."
        )
    }

    /// Writes how the lines of two tokens choose, and whether a name of its own for the rule does.
    fn put_lines<W: Write>(
        &self,
        out: &mut W,
        rule: usize,
        (words, own): (Words, bool),
    ) -> io::Result<()> {
        let (shifts, reduces) = (words.shifts, words.reduces);
        let both = shifts.and(reduces);
        let (name, token) = (self.asked.name(), Name(self.asked.grammar(), words.giver));
        if both.any() {
            writeln!(
                out,
                "  To choose, name {name} and {token} on two lines of {both}: {name} on the later \
                 one shifts, {token} on it reduces."
            )?;
            return if own {
                self.put_own_too(out, rule, words.giver)
            } else {
                Ok(())
            };
        }
        if shifts.any() {
            writeln!(
                out,
                "  To shift {name}, name it and {token} on two lines of {shifts}, {name} on the \
                 later one."
            )?;
        }
        if reduces.any() {
            writeln!(
                out,
                "  To reduce by rule {rule}, name {name} and {token} on two lines of {reduces}, \
                 {token} on the later one."
            )?;
        }
        Ok(())
    }

    /// Writes that a name of its own for a rule does as well as the line of a token.
    fn put_own_too<W: Write>(&self, out: &mut W, rule: usize, giver: Sym) -> io::Result<()> {
        let grammar = self.asked.grammar();
        let (low, giver) = (fresh_name(grammar), Name(grammar, giver));
        writeln!(
            out,
            "  Or give rule {rule} a precedence of its own: %prec {low} at its end, and {low} in \
             place of {giver}."
        )
    }
}
