//! Names, rules and items as they are written.

use crate::lines::Lines;
use crate::reads::{body_of, left_of, name_of};
use std::fmt::{self, Display};
use ylalr::Item;
use ysymbols::{Grammar, Sym};

/// Some bytes, each as the character of its value.
#[derive(Clone, Copy)]
pub struct Bytes<'a>(pub &'a [u8]);

impl fmt::Display for Bytes<'_> {
    fn fmt<W: fmt::Write>(&self, f: &mut fmt::Formatter<W>) -> fmt::Result {
        for byte in self.0 {
            f.write_char(char::from(*byte))?;
        }
        Ok(())
    }
}

/// Some bytes, those that aren't printed as hexadecimal digits after `\\x`.
#[derive(Clone, Copy)]
pub struct Escaped<'a>(pub &'a [u8]);

impl fmt::Display for Escaped<'_> {
    fn fmt<W: fmt::Write>(&self, f: &mut fmt::Formatter<W>) -> fmt::Result {
        for byte in self.0 {
            if byte.is_ascii_graphic() || *byte == b' ' {
                f.write_char(char::from(*byte))?;
            } else {
                write!(f, "\\x{byte:02x}")?;
            }
        }
        Ok(())
    }
}

/// A symbol by its printed name.
#[derive(Clone, Copy)]
pub struct Name<'a>(pub &'a Grammar, pub Sym);

impl fmt::Display for Name<'_> {
    fn fmt<W: fmt::Write>(&self, f: &mut fmt::Formatter<W>) -> fmt::Result {
        Bytes(name_of(self.0, self.1)).fmt(f)
    }
}

/// Symbols by their printed names, with a space before each.
#[derive(Clone, Copy)]
pub struct Names<'a>(pub &'a Grammar, pub &'a [Sym]);

impl fmt::Display for Names<'_> {
    fn fmt<W: fmt::Write>(&self, f: &mut fmt::Formatter<W>) -> fmt::Result {
        for symbol in self.1 {
            f.write_char(' ')?;
            Bytes(name_of(self.0, *symbol)).fmt(f)?;
        }
        Ok(())
    }
}

/// A rule: its left side, a colon, its body.
#[derive(Clone, Copy)]
pub struct RuleText<'a>(pub &'a Grammar, pub usize);

impl fmt::Display for RuleText<'_> {
    fn fmt<W: fmt::Write>(&self, f: &mut fmt::Formatter<W>) -> fmt::Result {
        let body = body_of(self.0, self.1);
        put_left(f, self.0, self.1)?;
        Names(self.0, body).fmt(f)?;
        if body.is_empty() {
            return f.write_str(" (empty)");
        }
        Ok(())
    }
}

/// Writes the left side of a rule and a colon.
fn put_left<W: fmt::Write>(
    f: &mut fmt::Formatter<W>,
    grammar: &Grammar,
    rule: usize,
) -> fmt::Result {
    if let Some(left) = left_of(grammar, rule) {
        Name(grammar, left).fmt(f)?;
    }
    f.write_char(':')
}

/// An item: its rule with a period where the dot is.
#[derive(Clone, Copy)]
pub struct ItemText<'a>(pub &'a Grammar, pub Item);

impl fmt::Display for ItemText<'_> {
    fn fmt<W: fmt::Write>(&self, f: &mut fmt::Formatter<W>) -> fmt::Result {
        let body = body_of(self.0, self.1.rule);
        put_left(f, self.0, self.1.rule)?;
        Names(self.0, body.get(..self.1.dot).unwrap_or(body)).fmt(f)?;
        f.write_str(" .")?;
        Names(self.0, body.get(self.1.dot..).unwrap_or(&[])).fmt(f)
    }
}

/// A rule's number, with the line on which it begins where that is known: `rule 5 (line 12)`.
#[derive(Clone, Copy)]
pub struct Numbered<'a>(pub &'a Lines, pub usize);

impl fmt::Display for Numbered<'_> {
    fn fmt<W: fmt::Write>(&self, f: &mut fmt::Formatter<W>) -> fmt::Result {
        let number = self.1;
        match self.0.rule(number) {
            Some(line) => write!(f, "rule {number} (line {line})"),
            None => write!(f, "rule {number}"),
        }
    }
}
