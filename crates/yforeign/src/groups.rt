//! The lexemes of a file in groups: declarations, code, marks, and the alternatives of rules.

use crate::directive::{Directive, directive_of};
use crate::lexeme::{Kind, Lexeme};
use std::alloc::{AllocError, Global};

/// How a group begins.
#[derive(Clone, Copy, Drop, PartialEq, Eq)]
pub enum Head {
    /// A directive.
    Word(Directive),
    /// A code block.
    Code,
    /// `%%`.
    Mark,
    /// The left side of a rule.
    Left,
    /// A bar, which begins another rule with the same left side.
    Bar,
    /// What begins no group, at the start of the file.
    Stray,
}

/// The lexemes of one declaration or alternative, and whether they stand between the marks.
#[derive(Clone, Copy)]
pub struct Group<'a> {
    /// How it begins.
    pub head: Head,
    /// Its lexemes, that of its head first.
    pub lexemes: &'a [Lexeme],
    /// Whether it stands after the first mark.
    pub in_rules: bool,
}

/// Whether a name is the left side of a rule, with what stands after it.
fn is_left(after: &[Lexeme]) -> bool {
    match after {
        [next, ..] if next.kind == Kind::Colon => true,
        [next, colon, ..] => next.kind == Kind::Reference && colon.kind == Kind::Colon,
        _ => false,
    }
}

/// How a lexeme begins a group, where it does, with what stands after it.
fn head_of(source: &[u8], lexeme: &Lexeme, after: &[Lexeme], in_rules: bool) -> Option<Head> {
    match lexeme.kind {
        Kind::Mark => Some(Head::Mark),
        Kind::Code => Some(Head::Code),
        Kind::Bar if in_rules => Some(Head::Bar),
        Kind::Name if in_rules && is_left(after) => Some(Head::Left),
        Kind::Word => match directive_of(lexeme.text(source)) {
            Directive::Prec | Directive::Empty | Directive::Expect | Directive::ExpectReduce
                if in_rules => None,
            directive => Some(Head::Word(directive)),
        },
        _ => None,
    }
}

/// Where a group begins, and how.
#[derive(Clone, Copy, Drop)]
struct Start {
    head: Head,
    at: usize,
    in_rules: bool,
}

/// Where groups begin.
fn starts_of(alloc: Global, source: &[u8], lexemes: &[Lexeme]) -> Result<Vec<Start>, AllocError> {
    let mut starts = Vec::new(alloc);
    let mut in_rules = false;
    for (at, lexeme) in lexemes.iter().enumerate() {
        let after = lexemes.get(at.saturating_add(1)..).unwrap_or(&[]);
        let head = match head_of(source, lexeme, after, in_rules) {
            None if at == 0 => Some(Head::Stray),
            head => head,
        };
        if let Some(head) = head {
            starts.push(Start { head, at, in_rules })?;
            in_rules = in_rules || head == Head::Mark;
        }
    }
    Ok(starts)
}

/// The groups of a file, in its order.
pub fn groups_of<'a>(
    alloc: Global,
    source: &[u8],
    lexemes: &'a [Lexeme],
) -> Result<Vec<Group<'a>>, AllocError> {
    let starts = starts_of(alloc, source, lexemes)?;
    let mut groups = Vec::with_capacity(alloc, starts.len())?;
    for (number, start) in starts.iter().enumerate() {
        let next = starts.get(number.saturating_add(1));
        let end = next.map_or(lexemes.len(), |next| next.at);
        groups.push(Group {
            head: start.head,
            lexemes: lexemes.get(start.at..end).unwrap_or(&[]),
            in_rules: start.in_rules,
        })?;
    }
    Ok(groups)
}
