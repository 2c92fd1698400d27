//! The bodies of a file, each with its rule.

use crate::finding::Seen;
use yexplain::lines::is_inner;
use yexplain::reads::{Made, left_of};
use yforeign::directive::{Directive, directive_of, is_symbol};
use yforeign::groups::{Group, Head};
use yforeign::lexeme::{Kind, Lexeme};
use ysymbols::Sym;

/// A body.
#[derive(Clone, Copy)]
pub struct Body<'a> {
    /// Its number among those of the file, counted from 0.
    pub number: usize,
    /// Its rule.
    pub rule: usize,
    /// The left side.
    pub left: Sym,
    /// Where its name stands.
    pub head: usize,
    /// Where it begins: at what stands first in it, or else after the sign before it.
    pub at: usize,
    /// What stands in it.
    pub lexemes: &'a [Lexeme],
}

/// What stands at a place of a body: a symbol, or an action before the last place.
#[derive(Clone, Copy)]
pub struct Entry<'a> {
    /// Where it stands.
    pub at: usize,
    /// The symbol.
    pub symbol: Option<Sym>,
    /// The text of the action, with its braces; nothing where it is a symbol.
    pub action: &'a [u8],
    /// Its tag.
    pub tag: Option<&'a [u8]>,
}

/// A body, cut into its entries.
#[derive(Drop)]
pub struct Cut<'a> {
    /// Its entries.
    pub entries: Vec<Entry<'a>>,
    /// The action at its end.
    pub last: Option<&'a [u8]>,
    /// Whether `%empty` stands in it.
    pub says_empty: bool,
}

/// The lexemes after the sign before a body, up to the semicolon after it, and where that sign
/// ends.
pub fn after_sign<'a>(group: &Group<'a>) -> (&'a [Lexeme], usize) {
    let (mut rest, mut end) = (group.lexemes, 0);
    for (number, lexeme) in group.lexemes.iter().enumerate() {
        if matches!(lexeme.kind, Kind::Colon | Kind::Bar) {
            rest = group.lexemes.get(number.saturating_add(1)..).unwrap_or(&[]);
            end = lexeme.span.to;
            break;
        }
    }
    let semicolon = rest.iter().position(|it| it.kind == Kind::Semicolon);
    let length = semicolon.unwrap_or(rest.len());
    (rest.get(..length).unwrap_or(rest), end)
}

/// The bodies of a file, in its order: they have the rules but those of actions within bodies.
pub fn bodies_of<'a>(seen: &Seen<'a>) -> Made<Vec<Body<'a>>> {
    let grammar = seen.grammar();
    let mut rules = Vec::new(seen.alloc);
    for rule in 1..grammar.rules() {
        if !is_inner(grammar, rule) {
            rules.push(rule)?;
        }
    }
    let mut bodies = Vec::new(seen.alloc);
    let mut head = 0;
    for group in seen.groups {
        if !group.in_rules || !matches!(group.head, Head::Left | Head::Bar) {
            continue;
        }
        let number = bodies.len();
        let Some(rule) = rules.get(number).copied() else {
            break;
        };
        if let (Head::Left, Some(name)) = (group.head, group.lexemes.first()) {
            head = name.span.from;
        }
        let (lexemes, end) = after_sign(group);
        let at = lexemes.first().map_or(end, |first| first.span.from);
        let left = left_of(grammar, rule).unwrap_or(0);
        bodies.push(Body {
            number,
            rule,
            left,
            head,
            at,
            lexemes,
        })?;
    }
    Ok(bodies)
}

/// What stands between the signs of a tag.
pub fn tag_in<'a>(text: &'a [u8]) -> &'a [u8] {
    let end = text.len().saturating_sub(1);
    text.get(1..end).unwrap_or(&[]).trim_ascii()
}

impl<'a> Body<'a> {
    /// The entry of a symbol or an action, which has this tag of its own.
    fn entry(seen: &Seen<'a>, lexeme: &Lexeme, tag: Option<&'a [u8]>) -> Made<Entry<'a>> {
        let (at, text) = (lexeme.span.from, seen.text(lexeme));
        if lexeme.kind == Kind::Braced {
            return Ok(Entry {
                at,
                symbol: None,
                action: text,
                tag,
            });
        }
        let symbol = seen.symbol(lexeme)?;
        let tag = match symbol {
            Some(symbol) => seen.parts.tag_of(symbol),
            None => None,
        };
        Ok(Entry {
            at,
            symbol,
            action: b"",
            tag,
        })
    }

    /// Its entries, and the action at its end.
    pub fn cut(&self, seen: &Seen<'a>) -> Made<Cut<'a>> {
        let mut cut = Cut {
            entries: Vec::new(seen.alloc),
            last: None,
            says_empty: false,
        };
        let (mut is_named, mut tag) = (false, None);
        for lexeme in self.lexemes {
            let is_passed = is_named;
            is_named = false;
            match lexeme.kind {
                Kind::Word => {
                    let is_empty = directive_of(seen.text(lexeme)) == Directive::Empty;
                    cut.says_empty = cut.says_empty || is_empty;
                    is_named = !is_empty;
                }
                Kind::Tag => tag = Some(tag_in(seen.text(lexeme))),
                kind if kind == Kind::Braced || (is_symbol(kind) && !is_passed) => {
                    let entry = Body::entry(seen, lexeme, tag)?;
                    cut.entries.push(entry)?;
                    tag = None;
                }
                _ => {}
            }
        }
        cut.last = match cut.entries.last() {
            Some(entry) if !entry.action.is_empty() => Some(entry.action),
            _ => None,
        };
        if cut.last.is_some() {
            let _ = cut.entries.pop();
        }
        Ok(cut)
    }

    /// The place of the symbol that has a name in it; that of the left side is 0.
    pub fn place_of(&self, seen: &Seen<'a>, name: &[u8]) -> Option<usize> {
        for named in seen.parts.names_in(self.number) {
            if named.name == name {
                return Some(named.place);
            }
        }
        None
    }
}
