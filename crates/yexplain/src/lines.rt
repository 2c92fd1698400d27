//! Where things stand in a grammar file: where each rule begins, and every place at which a symbol
//! is named.

use crate::reads::{Made, body_of, left_of, name_of};
use std::alloc::Global;
pub use yfiles::place::{Spot, Spots, newlines};
use ylexemes::part::Lexeme;
use ysymbols::{Grammar, Sym, let_go};
use ysyntax::{Mark, Role};

/// A symbol that a file names.
#[derive(Clone, Copy, Drop)]
pub struct Mention {
    /// The symbol.
    pub symbol: Sym,
    /// Where its name stands.
    pub spot: Spot,
    /// What the name is there for.
    pub role: Role,
}

/// A lexeme of the text of a grammar: where it stands, and what it is there for.
#[derive(Clone, Copy, Drop)]
pub struct Site {
    /// How many bytes stand before it.
    pub at: usize,
    /// Where the name of a left side ends, before its colon; of any other lexeme its own end.
    pub name_end: usize,
    /// How many bytes stand before what follows it.
    pub end: usize,
    /// What it is there for.
    pub role: Role,
}

impl Site {
    /// That of a lexeme with its role.
    fn of(mark: Mark<'_>) -> Site {
        let Mark { placed, role } = mark;
        let name_end = match placed.lexeme {
            Lexeme::CIdentifier(name) => placed.at.saturating_add(name.len()),
            _ => placed.end,
        };
        Site {
            at: placed.at,
            name_end,
            end: placed.end,
            role,
        }
    }
}

/// A rule: where it begins, and what its `%prec` names.
#[derive(Clone, Copy, Drop)]
struct Begun {
    spot: Spot,
    prec: Option<Sym>,
}

/// An action: the rule of the file that it stands in, and where it begins.
#[derive(Clone, Copy, Drop)]
struct Acted {
    rule: usize,
    spot: Spot,
}

/// Where the rules and symbols of a grammar stand in its file.
pub struct Lines {
    /// By number; none for rule 0.
    rules: Vec<Option<Begun>>,
    /// All places at which the file names a symbol, in its order.
    pub mentions: Vec<Mention>,
    /// The lexemes of the text that was read: of a file of bison, those of what it becomes.
    pub sites: Vec<Site>,
    /// Where the first mark stands.
    pub mark: Option<Spot>,
}

impl Drop for Lines {
    // A call in each owner, which keeps their proofs short.
    fn drop(self) {
        let_go!(self: Lines { rules, mentions, sites, mark });
    }
}

/// Where the lexemes of a file of these bytes stand.
pub fn spots_of(alloc: Global, source: &[u8], marks: &[Mark<'_>]) -> Made<Vec<Spot>> {
    let mut found = Vec::with_capacity(alloc, marks.len())?;
    let mut spots = Spots::new(source);
    for mark in marks {
        let (line, column) = spots.reach(mark.placed.at);
        let column = Some(column);
        found.push(Spot { line, column })?;
    }
    Ok(found)
}

/// What stands in a file, in its order.
#[derive(Drop)]
struct Places {
    rules: Vec<Begun>,
    actions: Vec<Acted>,
    mentions: Vec<Mention>,
}

/// The name that a lexeme is, where it is one.
pub fn name_in(lexeme: Lexeme<'_>) -> Option<&[u8]> {
    match lexeme {
        Lexeme::Name(name) | Lexeme::CIdentifier(name) => Some(name),
        _ => None,
    }
}

/// The symbol that a lexeme names.
pub fn symbol_of(grammar: &Grammar, lexeme: Lexeme<'_>) -> Option<Sym> {
    match lexeme {
        Lexeme::Name(name) | Lexeme::CIdentifier(name) => grammar.find(name),
        Lexeme::Literal(value) => grammar.find_literal(value),
        _ => None,
    }
}

impl Places {
    /// Takes a lexeme at a place in.
    fn take(&mut self, grammar: &Grammar, mark: Mark<'_>, spot: Spot) -> Made<()> {
        let Mark { placed, role } = mark;
        let names_symbol = matches!(
            role,
            Role::Start
                | Role::Declared
                | Role::Levelled
                | Role::Typed
                | Role::Left(_)
                | Role::Symbol(_)
                | Role::PrecName(_)
        );
        if let (true, Some(symbol)) = (names_symbol, symbol_of(grammar, placed.lexeme)) {
            if let (Role::PrecName(_), Some(rule)) = (role, self.rules.last_mut()) {
                rule.prec = Some(symbol);
            }
            self.mentions.push(Mention { symbol, spot, role })?;
        }
        match role {
            Role::Left(_) | Role::Bar(_) => self.rules.push(Begun { spot, prec: None })?,
            Role::Action(rule) => self.actions.push(Acted { rule, spot })?,
            _ => {}
        }
        Ok(())
    }

    /// The rules of the grammar by number. The rules of inner actions stand before the rule that
    /// they stand in, in the order of its actions.
    fn by_number(&self, alloc: Global, grammar: &Grammar) -> Made<Vec<Option<Begun>>> {
        let mut found = Vec::with_capacity(alloc, grammar.rules())?;
        let mut actions = self.actions.iter();
        let mut rule: usize = 0;
        found.push(None)?;
        for number in 1..grammar.rules() {
            if is_inner(grammar, number) {
                let spot = actions
                    .find(|action| action.rule == rule)
                    .map(|action| action.spot);
                found.push(spot.map(|spot| Begun { spot, prec: None }))?;
            } else {
                found.push(self.rules.get(rule).copied())?;
                rule = rule.saturating_add(1);
            }
        }
        Ok(found)
    }
}

/// Whether a rule is that of an inner action, whose left side no file can name.
pub fn is_inner(grammar: &Grammar, rule: usize) -> bool {
    left_of(grammar, rule).map_or(false, |left| name_of(grammar, left).starts_with(b"$$"))
}

/// The last token of a body.
pub fn last_token(grammar: &Grammar, body: &[Sym]) -> Option<Sym> {
    for symbol in body.iter().rev() {
        if grammar.is_token(*symbol) {
            return Some(*symbol);
        }
    }
    None
}

impl Lines {
    /// Where the rules and symbols of a grammar stand in the file that it was read from, by its
    /// source map and the places of the lexemes there. It fails only when memory runs out.
    pub fn new(
        alloc: Global,
        marks: &[Mark<'_>],
        spots: &[Spot],
        grammar: &Grammar,
    ) -> Made<Lines> {
        let mut places = Places {
            rules: Vec::new(alloc),
            actions: Vec::new(alloc),
            mentions: Vec::new(alloc),
        };
        for (mark, spot) in marks.iter().zip(spots) {
            places.take(grammar, *mark, *spot)?;
        }
        let rules = places.by_number(alloc, grammar)?;
        let Places { mentions, .. } = places;
        let mut sites = Vec::with_capacity(alloc, marks.len())?;
        for mark in marks {
            sites.push(Site::of(*mark))?;
        }
        let first = marks.iter().position(|mark| mark.role == Role::Mark);
        Ok(Lines {
            rules,
            mentions,
            sites,
            mark: first.and_then(|place| spots.get(place).copied()),
        })
    }

    /// Where a rule begins: at its name or its bar, or at its action where it is the rule of an
    /// inner one. `None` for rule 0 and for a number of no rule.
    pub fn spot(&self, number: usize) -> Option<Spot> {
        Some(self.rules.get(number).copied().flatten()?.spot)
    }

    /// The line on which a rule begins, likewise.
    pub fn rule(&self, number: usize) -> Option<usize> {
        Some(self.spot(number)?.line)
    }

    /// The symbol that the `%prec` of a rule names, where it has one.
    pub fn prec(&self, number: usize) -> Option<Sym> {
        self.rules.get(number).copied().flatten()?.prec
    }

    /// The token that gives a rule its precedence, or would: what its `%prec` names, or the last
    /// token of its body.
    pub fn giver(&self, grammar: &Grammar, number: usize) -> Option<Sym> {
        self.prec(number)
            .or(last_token(grammar, body_of(grammar, number)))
    }
}
