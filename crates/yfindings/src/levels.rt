//! Precedences that settle nothing, as bison seeks them: it compares the rules of a cell with the
//! shift one after the other, as long as the shift is there.

use crate::bodies::Body;
use crate::finding::{Finding, Idle, Seen, What, warning};
use crate::kinds::Kind;
use yexplain::lines::last_token;
use yexplain::reads::{Made, body_of, candidates_of, is_set, level_of, rule_of, set, shift_of};
use yforeign::directive::{Directive, directive_of, is_symbol};
use yforeign::groups::Head;
use yforeign::lexeme::{Kind as Form, Lexeme};
use ysymbols::{Associativity, Sym};

/// What the precedences of tokens settled.
#[derive(Drop)]
struct Settled {
    /// For each rule the token that gives it its precedence.
    givers: Vec<Option<Sym>>,
    /// The tokens that were above or below another one.
    by_level: Vec<bool>,
    /// Those whose direction counted.
    by_direction: Vec<bool>,
}

/// The symbol that `%prec` names in a body.
fn named_in(seen: &Seen<'_>, lexemes: &[Lexeme]) -> Made<Option<Sym>> {
    let mut is_named = false;
    for lexeme in lexemes {
        if is_named && is_symbol(lexeme.kind) {
            return seen.symbol(lexeme);
        }
        let text = seen.text(lexeme);
        is_named = lexeme.kind == Form::Word && directive_of(text) == Directive::Prec;
    }
    Ok(None)
}

/// The tokens that give rules their precedence.
pub fn givers_of(seen: &Seen<'_>, bodies: &[Body<'_>]) -> Made<Vec<Option<Sym>>> {
    let grammar = seen.grammar();
    let mut givers = vec![in seen.alloc; None; grammar.rules()]?;
    for body in bodies {
        let giver = match named_in(seen, body.lexemes)? {
            Some(named) => Some(named),
            None => last_token(grammar, body_of(grammar, body.rule)),
        };
        set(&mut givers, body.rule, giver);
    }
    Ok(givers)
}

impl Settled {
    /// Compares the rules of a cell with its shift.
    fn settle(&mut self, seen: &Seen<'_>, state: usize, token: Sym) {
        let grammar = seen.grammar();
        let Some(own) = level_of(grammar, token) else {
            return;
        };
        if shift_of(seen.tables, state, token).is_none() {
            return;
        }
        for candidate in candidates_of(seen.tables, state, token) {
            let level = rule_of(grammar, candidate.rule).and_then(|rule| rule.precedence());
            let giver = self.givers.get(candidate.rule).copied().flatten();
            let (Some(level), Some(giver)) = (level, giver) else {
                continue;
            };
            let is_level = level.level != own.level;
            if !is_level && seen.has_no_direction(own.level) {
                continue;
            }
            if is_level {
                set(&mut self.by_level, token, true);
                set(&mut self.by_level, giver, true);
            } else {
                set(&mut self.by_direction, token, true);
                set(&mut self.by_direction, giver, true);
            }
            let is_kept = if is_level {
                level.level < own.level
            } else {
                own.kind == Associativity::Right
            };
            if !is_kept {
                return;
            }
        }
    }
}

impl Seen<'_> {
    /// Whether a level comes from `%precedence`.
    pub fn has_no_direction(&self, level: usize) -> bool {
        let place = level.saturating_sub(1);
        self.imported.levels.get(place).copied().flatten().is_some()
    }
}

/// What of a token's precedence settled nothing.
fn idle_of(seen: &Seen<'_>, settled: &Settled, token: Sym) -> Option<Idle> {
    let level = level_of(seen.grammar(), token)?;
    let has_direction = !seen.has_no_direction(level.level);
    let by_level = is_set(&settled.by_level, token);
    let by_direction = is_set(&settled.by_direction, token);
    match (by_level, has_direction, by_direction) {
        (false, true, false) => Some(Idle::Both),
        (false, false, _) => Some(Idle::Level),
        (true, true, false) => Some(Idle::Direction),
        _ => None,
    }
}

/// Finds the tokens of a declaration whose precedence settles nothing, and that weren't shown yet.
fn find_idle<'a>(
    seen: &Seen<'a>,
    settled: &Settled,
    is_told: &mut [bool],
    lexemes: &'a [Lexeme],
    found: &mut Vec<Finding<'a>>,
) -> Made<()> {
    let at = lexemes.first().map_or(0, |word| word.span.from);
    for lexeme in lexemes {
        if !is_symbol(lexeme.kind) {
            continue;
        }
        let Some(token) = seen.symbol(lexeme)? else {
            continue;
        };
        if is_told.get(token) != Some(&false) {
            continue;
        }
        set(is_told, token, true);
        if let Some(idle) = idle_of(seen, settled, token) {
            let what = What::Idle(idle, seen.text(lexeme));
            found.push(warning(Kind::Precedence, at, what))?;
        }
    }
    Ok(())
}

/// Finds the precedences that settle nothing.
pub fn find_levels<'a>(
    seen: &Seen<'a>,
    bodies: &[Body<'a>],
    found: &mut Vec<Finding<'a>>,
) -> Made<()> {
    let symbols = seen.grammar().symbols();
    let mut settled = Settled {
        givers: givers_of(seen, bodies)?,
        by_level: vec![in seen.alloc; false; symbols]?,
        by_direction: vec![in seen.alloc; false; symbols]?,
    };
    for state in 0..seen.tables.automaton().states() {
        for token in 0..symbols {
            settled.settle(seen, state, token);
        }
    }
    let mut is_told = vec![in seen.alloc; false; symbols]?;
    for group in seen.groups {
        if let Head::Word(directive) = group.head {
            if directive.is_level() {
                find_idle(seen, &settled, &mut is_told, group.lexemes, found)?;
            }
        }
    }
    Ok(())
}
