//! Conflicts that rules expect by themselves.

use crate::bodies::Body;
use crate::finding::{Finding, Seen, What, warning};
use crate::kinds::Kind;
use yexplain::reads::{Made, action_of, candidates_of, set};
use yforeign::directive::{Directive, directive_of};
use yforeign::lexeme::{Kind as Form, Lexeme};
use yforeign::numbers::number_of;
use ytables::{Action, Class};

/// How many shift/reduce conflicts each rule has.
fn counts_of(seen: &Seen<'_>) -> Made<Vec<usize>> {
    let (tables, grammar) = (seen.tables, seen.grammar());
    let mut counts = vec![in seen.alloc; 0usize; grammar.rules()]?;
    for state in 0..tables.automaton().states() {
        for token in 0..grammar.symbols() {
            if !matches!(action_of(tables, state, token), Action::Shift(_)) {
                continue;
            }
            for candidate in candidates_of(tables, state, token) {
                if candidate.standing.class() == Class::Rest {
                    let count = counts.get(candidate.rule).copied().unwrap_or(0);
                    set(&mut counts, candidate.rule, count.saturating_add(1));
                }
            }
        }
    }
    Ok(counts)
}

/// The number after a directive of a body, and where it stands.
fn expected_in(seen: &Seen<'_>, lexemes: &[Lexeme], wanted: Directive) -> Option<(usize, usize)> {
    let mut is_meant = false;
    let mut found = None;
    for lexeme in lexemes {
        let text = seen.text(lexeme);
        if is_meant && lexeme.kind == Form::Number {
            found = Some((number_of(text), lexeme.span.from));
        }
        is_meant = lexeme.kind == Form::Word && directive_of(text) == wanted;
    }
    found
}

/// Finds the rules that expect other numbers of conflicts than they have, or reduce/reduce
/// conflicts, which are for GLR parsers.
pub fn find_expected<'a>(
    seen: &Seen<'a>,
    bodies: &[Body<'a>],
    found: &mut Vec<Finding<'a>>,
) -> Made<()> {
    let mut counts: Vec<usize> = Vec::new(seen.alloc);
    for body in bodies {
        if let Some((_, at)) = expected_in(seen, body.lexemes, Directive::ExpectReduce) {
            found.push(warning(Kind::Other, at, What::RuleExpectsReduce))?;
        }
        let Some((expected, _)) = expected_in(seen, body.lexemes, Directive::Expect) else {
            continue;
        };
        if counts.is_empty() {
            counts = counts_of(seen)?;
        }
        let count = counts.get(body.rule).copied().unwrap_or(0);
        if count != expected {
            found.push(Finding {
                kind: None,
                at: Some(body.at),
                what: What::OtherInRule(body.rule, count, expected),
                before: None,
            })?;
        }
    }
    Ok(())
}
