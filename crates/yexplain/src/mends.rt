//! Mends: lines of precedence after all others that do what a hint says. Each is tried on its cell,
//! and so is what a hint leaves: conflicts with further rules.

use crate::advice::{Advice, Deed, Hint};
use crate::lines::{Lines, Spot};
use crate::question::Question;
use crate::reads::level_of;
use crate::rivals::Rivals;
use crate::supposed::{BOTTOM, Supposed, TOP, line, place_of};
use ysymbols::{Associativity, Grammar, Precedence, Sym};
use ytables::Action;

/// The words of lines, in the order in which they are tried.
const WORDS: [Associativity; 3] = [
    Associativity::Left,
    Associativity::Right,
    Associativity::Nonassoc,
];

/// One or two lines of precedence, to be written in front of the first mark.
#[derive(Clone, Copy, Drop)]
pub struct Mend {
    /// What comes of it.
    pub deed: Deed,
    /// The word of the lines.
    pub kind: Associativity,
    /// The token of the first line.
    pub first: Sym,
    /// The token of the second one, where there is one.
    pub second: Option<Sym>,
    /// Where the first mark stands.
    pub at: Spot,
}

/// Whether a token can be named on one more line: the file names it, and on no line so far.
fn is_free(grammar: &Grammar, lines: &Lines, token: Sym) -> bool {
    let mut mentions = lines.mentions.iter();
    level_of(grammar, token).is_none() && mentions.any(|it| it.symbol == token)
}

/// The tokens of the lines that an advice on a token asks for, in their order, where they can stand
/// after all others.
fn tokens_of(token: Sym, advice: Advice, deed: Deed) -> Option<(Sym, Option<Sym>)> {
    match (advice, deed) {
        (Advice::Both { .. }, _) | (Advice::Token(_), Deed::Shift) => Some((token, None)),
        (Advice::Rule(giver), Deed::Reduce) => Some((giver, None)),
        (Advice::Lines { words, .. }, Deed::Shift) => Some((words.giver, Some(token))),
        (Advice::Lines { words, .. }, Deed::Reduce) => Some((token, Some(words.giver))),
        _ => None,
    }
}

/// The lines that a hint on a cell asks for, for its shift or for its rule, where they can stand
/// after all others, and do that there.
pub fn mend_of(asked: Question<'_>, hint: Hint, deed: Deed) -> Option<Mend> {
    let Hint::Settle(rule, advice) = hint else {
        return None;
    };
    let (first, second) = tokens_of(asked.token, advice, deed)?;
    let (grammar, lines) = (asked.grammar(), asked.lines);
    let are_free = is_free(grammar, lines, first)
        && second.is_none_or(|token| is_free(grammar, lines, token));
    let at = lines.mark.filter(|_| are_free)?;
    let rivals = Rivals::new(asked);
    let action = match deed {
        Deed::Shift => rivals.shift,
        Deed::Reduce => Action::Reduce(rule),
    };
    for kind in WORDS {
        let supposed = Supposed {
            token: Some((first, line(BOTTOM, kind))),
            other: second.map(|token| (token, line(BOTTOM.saturating_add(1), kind))),
            ..rivals.supposed()
        };
        if rivals.is_done(supposed, action) {
            return Some(Mend {
                deed,
                kind,
                first,
                second,
                at,
            });
        }
    }
    None
}

/// The place just before another one, or just after it.
fn place_by(at: usize, is_before: bool) -> usize {
    if is_before {
        at.saturating_sub(1)
    } else {
        at.saturating_add(1)
    }
}

impl<'a> Rivals<'a> {
    /// The precedences where the shift or a rule is chosen as an advice says, by lines of this word;
    /// `None` where it asks for none.
    fn chosen(
        &self,
        (rule, advice): (usize, Advice),
        deed: Deed,
        kind: Associativity,
    ) -> Option<Supposed<'a>> {
        let (token, shifts) = (self.asked.token, deed == Deed::Shift);
        let own = match level_of(self.asked.grammar(), token) {
            Some(Precedence { level, kind }) => line(place_of(level), kind),
            None => line(BOTTOM, kind),
        };
        match advice {
            Advice::End | Advice::Inner | Advice::General => None,
            Advice::Both { .. } => Some(self.with_token(BOTTOM, kind)),
            Advice::Token(_) => {
                let at = if shifts { BOTTOM } else { TOP };
                Some(self.with_token(at, kind))
            }
            Advice::Rule(giver) => Some(self.with_giver(giver, place_by(own.level, shifts))),
            Advice::Own => Some(self.with_own(rule, place_by(own.level, shifts), own)),
            Advice::Lines { words, .. } => {
                let (first, second) = if shifts {
                    (words.giver, token)
                } else {
                    (token, words.giver)
                };
                Some(Supposed {
                    token: Some((first, line(BOTTOM, kind))),
                    other: Some((second, line(BOTTOM.saturating_add(1), kind))),
                    ..self.supposed()
                })
            }
        }
    }

    /// Whether the cell still counts a conflict, with further rules, where the shift or a rule is
    /// chosen as an advice says.
    pub fn leaves(&self, (rule, advice): (usize, Advice), deed: Deed) -> bool {
        let action = match deed {
            Deed::Shift => self.shift,
            Deed::Reduce => Action::Reduce(rule),
        };
        for kind in WORDS {
            let Some(supposed) = self.chosen((rule, advice), deed, kind) else {
                return false;
            };
            if let Some(cell) = self.contest.settled(supposed) {
                if cell.action == action {
                    return cell.shift_reduce > 0 || cell.reduce_reduce > 0;
                }
            }
        }
        false
    }

    /// Whether conflicts stay in the cell where a hint is followed: by the shift, and by the rule.
    pub fn left_by(&self, hint: Hint) -> (bool, bool) {
        let Hint::Settle(rule, advice) = hint else {
            return (false, false);
        };
        let (shift, reduce) = (Deed::Shift, Deed::Reduce);
        let shifts = advice.offers(shift) && self.leaves((rule, advice), shift);
        let reduces = advice.offers(reduce) && self.leaves((rule, advice), reduce);
        (shifts, reduces)
    }
}
