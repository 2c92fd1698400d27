//! What is offered to choose by in a conflict: precedences, unless no ambiguity was found.

use crate::ambiguity::are_twins;
use yambiguity::answer::Answer;
use ylists::list_text::is_merged;
use ymends::mending::Mended;
use ysearch::finding::{Allows, Finding};

/// What is offered.
#[derive(Clone, Copy)]
pub enum Offer {
    /// What the hints say.
    Hints,
    /// Nothing, since no ambiguity was found.
    Lookahead,
    /// Nothing, since the conflict comes of merged states; whether canonical sets don't have it.
    Split(bool),
    /// Nothing, since the conflict comes of an idiom, which precedences don't mend.
    Idiom,
}

/// Why no choice is offered: in a grammar that isn't ambiguous sentences need each of the rivals.
const LOSES: &str =
    "Unless the grammar is ambiguous here, each choice loses sentences, so none is offered.";

impl Offer {
    /// What is offered for a block of conflicts of which this was found.
    pub fn of(finding: &Finding, answers: &[Answer]) -> Offer {
        if answers.is_empty() || are_twins(answers) {
            Offer::Hints
        } else if is_merged(finding) {
            let mut is_each = true;
            for list in &finding.lists {
                is_each = is_each && list.allows == Allows::One;
            }
            Offer::Split(is_each)
        } else {
            Offer::Lookahead
        }
    }

    /// What is offered where a conflict comes of an idiom, or doesn't.
    pub fn beside(self, mended: &Mended) -> Offer {
        match mended.idiom {
            Some(_) => Offer::Idiom,
            None => self,
        }
    }

    /// Whether no ambiguity was found.
    pub fn is_open(self) -> bool {
        matches!(self, Offer::Lookahead | Offer::Split(_))
    }

    /// Whether hints are offered.
    pub fn has_hints(self) -> bool {
        matches!(self, Offer::Hints)
    }

    /// Its name, as data.
    pub fn name(self) -> &'static str {
        match self {
            Offer::Hints => "hints",
            Offer::Lookahead => "lookahead",
            Offer::Split(_) => "split",
            Offer::Idiom => "idiom",
        }
    }

    /// Sentences that say why there are no hints, and what helps.
    pub fn reasons(self) -> &'static [&'static str] {
        match self {
            Offer::Hints | Offer::Idiom => &[],
            Offer::Lookahead => &[
                LOSES,
                "If more lookahead decides, write what the rules begin with once, so that the choice \
                 comes later, or let the lexer tell tokens apart.",
            ],
            Offer::Split(false) => &[LOSES],
            Offer::Split(true) => &[
                LOSES,
                "It isn't there in canonical sets, as bison makes them by %define lr.type \
                 canonical-lr, or as far as they are needed by %define lr.type ielr.",
            ],
        }
    }
}
