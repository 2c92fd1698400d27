//! What is sought for the rivals of a block beside lists of tokens that get there: a sentence with
//! two trees, or a sentence for each.

use crate::ambiguity_text::AmbiguityText;
use crate::blocks::{Block, Entry};
use std::alloc::Global;
use std::io::{self, Write};
use yambiguity::answer::{Ambiguities, Answer, Rivals};
use yambiguity::choice::{Cell, Choice};
use yexplain::reads::Made;
use ysearch::finding::{Allows, Finding, Seeker};
use ysymbols::Sym;
use yview::page::Page;

/// The most rules of a block that are set against what is taken.
const MOST_RULES: usize = 3;

/// The most conflicts of a block for which a sentence with two trees is sought.
const MOST_SOUGHT: usize = 40;

/// Which rivals a list allows that was found for a rule.
fn allows_of(finding: &Finding, rule: usize) -> Option<Allows> {
    for list in &finding.lists {
        if list.rules.contains(&rule) {
            return Some(list.allows);
        }
    }
    None
}

/// Whether the lists that were found for two rivals allow both; `None` where they need no further
/// search.
fn are_both(finding: &Finding, rivals: Rivals) -> Option<bool> {
    let allows = allows_of(finding, rivals.second)?;
    let lacks = match rivals.first.rule() {
        Some(rule) => allows_of(finding, rule).is_none(),
        None => false,
    };
    match allows {
        Allows::Both => Some(true),
        Allows::One if !lacks => Some(false),
        Allows::One | Allows::Found => None,
    }
}

/// What is taken in the first cell of a conflict, and a rule that isn't.
pub fn rivals_of(entry: &Entry, rule: usize) -> Rivals {
    Rivals {
        cell: Cell {
            state: entry.group.state,
            token: entry.kind.token,
        },
        first: entry.kind.taken().map_or(Choice::Shift, Choice::Reduce),
        second: rule,
    }
}

/// What can be found for a conflict: for what is taken and each of the first rules beside it, up to
/// one with which there is a sentence with two trees; a sentence for each where these are wanted.
/// Some sentences are given, among which ones with two trees are sought too.
pub fn answers_of(
    alloc: Global,
    seeker: &mut Seeker<'_>,
    found: &mut Ambiguities,
    (entry, finding): (&Entry, &Finding),
    wanted: (bool, &[Vec<Sym>]),
) -> Made<Vec<Answer>> {
    let mut answers = Vec::new(alloc);
    for rule in entry.kind.others().iter().take(MOST_RULES) {
        let rivals = rivals_of(entry, *rule);
        let Some(are_both) = are_both(finding, rivals) else {
            continue;
        };
        let tables = seeker.session.tables();
        let asked = (rivals, are_both);
        let answer = found.seek(tables, &mut seeker.finder, asked, wanted)?;
        let is_last = answer.twins.is_some();
        answers.push(answer)?;
        if is_last {
            break;
        }
    }
    Ok(answers)
}

/// Whether a sentence with two trees is among what was found.
pub fn are_twins(answers: &[Answer]) -> bool {
    for answer in answers {
        if answer.twins.is_some() {
            return true;
        }
    }
    false
}

/// What can be found for the first conflict of a block; where that is no sentence with two trees,
/// one for another of its conflicts, if there is one.
pub fn block_answers(
    alloc: Global,
    seeker: &mut Seeker<'_>,
    found: &mut Ambiguities,
    (block, finding): (&Block, &Finding),
    given: &[Vec<Sym>],
) -> io::Result<Vec<Answer>> {
    let asked = (&block.first, finding);
    let answers = answers_of(alloc, seeker, found, asked, (true, given))?;
    let mut left = if answers.is_empty() || are_twins(&answers) {
        0
    } else {
        MOST_SOUGHT
    };
    for class in &block.classes {
        for entry in &class.entries {
            let is_done = entry.number == block.first.number || !seeker.finder.has_steps();
            if left == 0 || is_done {
                continue;
            }
            left = left.saturating_sub(1);
            let other = seeker.find(&entry.kind, entry.group)?;
            let others = answers_of(alloc, seeker, found, (entry, &other), (false, given))?;
            if are_twins(&others) {
                return Ok(others);
            }
        }
    }
    Ok(answers)
}

/// Writes what was found for a conflict of a block; the given sentences were so many, of up to so
/// many tokens.
pub fn put_answers<W: Write>(
    alloc: Global,
    page: &mut Page<W>,
    text: AmbiguityText<'_>,
    answers: &[Answer],
    (most, count): (usize, usize),
) -> Made<()> {
    for answer in answers {
        if let Some(twins) = &answer.twins {
            return text.put_twins(alloc, page, twins);
        }
    }
    let (mut is_sought, mut is_whole) = (false, true);
    for answer in answers {
        is_sought = is_sought || answer.is_sought;
        is_whole = is_whole && answer.is_whole;
    }
    if is_sought && count > 0 && is_whole {
        let _ = writeln!(
            page,
            "  None of the sentences of up to {most} tokens ({count}) has two trees here."
        );
    } else if is_sought {
        page.line("  No sentence with two trees was found.");
    }
    let mut written = Vec::new(alloc);
    for answer in answers {
        text.put_apart(page, answer, &mut written)?;
    }
    Ok(())
}
