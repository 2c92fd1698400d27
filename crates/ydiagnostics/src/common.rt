//! What many conflicts have in common, as data.

use crate::events::Events;
use crate::kinds::names_of;
use crate::sought::Sought;
use std::alloc::Global;
use yexplain::lines::Lines;
use yexplain::reads::Made;
use yreports::causes::Causes;
use ysymbols::Grammar;

/// A change that settles conflicts: these tokens get precedence lines, and a rule a name of its
/// own.
#[derive(Drop)]
struct ChangeSheet {
    tokens: Vec<String>,
    rule: Option<usize>,
    /// How many conflicts it settles beside those that changes before it do.
    settles: usize,
}

impl ChangeSheet {
    /// Adds it to a document.
    fn add_to(&self, events: &mut Events) {
        events.begin();
        events.texts("tokens", &self.tokens);
        events.number_if("rule", self.rule);
        events.number("settles", self.settles);
        events.end();
    }
}

/// Two rules between which conflicts are, whatever precedences they have.
#[derive(Drop)]
struct PairSheet {
    /// The one that is taken, and the one that isn't.
    taken: usize,
    rule: usize,
    conflicts: usize,
}

impl PairSheet {
    /// Adds it to a document.
    fn add_to(&self, events: &mut Events) {
        events.begin();
        events.number("taken", self.taken);
        events.number("rule", self.rule);
        events.number("conflicts", self.conflicts);
        events.end();
    }
}

/// A rule whose language others have too.
#[derive(Drop)]
struct CoveredSheet {
    rule: usize,
    /// Those by which its left side derives its body too.
    by: Vec<usize>,
    /// How many conflicts go without it.
    settles: usize,
}

impl CoveredSheet {
    /// Adds it to a document.
    fn add_to(&self, events: &mut Events) {
        events.begin();
        events.number("rule", self.rule);
        events.numbers("by", &self.by);
        events.number("settles", self.settles);
        events.end();
    }
}

/// What many conflicts have in common.
#[derive(Drop)]
pub struct CommonSheet {
    /// How many conflicts there are.
    conflicts: usize,
    changes: Vec<ChangeSheet>,
    pairs: Vec<PairSheet>,
    covered: Vec<CoveredSheet>,
}

impl CommonSheet {
    /// Adds it to a document.
    pub fn add_to(&self, events: &mut Events) {
        events.begin();
        events.number("conflicts", self.conflicts);
        events.begin_list("changes");
        for change in &self.changes {
            change.add_to(events);
        }
        events.end_list();
        events.begin_list("pairs");
        for pair in &self.pairs {
            pair.add_to(events);
        }
        events.end_list();
        events.begin_list("covered");
        for covered in &self.covered {
            covered.add_to(events);
        }
        events.end_list();
        events.end();
    }
}

/// What conflicts have in common, but for changes that nothing offers. What was sought is that for
/// all conflicts; where only some are shown, no change is told.
pub fn common_sheet(
    alloc: Global,
    (grammar, lines): (&Grammar, &Lines),
    causes: &mut Causes,
    sought: Option<&Sought>,
) -> Made<CommonSheet> {
    let mut offers = Vec::new(alloc);
    if let Some(sought) = sought {
        for (place, block) in sought.blocks.list.iter().enumerate() {
            if place < sought.answers.len() {
                let has_hints = sought.offer(place, block).has_hints();
                offers.push((block.first.number, has_hints))?;
            }
        }
    }
    causes.keep_offered(alloc, (grammar, lines), &offers)?;
    sheet_of(alloc, grammar, causes)
}

/// These causes as a sheet.
fn sheet_of(alloc: Global, grammar: &Grammar, causes: &Causes) -> Made<CommonSheet> {
    let mut sheet = CommonSheet {
        conflicts: causes.all,
        changes: Vec::new(alloc),
        pairs: Vec::new(alloc),
        covered: Vec::new(alloc),
    };
    for change in &causes.changes {
        sheet.changes.push(ChangeSheet {
            tokens: names_of(alloc, grammar, &change.tokens)?,
            rule: change.rule,
            settles: change.settles,
        })?;
    }
    for ((taken, rule), conflicts) in &causes.pairs {
        sheet.pairs.push(PairSheet {
            taken: *taken,
            rule: *rule,
            conflicts: *conflicts,
        })?;
    }
    for covered in &causes.covered {
        sheet.covered.push(CoveredSheet {
            rule: covered.rule,
            by: Vec::from_slice(alloc, &covered.by)?,
            settles: covered.settles,
        })?;
    }
    Ok(sheet)
}
