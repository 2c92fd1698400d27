//! The conflicts of a grammar as the page shows them, each with its lists of tokens.

use crate::cells::text_of;
use serde::Serialize;
use std::alloc::{AllocError, Global};
use std::io;
use yexplain::lines::Lines;
use yexplain::reads::Made;
use yfaults::opening::Opened;
use ylists::kinds::put_counts;
use ylists::list_text::{ListText, put_unfound};
use yparse::Session;
use yreports::blocks::{Block, blocks_of};
use yreports::brief::put_why;
use yreports::causes::{Causes, causes_of};
use ysearch::finding::{Finding, Seeker};
use ysearch::groups::{Conflicts, Group, Kind};
use ysearch::trial::empty_session;
use ysymbols::{Sym, let_go};
use ytables::Tables;
use yview::page::Page;

/// The most conflicts that a page shows.
const MOST_CARDS: usize = 200;

/// The conflicts of one state between the same rivals, by the first of them.
#[derive(Serialize)]
pub struct Card {
    /// The number of the first of them, from 1 on.
    number: usize,
    /// Which of the causes it has, where one is known.
    cause: Option<usize>,
    /// The first state that has it.
    pub state: usize,
    token: Sym,
    /// How many states have it.
    states: usize,
    /// Whether the shift is taken; where it isn't, the first rule is.
    shift: bool,
    rules: Vec<usize>,
    /// How many rules there are more.
    more: usize,
    why: String,
    /// What is said of each list of tokens that gets there.
    ways: Vec<String>,
    /// What is said where lists are missing.
    missing: String,
}

impl Drop for Card {
    // A call in each owner, which keeps their proofs short.
    fn drop(self) {
        let_go!(self: Card {
            number, cause, state, token, states, shift, rules, more, why, ways, missing
        });
    }
}

/// The conflicts of a grammar.
#[derive(Serialize)]
pub struct Cards {
    /// How many conflicts there are, in how many cells and groups, as a line.
    counts: String,
    /// How many conflicts the causes are of.
    all: usize,
    /// What the conflicts come from: how many do, the tokens that settle them by precedence lines,
    /// and the rule that then needs a precedence of its own, or the two rules they are between.
    causes: Vec<(usize, Vec<Sym>, Vec<usize>)>,
    /// The groups of conflicts, 200 at most.
    pub kinds: Vec<Card>,
    /// How many groups there are more.
    more: usize,
}

impl Drop for Cards {
    // A call in each owner, which keeps their proofs short.
    fn drop(self) {
        let_go!(self: Cards { counts, all, causes, kinds, more });
    }
}

/// What cards are made with.
#[derive(Clone, Copy)]
struct Maker<'a> {
    alloc: Global,
    tables: &'a Tables,
    lines: &'a Lines,
    kind: &'a Kind,
    group: Group,
    /// The number of the cause that it comes from, where one is known.
    cause: Option<usize>,
}

/// What was written on a page.
fn written(alloc: Global, page: Page<Vec<u8>>) -> io::Result<String> {
    page.checked()?;
    Ok(text_of(alloc, &page.into_out())?)
}

impl Maker<'_> {
    /// What is said of each list.
    fn ways(&self, finding: &Finding) -> io::Result<Vec<String>> {
        let mut ways = Vec::new(self.alloc);
        let text = ListText {
            tables: self.tables,
            lines: self.lines,
            kind: self.kind,
            group: self.group,
            lists: finding.lists.len(),
        };
        for list in &finding.lists {
            let mut page = Page::new(Vec::new(self.alloc), false);
            text.put_list(&mut page, list);
            let way = written(self.alloc, page)?;
            ways.push(way).map_err(AllocError::from)?;
        }
        Ok(ways)
    }

    /// The card of a block.
    fn card(&self, block: &Block, finding: &Finding) -> io::Result<Card> {
        let rules = Vec::from_slice(self.alloc, self.kind.rules())?;
        let taken = usize::from(!self.kind.shift);
        let all = self.kind.rivals.saturating_add(taken);
        let cell = self.kind.cell(self.group, self.tables, self.lines);
        let mut page = Page::new(Vec::new(self.alloc), false);
        put_unfound(&mut page, finding);
        let mut why = Page::new(Vec::new(self.alloc), false);
        put_why(&mut why, self.tables, self.lines, block);
        Ok(Card {
            number: block.first.number.saturating_add(1),
            cause: self.cause,
            state: cell.state,
            token: cell.token,
            states: self.group.states,
            shift: self.kind.shift,
            more: all.saturating_sub(rules.len()),
            rules,
            why: written(self.alloc, why)?,
            ways: self.ways(finding)?,
            missing: written(self.alloc, page)?,
        })
    }
}

/// Causes as the page has them.
fn causes_in(alloc: Global, causes: &Causes) -> Made<Vec<(usize, Vec<Sym>, Vec<usize>)>> {
    let mut list = Vec::new(alloc);
    for change in &causes.changes {
        let tokens = Vec::from_slice(alloc, &change.tokens)?;
        let mut rules = Vec::new(alloc);
        if let Some(rule) = change.rule {
            rules.push(rule)?;
        }
        list.push((change.settles, tokens, rules))?;
    }
    for ((taken, other), count) in causes.pairs.iter() {
        let rules = Vec::from_slice(alloc, &[*taken, *other])?;
        list.push((*count, Vec::new(alloc), rules))?;
    }
    Ok(list)
}

/// How many conflicts of their own kinds stand in a block.
fn kinds_in(block: &Block) -> usize {
    let mut count: usize = 0;
    for class in &block.classes {
        count = count.saturating_add(class.entries.len());
    }
    count
}

/// What is said of conflicts before their cards, of which there are none yet: groups are counted as
/// the report counts them.
fn begun_of(
    alloc: Global,
    tables: &Tables,
    found: &Conflicts,
    causes: Option<&Causes>,
    groups: usize,
) -> io::Result<Cards> {
    let mut page = Page::new(Vec::new(alloc), false);
    if found.cells > 0 {
        put_counts(&mut page, tables, found, groups);
    }
    Ok(Cards {
        counts: written(alloc, page)?,
        all: causes.map_or(0, |causes| causes.all),
        causes: match causes {
            Some(causes) => causes_in(alloc, causes)?,
            None => Vec::new(alloc),
        },
        kinds: Vec::new(alloc),
        more: groups,
    })
}

/// The cards of conflicts, sought in a session without tokens.
fn cards_of(
    alloc: Global,
    session: &mut Session,
    lines: &Lines,
    found: &Conflicts,
) -> io::Result<Cards> {
    let blocks = blocks_of(alloc, session.tables(), lines, found)?;
    let causes = causes_of(alloc, session.tables(), lines, found)?;
    let groups = blocks.groups(found);
    let mut cards = begun_of(alloc, session.tables(), found, causes.as_ref(), groups)?;
    let mut seeker = Seeker::new(alloc, session)?;
    for block in blocks.list.iter().take(MOST_CARDS) {
        let (kind, group) = (&block.first.kind, block.first.group);
        let finding = seeker.find(kind, group)?;
        let mut cause = None;
        if let Some(causes) = &causes {
            cause = causes.of(block.first.number, kind);
        }
        let maker = Maker {
            alloc,
            tables: seeker.session.tables(),
            lines,
            kind,
            group,
            cause,
        };
        let card = maker.card(block, &finding)?;
        cards.kinds.push(card).map_err(AllocError::from)?;
        let is_whole = groups == blocks.list.len();
        let shown = if is_whole { 1 } else { kinds_in(block) };
        cards.more = cards.more.saturating_sub(shown);
    }
    Ok(cards)
}

/// The cards of a grammar, and the grammar again. It fails only when memory runs out.
pub fn cards_by(alloc: Global, opened: Opened) -> io::Result<(Opened, Cards)> {
    let Opened { tables, lines } = opened;
    let mut session = empty_session(alloc, tables);
    let found = Conflicts::new(alloc, session.tables())?;
    let cards = cards_of(alloc, &mut session, &lines, &found)?;
    let tables = session.into_tables();
    Ok((Opened { tables, lines }, cards))
}
