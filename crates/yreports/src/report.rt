//! `ydebug conflicts`: the kinds of conflicts of each state with their rivals, what settled them,
//! and lists of tokens that get there; then the warnings.

use crate::also::try_hints;
use crate::ambiguity::{block_answers, put_answers};
use crate::ambiguity_text::AmbiguityText;
use crate::block_text::BlockText;
use crate::blocks::{Block, Blocks, blocks_of, category_of, shown_of};
use crate::cause_text::CauseText;
use crate::causes::{Causes, causes_of};
use crate::leading::put_leading;
use crate::lost::try_choices;
use crate::offer::Offer;
use crate::splitting::Splitter;
use crate::warnings::warnings_of;
use std::alloc::{AllocError, Global};
use std::io::{self, Write};
use std::rt::Files;
use yambiguity::answer::Ambiguities;
use yexplain::lines::Lines;
use yexplain::reads::{Made, body_of, grammar_of, items_of, left_of, next_of};
use yexplain::sources::sources_of;
use yfaults::opening::Opened;
use yfiles::category::Choice;
use yfiles::steady::Steady;
use ylists::kinds::{put_counts, put_named};
use ylists::list_text::{ListText, is_merged, put_unfound};
use ylists::saving::{Folder, put_failed};
use ymends::mending::{Mended, Mender};
use ymends::words::MendText;
use yparse::Session;
use yprovenance::Reasons;
use ysearch::finding::{Finding, Seeker, file_tokens};
use ysearch::groups::Conflicts;
use ysearch::trial::empty_session;
use ysymbols::{Grammar, Sym};
use ytables::Tables;
use yview::page::Page;

/// What is said of all changes that give precedences.
const MAY_LOSE: &str = "  Where a precedence can lose sentences, the conflict below says so.";

/// The most kinds that are named after those with lists.
const MOST_NAMED: usize = 1_000;

/// What stands before and after the numbers in the names of the files of lists.
pub const LIST_NAME: (&str, &str) = ("conflict-", "");

/// What is asked for: the conflicts of a grammar file, where to keep the lists, what is shown, and
/// what makes the status 1.
#[derive(Clone, Copy)]
pub struct Asked<'a> {
    /// The path of the grammar file.
    pub grammar: &'a str,
    /// The folder in which each list becomes a tokens file.
    pub save: Option<&'a str>,
    /// Whether each conflict is explained whole, also one that comes of the same cause as another.
    pub is_whole: bool,
    /// Which conflicts and warnings are shown, and which make the status 1.
    pub choice: Choice,
    /// Whether no conflict is accepted: then they make it 1 too.
    pub is_open: bool,
}

/// What conflicts are written with.
#[derive(Drop)]
struct Report<'a, F> {
    alloc: Global,
    /// The text of the blocks, which is kept until it is known which changes they offer.
    page: Page<Vec<u8>>,
    path: &'a str,
    lines: &'a Lines,
    folder: Folder<'a, F>,
    /// For how many more conflicts copies of nonterminals are tried.
    splits: Splitter,
    /// The conflicts that were told whole, by their numbers, and whether hints are offered for them.
    offers: Vec<(usize, bool)>,
}

/// The causes of the blocks that were told, each with the number of its first conflict.
#[derive(Drop)]
struct Told {
    causes: Vec<(usize, usize)>,
}

impl Told {
    /// The first conflict that was told of a cause; where there is none, this one is noted.
    fn first(&mut self, cause: Option<usize>, number: usize) -> Made<Option<usize>> {
        let Some(cause) = cause else {
            return Ok(None);
        };
        for (it, first) in &self.causes {
            if *it == cause {
                return Ok(Some(*first));
            }
        }
        self.causes.push((cause, number))?;
        Ok(None)
    }
}

/// What blocks are written with.
fn block_text<'t>(
    path: &'t str,
    lines: &'t Lines,
    tables: &'t Tables,
    offer: Offer,
) -> BlockText<'t> {
    BlockText {
        path,
        tables,
        lines,
        offer,
    }
}

/// Whether a token can be shifted in a state by a rule that begins with its own left side, and has
/// no more before the token.
fn shifts_behind(tables: &Tables, (state, token): (usize, Sym), left: Option<Sym>) -> bool {
    let grammar = grammar_of(tables);
    for item in items_of(tables.automaton(), state) {
        let is_its = item.dot == 1 && left_of(grammar, item.rule) == left;
        let first = body_of(grammar, item.rule).first().copied();
        if is_its && first == left && next_of(grammar, *item) == Some(token) {
            return true;
        }
    }
    false
}

/// Whether the conflicts of a block are those of operators: each rule ends with its left side, and
/// the token can be shifted after that, so that the grammar is ambiguous.
fn are_operators(tables: &Tables, block: &Block) -> bool {
    let grammar = grammar_of(tables);
    for class in &block.classes {
        for entry in &class.entries {
            let cell = (entry.group.state, entry.kind.token);
            for rule in entry.kind.others() {
                let left = left_of(grammar, *rule);
                let last = body_of(grammar, *rule).last().copied();
                if last != left || !shifts_behind(tables, cell, left) {
                    return false;
                }
            }
        }
    }
    true
}

/// The cause of a block, where causes are known: an idiom, or one of many conflicts.
fn cause_of(
    mender: &Mender,
    tables: &Tables,
    causes: Option<&Causes>,
    block: &Block,
) -> Option<usize> {
    let (kind, causes) = (&block.first.kind, causes?);
    if let Some(place) = mender.idiom_of(tables, kind) {
        return Some(place);
    }
    if kind.shift && !are_operators(tables, block) {
        return None;
    }
    let place = causes.of(block.first.number, kind)?;
    Some(mender.idioms.len().saturating_add(place))
}

impl<F: Files + AllocGlobal + Clone + Drop> Report<'_, F> {
    /// Writes the conflicts of the first states, with lists, as long as there are steps to seek
    /// them, and says how many kinds these are.
    fn put_blocks(
        &mut self,
        session: &mut Session,
        blocks: &Blocks,
        causes: Option<&Causes>,
    ) -> io::Result<usize> {
        let list = blocks.list.as_slice();
        let mut seeker = Seeker::new(self.alloc, session)?;
        let mut found = Ambiguities::new(self.alloc);
        let mut mender = Mender::new(self.alloc, seeker.session.tables())?;
        let (path, lines) = (self.path, self.lines);
        let mut last: Option<&Block> = None;
        let mut told = Told {
            causes: Vec::new(self.alloc),
        };
        for block in list {
            let is_beside = match last {
                Some(last) => last.first.is_beside(&block.first),
                None => false,
            };
            if !is_beside && !seeker.finder.has_steps() {
                return Ok(block.first.number);
            }
            last = Some(block);
            let text = block_text(path, lines, seeker.session.tables(), Offer::Hints);
            let cause = cause_of(&mender, text.tables, causes, block);
            if let Some(number) = told.first(cause, block.first.number)? {
                text.put_as(&mut self.page, block, number);
                continue;
            }
            self.put_whole((&mut seeker, &mut found, &mut mender), block)?;
        }
        Ok(blocks.kinds)
    }

    /// Writes all conflicts that are shown: the blocks, as far as there are steps, and the rest.
    fn put_shown(
        &mut self,
        session: &mut Session,
        found: &Conflicts,
        causes: Option<&Causes>,
    ) -> io::Result<()> {
        if found.groups.is_empty() {
            return Ok(());
        }
        self.folder.make()?;
        let (alloc, lines) = (self.alloc, self.lines);
        let mut blocks = blocks_of(alloc, session.tables(), lines, found)?;
        try_hints(alloc, session.tables(), lines, found, &mut blocks)?;
        try_choices(alloc, session.tables(), lines, &mut blocks)?;
        let first = self.put_blocks(session, &blocks, causes)?;
        self.put_rest(session.tables(), found, first, blocks.kinds);
        Ok(())
    }

    /// Writes a block whole: its first conflict, lists and sentences for its rivals, what is offered,
    /// what is known of the conflict beside, and what is otherwise on further tokens.
    fn put_whole(
        &mut self,
        (seeker, found, mender): (&mut Seeker<'_>, &mut Ambiguities, &mut Mender),
        block: &Block,
    ) -> io::Result<()> {
        let finding = seeker.find(&block.first.kind, block.first.group)?;
        let (asked, given) = ((block, &finding), mender.sentences());
        let answers = block_answers(self.alloc, seeker, found, asked, given)?;
        let (tables, lines) = (seeker.session.tables(), self.lines);
        let offer = Offer::of(&finding, &answers);
        let cells = (&block.first.kind, block.first.group);
        let mended = mender.mend(tables, lines, cells, offer.is_open())?;
        let offer = offer.beside(&mended);
        let offered = (block.first.number, offer.has_hints());
        self.offers.push(offered).map_err(AllocError::from)?;
        let text = AmbiguityText {
            grammar: grammar_of(tables),
            lines,
            trees: &found.trees,
        };
        self.put_block(tables, block, offer)?;
        self.put_finding(tables, block, &finding)?;
        put_answers(self.alloc, &mut self.page, text, &answers, mender.bound())?;
        self.put_known(tables, block, offer, (mender, &mended))
    }

    /// Writes what is offered for a block, what is known of it beside, and what is otherwise on
    /// further tokens.
    fn put_known(
        &mut self,
        tables: &Tables,
        block: &Block,
        offer: Offer,
        (mender, mended): (&Mender, &Mended),
    ) -> io::Result<()> {
        let (lines, grammar) = (self.lines, grammar_of(tables));
        let text = block_text(self.path, lines, tables, offer);
        text.put_offer(&mut self.page);
        MendText { grammar, lines }.put(&mut self.page, &mender.idioms, mended)?;
        text.put_further(&mut self.page, block);
        Ok(())
    }

    /// Writes the conflicts of a block, why they are settled so, what leads to the shift of the
    /// first one, and where its token comes from.
    fn put_block(&mut self, tables: &Tables, block: &Block, offer: Offer) -> Made<()> {
        block_text(self.path, self.lines, tables, offer).put(&mut self.page, block);
        let asked = block.first.cell(tables, self.lines);
        put_leading(self.alloc, &mut self.page, asked)?;
        let reasons = Reasons::of(self.alloc, tables.automaton())?;
        let sources = sources_of(self.alloc, &reasons, asked)?;
        let _ = asked.put_sources(&mut self.page, &sources);
        Ok(())
    }

    /// Writes the lists for the first conflict of a block.
    fn put_finding(&mut self, tables: &Tables, block: &Block, finding: &Finding) -> io::Result<()> {
        let entry = block.first;
        let number = entry.number.saturating_add(1);
        let text = ListText {
            tables,
            lines: self.lines,
            kind: &entry.kind,
            group: entry.group,
            lists: finding.lists.len(),
        };
        text.put_merged(&mut self.page, finding);
        let (alloc, lines) = (self.alloc, self.lines);
        if let Some(split) = self
            .splits
            .split(alloc, (tables, lines), &entry.kind, finding)?
        {
            split.put(&mut self.page, grammar_of(tables), lines)?;
        }
        for (part, list) in finding.lists.iter().enumerate() {
            text.put_list(&mut self.page, list);
            if let Some((tokens, last)) = file_tokens(list, entry.kind.token) {
                let (name, grammar) = ((number, part), grammar_of(tables));
                let page = &mut self.page;
                self.folder.keep(page, grammar, name, tokens, last)?;
            }
        }
        put_unfound(&mut self.page, finding);
        self.page.checked()
    }

    /// Names the kinds for which no lists are made: those after so many, which are all that stand
    /// in blocks, or fewer.
    fn put_rest(&mut self, tables: &Tables, found: &Conflicts, first: usize, all: usize) {
        let rest = found.groups.len().saturating_sub(first);
        if rest > 0 {
            self.page.end();
            self.page.count(rest, "group", "groups");
            self.page.line(if first < all {
                " more; the search for their lists of tokens would take too long:"
            } else {
                " more, without lists of tokens:"
            });
            let named = (first, first.saturating_add(MOST_NAMED));
            put_named(&mut self.page, tables, self.lines, found, named);
        }
    }
}

/// Writes how many conflicts there are; their blocks are sought after that.
fn put_counted<W: Write>(
    alloc: Global,
    page: &mut Page<W>,
    path: &str,
    (tables, lines): (&Tables, &Lines),
    found: &Conflicts,
) -> io::Result<()> {
    page.put(path);
    if found.cells == 0 {
        page.line(": no conflicts");
    } else {
        page.put(": ");
        let blocks = blocks_of(alloc, tables, lines, found)?;
        put_counts(page, tables, found, blocks.groups(found));
    }
    page.flush()
}

/// Writes what the conflicts come from, but for changes that no block offers.
fn put_causes<W: Write>(
    alloc: Global,
    page: &mut Page<W>,
    (grammar, lines): (&Grammar, &Lines),
    mut causes: Causes,
    offers: &[(usize, bool)],
) -> io::Result<()> {
    causes.keep_offered(alloc, (grammar, lines), offers)?;
    CauseText { grammar, lines }.put(&mut *page, &causes)?;
    if !causes.changes.is_empty() {
        page.line(MAY_LOSE);
    }
    page.checked()
}

/// Writes the conflicts of a grammar, with lists of tokens, and says which file couldn't be
/// written, if one couldn't.
fn put_lists<'a, W: Write, F: Files + AllocGlobal + Clone + Drop>(
    rt: &'a F,
    page: &mut Page<W>,
    asked: Asked<'a>,
    session: &mut Session,
    lines: &'a Lines,
    found: Conflicts,
) -> io::Result<Option<String>> {
    let (alloc, all) = (rt.alloc(), found.groups.len());
    put_counted(
        alloc,
        page,
        asked.grammar,
        (session.tables(), lines),
        &found,
    )?;
    let mut report = Report {
        alloc,
        page: Page::new(Vec::new(alloc), false),
        path: asked.grammar,
        lines,
        folder: Folder {
            rt,
            path: asked.save,
            name: LIST_NAME,
            failed: None,
        },
        splits: Splitter::new(),
        offers: Vec::new(alloc),
    };
    report.folder.clear()?;
    let causes = causes_of(alloc, session.tables(), lines, &found)?;
    let found = shown_of(alloc, found, asked.choice.shown)?;
    // causes know all kinds by their numbers
    let is_part = found.groups.len() < all;
    let known = if asked.is_whole || is_part {
        None
    } else {
        causes.as_ref()
    };
    report.put_shown(session, &found, known)?;
    let Report {
        page: text,
        folder,
        offers,
        ..
    } = report;
    if let Some(causes) = causes {
        let offers: &[(usize, bool)] = if is_part { &[] } else { &offers };
        let grammar = grammar_of(session.tables());
        put_causes(alloc, page, (grammar, lines), causes, offers)?;
    }
    text.checked()?;
    page.write_all(&text.into_out())?;
    let Folder { failed, .. } = folder;
    Ok(failed)
}

/// Writes the conflicts and the warnings of a grammar, and gives the exit status.
fn put_all<W: Write, E: Write, F: Files + AllocGlobal + Clone + Drop>(
    rt: &F,
    page: &mut Page<W>,
    errors: &mut E,
    asked: Asked<'_>,
    session: &mut Session,
    lines: &Lines,
) -> io::Result<u8> {
    let (alloc, choice) = (rt.alloc(), asked.choice);
    let found = Conflicts::new(alloc, session.tables())?;
    let mut is_bad = false;
    for (kind, _) in &found.groups {
        is_bad = is_bad || asked.is_open && choice.fails_by(category_of(kind));
    }
    let failed = put_lists(rt, &mut *page, asked, session, lines, found)?;
    let warnings = warnings_of(alloc, asked.grammar, session.tables(), lines)?;
    let mut warnings = warnings.only(alloc, choice.shown)?;
    if !warnings.all.is_empty() {
        page.end();
    }
    warnings.put(&mut *page, "ydebug")?;
    page.checked()?;
    let is_warned = warnings.judge_by(0, choice);
    let status = if is_bad || is_warned { 1 } else { 0 };
    put_failed(errors, failed.as_ref(), status)
}

/// Writes the conflicts and the warnings of a grammar that is open, and gives the exit status: 0;
/// 1 where there is one of these and that is to count; 3 where a list can't be written, which is
/// said on `errors`.
pub fn put_conflicts<W: Write, E: Write, F: Files + AllocGlobal + Clone + Drop>(
    rt: &F,
    out: &mut W,
    errors: &mut E,
    asked: Asked<'_>,
    opened: Opened,
) -> io::Result<u8> {
    let Opened { tables, lines } = opened;
    let mut session = empty_session(rt.alloc(), tables);
    // all lists are kept, or none, also where nobody reads the report any more
    let mut out = Steady::new(out, asked.save.is_some());
    let mut page = Page::new(&mut out, false);
    let status = put_all(rt, &mut page, errors, asked, &mut session, &lines)?;
    out.finish()?;
    Ok(status)
}
