//! Which sentences a choice loses. Each choice that a hint offers is tried by tables of its own: on
//! all sentences of a few tokens, and on longer ones, of which each comes to a conflict.

use crate::ambiguity::rivals_of;
use crate::blocks::{Block, Blocks, Loss};
use crate::short::short_sentences;
use std::alloc::Global;
use std::io::{self, Write};
use yambiguity::answer::Ambiguities;
use yexplain::advice::{Advice, Deed, Hint};
use yexplain::lines::Lines;
use yexplain::mends::{Mend, mend_of};
use yexplain::reads::{Made, grammar_of};
use yexplain::text::Names;
use yexplain::why::Question;
use ymends::changed::tables_after;
use ymends::changed_text::{Change, directive_of};
use ymends::language::{accepts, renamed};
use ymends::rewriting::Rewriting;
use ysearch::search::Finder;
use ysymbols::{Grammar, Sym};
use ytables::Tables;
use yview::page::Page;

/// The most blocks of conflicts to which longer sentences come, and how many of their conflicts'
/// rules are looked at.
const MOST_BLOCKS: usize = 40;

const MOST_RULES: usize = 2;

/// The most classes of conflicts whose choices are tried.
const MOST_CLASSES: usize = 40;

/// The most states of tables that are made anew.
const MOST_STATES: usize = 800;

/// How many steps the search for longer sentences may take, and all parses over sentences.
const ALL_STEPS: usize = 4_000_000;

const ALL_PARSES: usize = 3_000_000;

/// Sentences that tables accept.
#[derive(Drop)]
struct Pool {
    sentences: Vec<Vec<Sym>>,
    /// How many of them, the first ones, are all that have up to so many tokens.
    short: usize,
    most: usize,
    /// How many steps parses over them may still take.
    left: usize,
}

impl Pool {
    /// All short sentences, and those that come to the first conflicts of blocks and are accepted.
    fn of(alloc: Global, tables: &Tables, blocks: &Blocks) -> Made<Pool> {
        let short = short_sentences(alloc, tables)?;
        let mut pool = Pool {
            short: short.sentences.len(),
            most: short.most,
            sentences: short.sentences,
            left: ALL_PARSES,
        };
        let mut finder = Finder::new(alloc, tables.automaton())?;
        finder.steps.left = ALL_STEPS;
        let mut found = Ambiguities::new(alloc);
        for block in blocks.list.iter().take(MOST_BLOCKS) {
            pool.add_longer(alloc, tables, (&mut finder, &mut found), block)?;
        }
        Ok(pool)
    }

    /// Adds the longer sentences that come to the first conflicts of a block's classes, one for each
    /// rival.
    fn add_longer(
        &mut self,
        alloc: Global,
        tables: &Tables,
        (finder, found): (&mut Finder, &mut Ambiguities),
        block: &Block,
    ) -> Made<()> {
        for class in &block.classes {
            let Some(entry) = class.entries.first() else {
                continue;
            };
            for rule in entry.kind.others().iter().take(MOST_RULES) {
                if !finder.has_steps() {
                    return Ok(());
                }
                for sentence in &found.each(tables, finder, rivals_of(entry, *rule))? {
                    let tokens = sentence.tokens.as_slice();
                    let is_longer = tokens.len() > self.most;
                    if is_longer && accepts(alloc, tables, tokens, &mut self.left)? == Some(true) {
                        self.sentences.push(Vec::from_slice(alloc, tokens)?)?;
                    }
                }
            }
        }
        Ok(())
    }

    /// What comes of a choice, by tables with it; `None` where that takes too many steps.
    fn loss(
        &mut self,
        alloc: Global,
        grammar: &Grammar,
        tables: &Tables,
        (deed, by): (Deed, By),
    ) -> Made<Option<Loss>> {
        let (mut lost, mut first) = (0usize, Vec::new(alloc));
        let (chosen, mut left, mut is_whole) = (grammar_of(tables), self.left, true);
        for sentence in &self.sentences {
            let is_kept = match renamed(alloc, grammar, chosen, sentence)? {
                Some(tokens) => accepts(alloc, tables, &tokens, &mut left)?,
                None => Some(false),
            };
            is_whole = is_whole && is_kept.is_some();
            if is_kept == Some(false) {
                if lost == 0 {
                    first.extend_from_slice(sentence)?;
                }
                lost = lost.saturating_add(1);
            }
        }
        self.left = left;
        Ok(is_whole.then_some(Loss {
            deed,
            word: by.word,
            rule: by.rule,
            short: self.short,
            most: self.most,
            longer: self.sentences.len().saturating_sub(self.short),
            lost,
            first,
        }))
    }
}

/// What makes a choice: lines of this word, or a rule in front.
#[derive(Clone, Copy, Drop)]
struct By {
    word: &'static str,
    rule: Option<usize>,
}

/// The change by which the next rule of a cell without a shift is taken: it is put in front.
fn order_of(asked: Question<'_>) -> Option<(Change, By)> {
    let before = asked.candidates().next()?.rule;
    let rule = asked.candidates().skip(1).next()?.rule;
    let by = By {
        word: "",
        rule: Some(rule),
    };
    Some((Change::Rewritten(Rewriting::First { rule, before }), by))
}

/// The change that makes a choice that a hint on a cell offers, and what makes it, where that is one
/// or two lines after all others, a precedence of the rule's own, or the order of two rules.
fn change_of(asked: Question<'_>, hint: Hint, deed: Deed) -> Option<(Change, By)> {
    if hint == Hint::First && deed == Deed::Reduce {
        return order_of(asked);
    }
    let lines = |word| By { word, rule: None };
    if let Hint::Settle(rule, Advice::Own) = hint {
        let (token, shifts) = (asked.token, deed == Deed::Shift);
        let change = Change::Own {
            rule,
            token,
            shifts,
        };
        return Some((change, lines("%prec")));
    }
    let Mend {
        kind,
        first,
        second,
        ..
    } = mend_of(asked, hint, deed)?;
    let change = Change::Lines {
        kind,
        first,
        second,
    };
    Some((change, lines(directive_of(kind))))
}

/// Whether a hint of some class of conflicts offers a choice that can be tried.
fn have_changes(tables: &Tables, lines: &Lines, blocks: &Blocks) -> bool {
    for block in &blocks.list {
        for class in &block.classes {
            if let (Some(entry), Some(hint)) = (class.entries.first(), class.settled.hint) {
                let asked = entry.cell(tables, lines);
                for deed in [Deed::Shift, Deed::Reduce] {
                    if change_of(asked, hint, deed).is_some() {
                        return true;
                    }
                }
            }
        }
    }
    false
}

/// Tries the choices that are offered in the first classes of conflicts on sentences, unless there
/// are too many states.
pub fn try_choices(alloc: Global, tables: &Tables, lines: &Lines, blocks: &mut Blocks) -> Made<()> {
    let grammar = grammar_of(tables);
    if tables.automaton().states() > MOST_STATES || blocks.list.is_empty() {
        return Ok(());
    }
    if !have_changes(tables, lines, blocks) {
        return Ok(());
    }
    let mut pool = Pool::of(alloc, tables, blocks)?;
    if pool.sentences.is_empty() {
        return Ok(());
    }
    let mut left = MOST_CLASSES;
    for block in blocks.list.iter_mut() {
        for class in block.classes.iter_mut() {
            let (Some(entry), Some(hint)) = (class.entries.first(), class.settled.hint) else {
                continue;
            };
            if left == 0 {
                return Ok(());
            }
            left = left.saturating_sub(1);
            for deed in [Deed::Shift, Deed::Reduce] {
                if let Some((change, by)) = change_of(entry.cell(tables, lines), hint, deed) {
                    if let Some(chosen) = tables_after(alloc, grammar, lines, change)? {
                        let loss = pool.loss(alloc, grammar, &chosen, (deed, by))?;
                        if let Some(loss) = loss {
                            class.losses.push(loss)?;
                        }
                    }
                }
            }
        }
    }
    Ok(())
}

/// Writes on which sentences choices were tried.
fn put_tried<W: Write>(page: &mut Page<W>, first: &Loss) {
    if first.short == 0 {
        page.put("Tried on longer sentences (");
        page.number(first.longer);
        page.put(")");
        return;
    }
    page.put("Tried on all sentences of up to ");
    page.number(first.most);
    page.put(" tokens (");
    page.number(first.short);
    page.put(")");
    if first.longer > 0 {
        page.put(", and on ");
        page.count(first.longer, "longer one", "longer ones");
    }
}

/// Writes which choice it is, and how many sentences it loses.
fn put_loss<W: Write>(page: &mut Page<W>, grammar: &Grammar, loss: &Loss) {
    match (loss.rule, loss.deed) {
        (Some(rule), _) => {
            page.put(" rule ");
            page.number(rule);
            page.put(" in front loses ");
        }
        (None, deed) => {
            page.put(match deed {
                Deed::Shift => " the shift by ",
                Deed::Reduce => " the reduction by ",
            });
            page.put(loss.word);
            page.put(" loses ");
        }
    }
    if loss.lost == 0 {
        page.put("none");
        return;
    }
    page.number(loss.lost);
    page.put(", such as");
    page.show(Names(grammar, &loss.first));
}

/// Writes what came of choices on sentences.
pub fn put_losses<W: Write>(out: &mut W, grammar: &Grammar, losses: &[Loss]) -> io::Result<()> {
    let Some(first) = losses.first() else {
        return Ok(());
    };
    let mut page = Page::new(&mut *out, false);
    put_tried(&mut page, first);
    for (number, loss) in losses.iter().enumerate() {
        page.put(if number == 0 { ":" } else { ";" });
        put_loss(&mut page, grammar, loss);
    }
    page.line(".");
    page.checked()
}
