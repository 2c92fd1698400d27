//! Causes of conflicts as they are told: at the first rule that loses, with a note for each
//! sentence, for each rival at its place, and for what settles them otherwise.

use crate::causes::{CauseSheet, RivalSheet};
use crate::kinds::named;
use crate::scene::Scene;
use crate::sheet::spot_at;
use std::alloc::{AllocError, Global};
use std::io;
use yambiguity::answer::Answer;
use yexplain::reads::{Made, grammar_of};
use yexplain::text::{Names, RuleText};
use yfiles::diagnostic::{Diagnostic, Diagnostics, Note, Severity};
use yfiles::output::Output;
use ymends::mending::Mended;
use ymends::words::MendText;
use yreports::blocks::{Block, category_of};
use yreports::lost::put_losses;
use yreports::offer::Offer;
use yreports::splitting::Split;
use ysearch::finding::Finding;
use ysearch::groups::{Conflicts, Group, Kind};

/// The most tokens that are named.
const MOST_TOKENS: usize = 20;

/// Writes what is taken, on which tokens, and in how many states.
fn put_taken(out: &mut Output, (kind, group): (&Kind, Group), tokens: &[String]) {
    out.put(if kind.shift { "shift" } else { "reduce" });
    out.put("/reduce conflict on ");
    let shown = tokens.get(..MOST_TOKENS).unwrap_or(tokens);
    let more = tokens.len().saturating_sub(shown.len());
    let last = shown.len().saturating_sub(1);
    for (place, token) in shown.iter().enumerate() {
        out.put(match place {
            0 => "",
            _ if place == last && more == 0 => " and ",
            _ => ", ",
        });
        out.put(token);
    }
    if more > 0 {
        out.put(" and ");
        out.number(more);
        out.put(" tokens more");
    }
    out.put(" in state ");
    out.number(group.state);
    if group.states > 1 {
        out.put(" and ");
        out.number(group.states.saturating_sub(1));
        out.put(" more");
    }
    match kind.taken() {
        Some(rule) => {
            out.put(": rule ");
            out.number(rule);
            out.put(" is taken");
        }
        None => out.put(": the shift is taken"),
    }
}

/// Writes the tokens of a sentence with a period where the conflict is.
fn put_tokens(out: &mut Output, tokens: &[String], dot: usize) {
    for (place, token) in tokens.iter().enumerate() {
        out.put(if place == dot { " . " } else { " " });
        out.put(token);
    }
    if dot >= tokens.len() {
        out.put(" .");
    }
}

/// A rival as a note at its rule.
fn rival_note(alloc: Global, rival: &RivalSheet) -> Made<Note> {
    let mut out = Output::new(alloc);
    out.put(if rival.taken {
        "taken: "
    } else {
        "not taken: "
    });
    out.put(if rival.action == "shift" {
        "the shift in rule "
    } else {
        "rule "
    });
    out.number(rival.rule);
    out.put("  ");
    out.put(&rival.text);
    let spot = spot_at(rival.line, rival.column);
    let text = out.into_bytes()?;
    Ok(Note { spot, text })
}

/// Adds the lines of a text as notes.
fn help_lines(alloc: Global, one: &mut Diagnostic, text: &[u8]) -> io::Result<()> {
    for line in text.split(|byte| *byte == b'\n') {
        if !line.is_empty() {
            one.help(Vec::from_slice(alloc, line.trim_ascii_start())?)?;
        }
    }
    Ok(())
}

impl Scene<'_> {
    /// A kind, alone or with others, as what is said of the first rule that isn't taken.
    fn head(self, cells: (&Kind, Group), tokens: &[String]) -> io::Result<Diagnostic> {
        let (shown, grammar) = (self.shown, grammar_of(self.tables));
        let spot = cells.0.spot(shown.lines);
        let mut one = Diagnostic::new(self.alloc, Some(shown.path), spot)?;
        one.severity = shown.severity;
        one.category = Some(category_of(cells.0));
        let mut out = Output::new(self.alloc);
        put_taken(&mut out, cells, tokens);
        for (place, rule) in cells.0.others().iter().enumerate() {
            out.put(if place == 0 {
                ", not rule "
            } else {
                " nor rule "
            });
            out.number(*rule);
            out.put(" (");
            out.show(RuleText(grammar, *rule));
            out.put(")");
        }
        one.message = out.into_bytes()?;
        Ok(one)
    }

    /// Notes sentences: one with two trees, one for each rival, or the lists of tokens.
    fn note_sentences(
        self,
        one: &mut Diagnostic,
        cause: &CauseSheet,
        finding: Option<&Finding>,
    ) -> io::Result<()> {
        for sentence in &cause.sentences {
            let mut out = Output::new(self.alloc);
            match sentence.rule {
                _ if cause.ambiguous => out.put("the grammar is ambiguous: two trees for"),
                Some(rule) => {
                    out.put("by rule ");
                    out.number(rule);
                    out.put(":");
                }
                None if sentence.dot >= sentence.tokens.len() => out.put("by the acceptance:"),
                None => out.put("by the shift:"),
            }
            put_tokens(&mut out, &sentence.tokens, sentence.dot);
            one.help(out.into_bytes()?)?;
            if cause.ambiguous {
                return Ok(());
            }
        }
        let (true, Some(finding), Some(token)) = (
            cause.sentences.is_empty(),
            finding,
            cause.tokens.first(),
        ) else {
            return Ok(());
        };
        for list in &finding.lists {
            let mut out = Output::new(self.alloc);
            out.put("counterexample:");
            out.show(Names(grammar_of(self.tables), &list.tokens));
            out.put(" . ");
            out.put(token);
            one.help(out.into_bytes()?)?;
        }
        Ok(())
    }

    /// A cause, with its notes where it isn't accepted.
    fn told(
        self,
        block: &Block,
        cause: &CauseSheet,
        (finding, offer): (Option<&Finding>, Offer),
        (mended, split): (Option<&Mended>, Option<Split>),
    ) -> io::Result<Diagnostic> {
        let mut one = self.head((&block.first.kind, block.first.group), &cause.tokens)?;
        if one.severity == Severity::Note {
            return Ok(one);
        }
        self.note_sentences(&mut one, cause, finding)?;
        for rival in &cause.rivals {
            let note = rival_note(self.alloc, rival)?;
            one.notes.push(note).map_err(AllocError::from)?;
        }
        for reason in offer.reasons() {
            one.help(Vec::from_slice(self.alloc, reason.as_bytes())?)?;
        }
        self.help_mends(&mut one, mended, split)?;
        self.help_hints(&mut one, block, offer)?;
        Ok(one)
    }

    /// Adds the copies of a nonterminal and the changes of rules that are offered.
    fn help_mends(
        self,
        one: &mut Diagnostic,
        mended: Option<&Mended>,
        split: Option<Split>,
    ) -> io::Result<()> {
        let (grammar, lines) = (grammar_of(self.tables), self.shown.lines);
        let mut text = Vec::new(self.alloc);
        if let Some(split) = split {
            split.put(&mut text, grammar, lines)?;
        }
        if let Some(mended) = mended {
            MendText { grammar, lines }.put(&mut text, &self.sought.idioms, mended)?;
        }
        help_lines(self.alloc, one, &text)
    }

    /// Adds the hints that are offered.
    fn help_hints(self, one: &mut Diagnostic, block: &Block, offer: Offer) -> io::Result<()> {
        for class in &block.classes {
            let (true, Some(entry)) = (offer.has_hints(), class.entries.first()) else {
                continue;
            };
            let mut text = Vec::new(self.alloc);
            entry
                .cell(self.tables, self.shown.lines)
                .put_hint(&mut text)?;
            put_losses(&mut text, grammar_of(self.tables), &class.losses)?;
            help_lines(self.alloc, one, &text)?;
        }
        Ok(())
    }

    /// Tells all causes, and the kinds that stand in none since there are too many, in the order of
    /// their states, and gives the causes.
    pub fn tell(self, told: &mut Diagnostics, found: &Conflicts) -> io::Result<Vec<CauseSheet>> {
        let (alloc, blocks) = (self.alloc, &self.sought.blocks);
        let mut causes = Vec::new(alloc);
        for (place, block) in blocks.list.iter().enumerate() {
            let finding = self.sought.findings.get(block.first.number);
            let answers: &[Answer] = match self.sought.answers.get(place) {
                Some(answers) => answers,
                None => &[],
            };
            let offer = self.sought.offer(place, block);
            let mended = self.sought.mended.get(place);
            let split = self.sought.splits.get(place).copied().flatten();
            let cause = self.cause(block, answers, (offer, mended, split))?;
            told.add(self.told(block, &cause, (finding, offer), (mended, split))?)?;
            causes.push(cause).map_err(AllocError::from)?;
        }
        self.tell_rest(told, found)?;
        Ok(causes)
    }

    /// Tells the kinds that stand in no cause since there are too many.
    fn tell_rest(self, told: &mut Diagnostics, found: &Conflicts) -> io::Result<()> {
        let (alloc, blocks) = (self.alloc, &self.sought.blocks);
        for (kind, group) in found.groups.iter().skip(blocks.kinds) {
            let tokens = vec![in alloc; named(alloc, grammar_of(self.tables), kind.token)?]?;
            told.add(self.head((kind, *group), &tokens)?)?;
        }
        Ok(())
    }

    /// Tells all causes where they stand, without what explains them.
    pub fn tell_brief(self, told: &mut Diagnostics, found: &Conflicts) -> io::Result<()> {
        for block in &self.sought.blocks.list {
            let mut tokens = Vec::new(self.alloc);
            for class in &block.classes {
                for entry in &class.entries {
                    let token = named(self.alloc, grammar_of(self.tables), entry.kind.token)?;
                    tokens.push(token).map_err(AllocError::from)?;
                }
            }
            told.add(self.head((&block.first.kind, block.first.group), &tokens)?)?;
        }
        self.tell_rest(told, found)
    }
}
