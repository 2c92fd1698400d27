//! `ycc -Wcounterexamples`: an example for each conflict, with the derivations of its rivals.

use crate::items::{Derivation, items_of};
use crate::manner::Manner;
use std::alloc::Global;
use std::io::{self, Write};
use yambiguity::answer::{Ambiguities, Answer, Twins};
use yambiguity::choice::Choice;
use yambiguity::trees::Trees;
use yexplain::reads::Made;
use yfaults::opening::Opened;
use yfiles::output::Output;
use yreports::ambiguity::answers_of;
use yreports::blocks::{Block, Entry, blocks_of};
use ysearch::finding::{Finding, Seeker};
use ysearch::groups::{Conflicts, Kind};
use ysearch::trial::empty_session;
use ysymbols::Sym;

/// What stands in the lines that say which conflicts there are.
#[derive(Clone, Copy)]
pub struct Heading<'a> {
    /// The path of the grammar file.
    pub path: &'a str,
    /// How bad a conflict is.
    pub severity: &'static str,
    /// The option that tells of it.
    pub option: &'static str,
}

/// What seeks examples.
#[derive(Drop)]
struct Search<'a> {
    seeker: Seeker<'a>,
    found: Ambiguities,
}

impl Heading<'_> {
    /// Writes on which tokens a conflict is.
    fn put(self, out: &mut Output, manner: Manner<'_>, (is_shift, tokens): (bool, &[Sym])) {
        out.put(self.path);
        out.put(": ");
        out.put(self.severity);
        out.put(if is_shift {
            ": shift/reduce conflict on token"
        } else {
            ": reduce/reduce conflict on token"
        });
        out.put(if tokens.len() == 1 { " " } else { "s " });
        for (place, token) in tokens.iter().enumerate() {
            out.put(if place > 0 { ", " } else { "" });
            manner.put_name(out, *token);
        }
        out.put_pieces(&[b" [", self.option.as_bytes(), b"]\n"]);
    }
}

/// Writes an example by its name, and its derivation by that of its rival.
fn put_example(
    alloc: Global,
    out: &mut Output,
    (trees, manner): (&Trees, Manner<'_>),
    (name, rival): (&str, &str),
    derivation: Derivation,
) -> Made<()> {
    let items = items_of(alloc, trees, derivation)?;
    if !name.is_empty() {
        out.put_pieces(&[b"  ", name.as_bytes(), b":"]);
        manner.put_leaves(out, &items);
    }
    out.put_pieces(&[b"  ", rival.as_bytes(), b" derivation\n"]);
    manner.draw(alloc, out, &items)
}

/// What the derivations of two rivals are called.
fn rivals_of(is_shift: bool) -> [&'static str; 2] {
    match is_shift {
        true => ["Shift", "Reduce"],
        false => ["First reduce", "Second reduce"],
    }
}

/// Writes a sentence with two derivations.
fn put_twins(alloc: Global, out: &mut Output, by: (&Trees, Manner<'_>), twins: &Twins) -> Made<()> {
    let is_shift = twins.sentence.choice == Choice::Shift;
    let [first, second] = rivals_of(is_shift);
    let one = Derivation {
        tree: twins.trees.0,
        dot: twins.dot,
        is_shift,
    };
    let other = Derivation {
        tree: twins.trees.1,
        is_shift: false,
        ..one
    };
    put_example(alloc, out, by, ("Example", first), one)?;
    put_example(alloc, out, by, ("", second), other)
}

/// Writes a sentence for each of two rivals, with its derivation.
fn put_apart(
    alloc: Global,
    out: &mut Output,
    by: (&Trees, Manner<'_>),
    (answer, is_shift): (&Answer, bool),
) -> Made<()> {
    let names = ["First example", "Second example"];
    for (place, sentence) in answer.sentences.iter().enumerate() {
        let is_taken = sentence.choice == Choice::Shift;
        let derivation = Derivation {
            tree: sentence.tree,
            dot: sentence.leaves,
            is_shift: is_taken,
        };
        let second = place > 0 || (is_shift && !is_taken);
        let number = usize::from(second);
        if let (Some(name), Some(rival)) = (names.get(number), rivals_of(is_shift).get(number)) {
            put_example(alloc, out, by, (name, rival), derivation)?;
        }
    }
    Ok(())
}

/// Writes what was found for a conflict: a sentence with two derivations, or one for each rival, or
/// a list of tokens up to the conflict.
fn put_found(
    alloc: Global,
    out: &mut Output,
    by: (&Trees, Manner<'_>),
    (kind, finding): (&Kind, &Finding),
    answers: &[Answer],
) -> Made<()> {
    for answer in answers {
        if let Some(twins) = &answer.twins {
            return put_twins(alloc, out, by, twins);
        }
    }
    for answer in answers {
        if !answer.sentences.is_empty() {
            return put_apart(alloc, out, by, (answer, kind.shift));
        }
    }
    let manner = by.1;
    for list in &finding.lists {
        out.put("  Example:");
        for token in &list.tokens {
            out.put(" ");
            manner.put_name(out, *token);
        }
        out.put_pieces(&[b" ", manner.signs.dot.as_bytes(), b" "]);
        manner.put_name(out, kind.token);
        out.put("\n");
    }
    Ok(())
}

impl Search<'_> {
    /// Writes an example for a conflict, which is on these tokens.
    fn put<W: Write>(
        &mut self,
        alloc: Global,
        device: &mut W,
        (heading, manner): (Heading<'_>, Manner<'_>),
        (entry, tokens): (&Entry, &[Sym]),
    ) -> io::Result<()> {
        let (kind, mut out) = (&entry.kind, Output::new(alloc));
        heading.put(&mut out, manner, (kind.shift, tokens));
        if self.seeker.finder.has_steps() {
            let finding = self.seeker.find(kind, entry.group)?;
            let asked = (entry, &finding);
            let answers = answers_of(alloc, &mut self.seeker, &mut self.found, asked, (true, &[]))?;
            let by = (&self.found.trees, manner);
            put_found(alloc, &mut out, by, (kind, &finding), &answers)?;
        } else {
            out.line("  The search for an example would take too long.");
        }
        out.finish(device)
    }

    /// Writes examples for the conflicts of a block: with a shift one for each token, else one for
    /// all.
    fn put_block<W: Write>(
        &mut self,
        alloc: Global,
        device: &mut W,
        by: (Heading<'_>, Manner<'_>),
        block: &Block,
    ) -> io::Result<()> {
        let mut tokens = Vec::new(alloc);
        for class in &block.classes {
            for entry in &class.entries {
                let token = entry.kind.token;
                tokens.push(token)?;
                if entry.kind.shift {
                    self.put(alloc, device, by, (entry, &[token]))?;
                }
            }
        }
        if block.first.kind.shift {
            return Ok(());
        }
        self.put(alloc, device, by, (&block.first, &tokens))
    }
}

/// Writes the examples of a grammar that is open.
pub fn put_examples<W: Write>(
    alloc: Global,
    device: &mut W,
    by: (Heading<'_>, Manner<'_>),
    opened: Opened,
) -> io::Result<()> {
    let Opened { tables, lines } = opened;
    let mut session = empty_session(alloc, tables);
    let found = Conflicts::new(alloc, session.tables())?;
    let blocks = blocks_of(alloc, session.tables(), &lines, &found)?;
    let mut search = Search {
        seeker: Seeker::new(alloc, &mut session)?,
        found: Ambiguities::new(alloc),
    };
    for block in &blocks.list {
        search.put_block(alloc, device, by, block)?;
    }
    Ok(())
}
