//! Sentences as they are written: each stands in a line of its own, as a tokens file has it or as
//! a text, and all other lines begin with `#`. A text of several lines, or one that begins with
//! `#`, stands after a line that says how many they are.

use crate::choice::Missing;
use crate::elements::{Elements, Kind};
use crate::near::{Change, Near};
use crate::seek::MOST_TOKENS;
use std::alloc::Global;
use std::io::{self, Write};
use std::rt::Files;
use yexplain::lines::newlines;
use yexplain::reads::grammar_of;
use yexplain::text::{Name, Names};
use yinput::verdict::{Verdict, verdict_on};
use ylex::writer::Writer;
use ylists::saving::Folder;
use yparse::Tokens;
use ysearch::search::ALL_STEPS;
use ysymbols::{Grammar, Sym};
use yview::page::Page;

/// The most elements that are named which a sentence is the first to use.
const MOST_NAMED: usize = 20;

/// What sentences are written with.
#[derive(Drop)]
pub struct Sheet<'a, W, F> {
    /// What allocates.
    pub alloc: Global,
    /// Where they go.
    pub out: &'a mut W,
    /// The elements of the tables.
    pub elements: Elements<'a>,
    /// The folder for sentences.
    pub folder: Folder<'a, F>,
    /// The folder for lists that are near to them.
    pub near_folder: Folder<'a, F>,
    /// What writes lists as texts, where that is wanted.
    pub writer: Option<&'a Writer>,
    /// What changes sentences, where that is wanted.
    pub near: Option<Near>,
    /// How many lists that are near were written.
    pub changed: usize,
    /// How many of them are accepted.
    pub accepted: usize,
}

/// A list as it is written.
#[derive(Drop)]
enum Shown {
    /// By its tokens.
    Tokens,
    /// As this text.
    Text(Vec<u8>),
    /// As a comment: no text is found.
    Untold,
}

/// Writes a list as it is shown. Where a text has several lines, or could be taken for a comment,
/// how many lines it has stands before it.
fn put_shown<W: Write>(
    out: &mut W,
    grammar: &Grammar,
    tokens: &[Sym],
    shown: &Shown,
) -> io::Result<()> {
    match shown {
        Shown::Tokens => put_tokens(out, grammar, tokens),
        Shown::Text(text) => {
            let lines = newlines(text).saturating_add(1);
            if lines > 1 {
                writeln!(out, "# a text of {lines} lines:")?;
            } else if text.first() == Some(&b'#') {
                writeln!(out, "# a text of 1 line:")?;
            }
            out.write_all(text)?;
            writeln!(out)
        }
        Shown::Untold => {
            let names = Names(grammar, tokens);
            writeln!(out, "# no text:{names}")
        }
    }
}

/// Writes tokens in a line.
fn put_tokens<W: Write>(out: &mut W, grammar: &Grammar, tokens: &[Sym]) -> io::Result<()> {
    let mut page = Page::new(&mut *out, false);
    for (index, token) in tokens.iter().enumerate() {
        page.put(if index > 0 { " " } else { "" });
        page.show(Name(grammar, *token));
    }
    page.end();
    page.checked()
}

/// Writes how a sentence is changed, as the beginning of a line.
fn put_change<W: Write>(
    out: &mut W,
    grammar: &Grammar,
    count: usize,
    change: Change,
) -> io::Result<()> {
    let mut page = Page::new(&mut *out, false);
    match change {
        Change::LeaveOut(before) => {
            page.put("# token ");
            page.number(before.saturating_add(1));
            page.put(" left out");
        }
        Change::Replace(before, token) => {
            page.put("# token ");
            page.number(before.saturating_add(1));
            page.put(" changed to ");
            page.show(Name(grammar, token));
        }
        Change::PutIn(before, token) => {
            page.put("# ");
            page.show(Name(grammar, token));
            if before < count {
                page.put(" put in before token ");
                page.number(before.saturating_add(1));
            } else {
                page.put(" put in at the end");
            }
        }
    }
    page.put(": ");
    page.checked()
}

impl<W: Write, F: Files + AllocGlobal + Clone + Drop> Sheet<'_, W, F> {
    /// Removes the lists of an earlier run, and makes the folder, where one is wanted.
    pub fn begin(&mut self) -> io::Result<()> {
        self.folder.clear()?;
        self.near_folder.clear()?;
        self.folder.make()
    }

    /// Writes a sentence that was chosen, with what it is the first to use.
    pub fn put_chosen(
        &mut self,
        kind: Kind,
        number: usize,
        tokens: &[Sym],
        new: &[usize],
    ) -> io::Result<()> {
        let (word, elements) = (kind.word(new.len()), self.elements);
        write!(self.out, "# sentence {number}, the first to use {word}")?;
        for (index, element) in new.iter().enumerate() {
            if index < MOST_NAMED {
                let front = if index > 0 { ", " } else { " " };
                write!(self.out, "{front}")?;
                elements.put_short(self.out, kind, *element)?;
            }
        }
        match new.len().saturating_sub(MOST_NAMED) {
            0 => writeln!(self.out)?,
            more => writeln!(self.out, ", and {more} more")?,
        }
        self.put_list((number, 0), tokens, false)?;
        self.put_near(number, tokens)
    }

    /// Writes a sentence that was drawn, with its verdict, and says whether it is accepted.
    /// Without a verdict there are no lists near to it.
    pub fn put_drawn(&mut self, number: usize, tokens: &[Sym]) -> io::Result<bool> {
        let (verdict, elements) = (self.verdict(tokens)?, self.elements);
        let is_accepted = matches!(verdict, Verdict::Accepted(_));
        let words = if is_accepted {
            ""
        } else {
            ", one of the grammar that the tables refuse"
        };
        write!(self.out, "# random sentence {number}{words}: ")?;
        verdict.put_words(self.out, grammar_of(elements.tables))?;
        self.put_list((number, 0), tokens, false)?;
        match verdict {
            Verdict::Undecided => {}
            _ => self.put_near(number, tokens)?,
        }
        Ok(is_accepted)
    }

    /// The verdict on a list.
    fn verdict(&self, tokens: &[Sym]) -> io::Result<Verdict> {
        let symbols = Vec::from_slice(self.alloc, tokens)?;
        verdict_on(self.alloc, self.elements.tables, &Tokens { symbols })
    }

    /// What a file of a list that is shown so has; `None` where it has no file.
    fn filed(&self, tokens: &[Sym], shown: &Shown) -> io::Result<Option<Vec<u8>>> {
        let grammar = grammar_of(self.elements.tables);
        match (shown, self.writer) {
            (Shown::Text(text), Some(writer)) => {
                writer.filed(self.alloc, grammar, text, tokens).map(Some)
            }
            (Shown::Tokens, _) => {
                let mut text = Vec::new(self.alloc);
                put_tokens(&mut text, grammar, tokens)?;
                Ok(Some(text))
            }
            _ => Ok(None),
        }
    }

    /// Writes a list, and where it is kept: a sentence, or one that is near to it.
    fn put_list(
        &mut self,
        numbers: (usize, usize),
        tokens: &[Sym],
        is_near: bool,
    ) -> io::Result<()> {
        let elements = self.elements;
        let grammar = grammar_of(elements.tables);
        let shown = match self.writer {
            Some(writer) => match writer.text(self.alloc, grammar, tokens)? {
                Some(text) => Shown::Text(text),
                None => Shown::Untold,
            },
            None => Shown::Tokens,
        };
        if let Some(text) = self.filed(tokens, &shown)? {
            let path = if is_near {
                self.near_folder.store_text(numbers, &text)?
            } else {
                self.folder.store_text(numbers, &text)?
            };
            if let Some(path) = path {
                writeln!(self.out, "# saved in {path}")?;
            }
        }
        put_shown(self.out, grammar, tokens, &shown)
    }

    /// Writes the lists that are near to a sentence, where they are wanted, each with its verdict.
    fn put_near(&mut self, number: usize, tokens: &[Sym]) -> io::Result<()> {
        let Some(near) = self.near.take() else {
            return Ok(());
        };
        let (mut near, elements, mut place) = (near, self.elements, 0usize);
        let grammar = grammar_of(elements.tables);
        near.meet(tokens)?;
        for change in &near.changes(tokens)? {
            let list = change.made(self.alloc, tokens)?;
            if near.meet(&list)? {
                put_change(self.out, grammar, tokens.len(), *change)?;
                let verdict = self.verdict(&list)?;
                let is_accepted = matches!(verdict, Verdict::Accepted(_));
                self.changed = self.changed.saturating_add(1);
                self.accepted = self.accepted.saturating_add(usize::from(is_accepted));
                verdict.put_words(self.out, grammar)?;
                self.put_list((number, place), &list, true)?;
                place = place.saturating_add(1);
            }
        }
        self.near = Some(near);
        Ok(())
    }

    /// Writes an element that no sentence uses, and why.
    pub fn put_unused(&mut self, kind: Kind, element: usize, missing: Missing) -> io::Result<()> {
        let mut page = Page::new(&mut *self.out, false);
        page.put("# not found");
        match missing {
            Missing::Late => {
                page.put(" within ");
                page.show(ALL_STEPS);
                page.put(" steps: ");
            }
            Missing::Astray => {
                page.put(", as the parse over each list that was tried goes another way: ");
            }
            Missing::Long => {
                page.put(", as the shortest sentence has error, or more than ");
                page.show(MOST_TOKENS);
                page.put(" tokens: ");
            }
            Missing::Unreachable => page.put(", as its left side can't be reached: "),
            Missing::Lost => page.put(", as no state reduces by it: "),
        }
        page.checked()?;
        self.elements.put_line(self.out, kind, element)
    }

    /// Writes how many lists that are near are accepted, as the end of a line.
    pub fn put_end(&mut self) -> io::Result<()> {
        let (changed, accepted) = (self.changed, self.accepted);
        match changed {
            0 => writeln!(self.out),
            _ => writeln!(self.out, "; {accepted} of {changed} near ones are accepted"),
        }
    }
}
