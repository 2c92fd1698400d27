//! A file of messages, written anew: its parts in their order, with comments that are made again,
//! and then the states that are new.

use crate::claims::Claim;
use crate::file::{Part, Span, is_comment};
use crate::inputs::Inputs;
use crate::messages::Messages;
use crate::refusal::put_came;
use crate::sheet::{put_head, put_no_text, put_state, put_tail, put_tokens};
use crate::written::line_of;
use std::alloc::{AllocError, Global};
use std::collections::HashMap;
use std::io::{self, Write};
use yerrors::confirm::{Confirmed, confirm, reductions};
use yerrors::errors::Errors;
use yexplain::reads::{Made, grammar_of};
use yinput::expected::Wanted;
use ylex::writer::Writer;
use yparse::Session;
use ysymbols::let_go;
use ytables::Tables;
use yview::page::Page;

/// The message of a state that is new.
const FIRST: &[u8] = b"unexpected $0, expected $expected";

/// What a file is written anew from.
#[derive(Clone, Copy)]
pub struct Update<'a> {
    /// What allocates.
    pub alloc: Global,
    /// The path of the grammar file.
    pub path: &'a str,
    /// The tables.
    pub tables: &'a Tables,
    /// The errors of their states.
    pub errors: &'a Errors,
    /// Those to be written rather than others, where there are some.
    pub told: Option<&'a Errors>,
    /// The file.
    pub messages: &'a Messages,
    /// What sessions have of its inputs.
    pub confirmed: &'a [Option<Confirmed>],
    /// What writes inputs as texts; without it, they are tokens.
    pub writer: Option<&'a Writer>,
    /// Whether each state that is new gets a block of its own.
    pub alone: bool,
}

/// States in groups: those at which the same tokens could come stand together.
struct Groups {
    /// The place of each group, by what its states have in common.
    keys: HashMap<Vec<usize>, usize>,
    /// The groups.
    all: Vec<Vec<usize>>,
}

impl Drop for Groups {
    // A call in each owner, which keeps their proofs short.
    fn drop(self) {
        let_go!(self: Groups { keys, all });
    }
}

impl Groups {
    /// Puts a state into its group.
    fn put(&mut self, alloc: Global, key: Vec<usize>, state: usize) -> Made<()> {
        let place = match self.keys.get(&key).copied() {
            Some(place) => place,
            None => {
                let place = self.all.len();
                self.all.push(Vec::new(alloc))?;
                self.keys.insert(key, place)?;
                place
            }
        };
        if let Some(group) = self.all.get_mut(place) {
            group.push(state)?;
        }
        Ok(())
    }

    /// The groups.
    fn into_all(self) -> Vec<Vec<usize>> {
        let Groups { keys: _, all } = self;
        all
    }
}

/// The states that no input of a file claims.
#[derive(Clone, Copy, Drop)]
pub struct New {
    /// How many got an input.
    pub told: usize,
    /// For how many no text is found.
    pub untold: usize,
}

/// What a session at its start, which is left there, has of the inputs of a file.
pub fn confirm_all(
    alloc: Global,
    session: &mut Session,
    messages: &Messages,
) -> io::Result<Vec<Option<Confirmed>>> {
    let mut all = Vec::new(alloc);
    let mut left = reductions();
    for claim in &messages.claims.all {
        // nothing where its last token is no error
        let mut confirmed = None;
        if let Some(state) = claim.state() {
            let (tokens, last) = claim.input.list();
            let list = (Vec::from_slice(alloc, tokens)?, last);
            confirmed = confirm(alloc, session, list, state, &mut left)?;
        }
        all.push(confirmed).map_err(AllocError::from)?;
    }
    Ok(all)
}

/// The list of a state, where it has one.
fn list_in(errors: &Errors, state: usize) -> Option<&Confirmed> {
    errors.outcomes.get(state)?.list()
}

impl<'a> Update<'a> {
    /// Writes the comments of the input of a number.
    fn put_claim<W: Write>(&self, page: &mut Page<W>, number: usize, claim: &Claim) {
        if self.writer.is_some() {
            put_tokens(page, grammar_of(self.tables), claim.input.list());
        }
        let confirmed = self.confirmed.get(number);
        match (claim.state(), confirmed) {
            (Some(state), Some(Some(confirmed))) => {
                let before = self.before(number, claim.part);
                put_state(page, self.tables, state, confirmed, before);
            }
            _ => {
                page.put("## wrong: ");
                let _ = put_came(page, grammar_of(self.tables), claim);
                page.end();
            }
        }
        if self.messages.claims.rival(claim).is_some() {
            page.line("## wrong: an input above has this state, with another message");
        }
    }

    /// What a session has of the input before the one of a number, where that is in the same part.
    fn before(&self, number: usize, part: usize) -> Option<&'a Confirmed> {
        let place = number.checked_sub(1)?;
        let (messages, confirmed) = (self.messages, self.confirmed);
        let claim = messages.claims.all.get(place)?;
        if claim.part == part {
            confirmed.get(place)?.as_ref()
        } else {
            None
        }
    }

    /// Writes a line of a part, and the comments of an input after it.
    fn put_line<W: Write>(&self, page: &mut Page<W>, line: Span) {
        let _ = page.write_all(line.of(&self.messages.bytes));
        page.end();
        if is_comment(line.of(&self.messages.bytes)) {
            return;
        }
        let claims = self.messages.claims.all.as_slice();
        let place = claims.binary_search_by_key(&line.start, |claim| claim.line.start);
        if let Ok(number) = place {
            if let Some(claim) = claims.get(number) {
                self.put_claim(page, number, claim);
            }
        }
    }

    /// Writes a message after the inputs of its block, and whether it is still the first one.
    fn put_message<W: Write>(&self, page: &mut Page<W>, message: &[u8]) {
        if message == FIRST {
            page.line("## new");
        }
        page.end();
        let _ = page.write_all(message);
        page.end();
    }

    /// Writes a part of the file.
    fn put_part<W: Write>(&self, page: &mut Page<W>, part: &Part) {
        for line in &part.lines {
            self.put_line(page, *line);
        }
        if let Some(span) = part.message {
            self.put_message(page, span.of(&self.messages.bytes));
        }
        page.end();
    }

    /// The list of a state that is new: no input of the file claims it.
    pub fn new_list(&self, state: usize) -> Option<&'a Confirmed> {
        let (errors, messages) = (self.errors, self.messages);
        if messages.claims.owner(state).is_some() {
            return None;
        }
        let list = list_in(errors, state);
        self.told.and_then(|told| list_in(told, state)).or(list)
    }

    /// The line of the input of a list; `None` where it is to be a text, and none is found.
    pub fn line(&self, confirmed: &Confirmed) -> io::Result<Option<Vec<u8>>> {
        let inputs = Inputs {
            tables: self.tables,
            lexer: self.writer.map(|writer| &writer.lexer),
            noted: false,
        };
        let list = (confirmed.tokens.as_slice(), confirmed.last);
        line_of(self.alloc, inputs, self.writer, list)
    }

    /// The states that are new, in groups: those at which the same tokens could come stand together,
    /// unless each is wanted alone.
    fn groups(&self) -> Made<Vec<Vec<usize>>> {
        let mut groups = Groups {
            keys: HashMap::new(self.alloc),
            all: Vec::new(self.alloc),
        };
        for state in 0..self.errors.outcomes.len() {
            let Some(confirmed) = self.new_list(state) else {
                continue;
            };
            let Wanted { can, unknown } = &confirmed.wanted;
            let mut key = Vec::from_slice(self.alloc, can)?;
            key.push(usize::MAX)?;
            key.extend_from_slice(unknown)?;
            if self.alone {
                key.push(state)?;
            }
            groups.put(self.alloc, key, state)?;
        }
        Ok(groups.into_all())
    }

    /// Writes the input of this line for a state, after that of another one of its block.
    fn put_input<W: Write>(
        &self,
        page: &mut Page<W>,
        line: &[u8],
        (state, confirmed): (usize, &Confirmed),
        before: Option<&Confirmed>,
    ) {
        let _ = page.write_all(line);
        page.end();
        if self.writer.is_some() {
            let list = (confirmed.tokens.as_slice(), confirmed.last);
            put_tokens(page, grammar_of(self.tables), list);
        }
        put_state(page, self.tables, state, confirmed, before);
    }

    /// Writes what there is of states that are new: a block, and comments for each for which no
    /// text is found.
    fn put_group<W: Write>(&self, page: &mut Page<W>, states: &[usize]) -> io::Result<New> {
        let (mut before, mut told, mut silent) = (None, 0usize, Vec::new(self.alloc));
        for state in states {
            let Some(confirmed) = self.new_list(*state) else {
                continue;
            };
            match self.line(confirmed)? {
                Some(line) => {
                    self.put_input(page, &line, (*state, confirmed), before);
                    before = Some(confirmed);
                    told = told.saturating_add(1);
                }
                None => silent.push(*state).map_err(AllocError::from)?,
            }
        }
        if told > 0 {
            self.put_message(page, FIRST);
            page.end();
        }
        for state in &silent {
            let Some(confirmed) = self.new_list(*state) else {
                continue;
            };
            let list = (confirmed.tokens.as_slice(), confirmed.last);
            put_no_text(page, grammar_of(self.tables), list);
            put_state(page, self.tables, *state, confirmed, None);
            page.end();
        }
        let untold = silent.len();
        Ok(New { told, untold })
    }

    /// Writes the blocks of the states that are new.
    fn put_new<W: Write>(&self, page: &mut Page<W>) -> io::Result<New> {
        let (mut told, mut untold): (usize, usize) = (0, 0);
        for states in &self.groups()? {
            let new = self.put_group(page, states)?;
            told = told.saturating_add(new.told);
            untold = untold.saturating_add(new.untold);
        }
        Ok(New { told, untold })
    }

    /// Writes the file, and says what states are new.
    pub fn put<W: Write>(&self, page: &mut Page<W>) -> io::Result<New> {
        let texts = self.writer.is_some();
        put_head(page, self.path, self.tables, self.errors, texts);
        for part in &self.messages.parts {
            self.put_part(page, part);
        }
        let new = self.put_new(page)?;
        put_tail(page, self.errors);
        Ok(new)
    }
}
