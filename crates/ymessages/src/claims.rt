//! The inputs of a file of messages, and the states that they claim.

use crate::file::{Part, Span, is_comment};
use crate::inputs::{Inputs, Listed, Wrong};
use crate::sheet::{FURTHER, TOKENS};
use std::alloc::{AllocError, Global};
use std::io;
use yexplain::reads::{Made, set};
use yinput::verdict::{Verdict, verdict_on};
use ytables::Tables;

/// What a parse over an input comes to.
#[derive(Clone, Copy, Drop, PartialEq, Eq)]
pub enum Came {
    /// The last token is an error, which this state detects.
    Claims(usize),
    /// It is accepted.
    Accepted,
    /// The token of this number is an error, counted from 1, and others follow it.
    Early(usize),
    /// The last token can come, and the end after it is an error.
    AtEnd,
    /// Too many steps come before the last token.
    Undecided,
}

/// An input.
#[derive(Drop)]
pub struct Claim {
    /// The part in which it is.
    pub part: usize,
    /// Its line.
    pub line: Span,
    /// Its tokens.
    pub input: Listed,
    /// What a parse over it comes to.
    pub came: Came,
}

/// An input that isn't read.
#[derive(Clone, Copy, Drop)]
pub struct Unread {
    /// Its line.
    pub line: Span,
    /// What is wrong.
    pub wrong: Wrong,
}

/// The inputs of a file with what they claim.
#[derive(Drop)]
pub struct Claims {
    /// The inputs, in their order.
    pub all: Vec<Claim>,
    /// For each state, the first input that claims it.
    owners: Vec<Option<usize>>,
}

/// What a verdict on an input comes to.
fn came_of(verdict: &Verdict, count: usize, ended: bool) -> Came {
    let after = count.saturating_add(1);
    let last = if ended { after } else { count };
    match verdict {
        Verdict::Accepted(_) => Came::Accepted,
        Verdict::Undecided => Came::Undecided,
        Verdict::Rejected(rejection) if rejection.number == last => {
            Came::Claims(rejection.state)
        }
        Verdict::Rejected(rejection) if rejection.number < last => { Came::Early(rejection.number) }
        Verdict::Rejected(_) => Came::AtEnd,
    }
}

/// The tokens that the comment below an input has, where it has one: where they stand, and their
/// words, which may go on in further lines.
fn noted_below(alloc: Global, source: &[u8], line: Span) -> Made<Option<(Span, Vec<u8>)>> {
    let mut start = line.end.saturating_add(1);
    let (mut place, mut words) = (None, Vec::new(alloc));
    for bytes in source.get(start..).unwrap_or(&[]).split(|b| *b == b'\n') {
        let end = start.saturating_add(bytes.len());
        let front = if place.is_none() { TOKENS } else { FURTHER };
        let Some(rest) = bytes.strip_prefix(front.as_bytes()) else {
            break;
        };
        words.extend_from_slice(rest)?;
        start = end.saturating_sub(rest.len());
        place = place.or(Some(Span { start, end }));
        start = end.saturating_add(1);
    }
    match place {
        Some(place) => Ok(Some((place, words))),
        None => Ok(None),
    }
}

impl Claim {
    /// The state that it claims, where its last token is an error.
    pub fn state(&self) -> Option<usize> {
        match self.came {
            Came::Claims(state) => Some(state),
            _ => None,
        }
    }
}

impl Claims {
    /// Adds the input of a line.
    fn add(
        &mut self,
        alloc: Global,
        tables: &Tables,
        (part, line): (usize, Span),
        input: Listed,
    ) -> io::Result<()> {
        let verdict = verdict_on(alloc, tables, &input.tokens)?;
        let came = came_of(&verdict, input.tokens.len(), input.ended);
        let number = self.all.len();
        let claim = Claim {
            part,
            line,
            input,
            came,
        };
        if let Some(state) = claim.state() {
            if self.owner(state).is_none() {
                set(&mut self.owners, state, Some(number));
            }
        }
        self.all.push(claim).map_err(AllocError::from)?;
        Ok(())
    }

    /// Reads a line of a part; why it isn't read, where it is an input.
    fn read_line(
        &mut self,
        alloc: Global,
        inputs: Inputs<'_>,
        source: &[u8],
        (part, line): (usize, Span),
    ) -> io::Result<Option<Unread>> {
        if is_comment(line.of(source)) {
            return Ok(None);
        }
        let noted = if inputs.noted {
            noted_below(alloc, source, line)?
        } else {
            None
        };
        let (place, read) = match &noted {
            Some((place, words)) => (*place, inputs.read(alloc, words)?),
            None => (line, inputs.read(alloc, line.of(source))?),
        };
        match read {
            Ok(input) => {
                self.add(alloc, inputs.tables, (part, line), input)?;
                Ok(None)
            }
            Err(wrong) => Ok(Some(Unread { line: place, wrong })),
        }
    }

    /// The first input that claims a state, where there is one.
    pub fn owner(&self, state: usize) -> Option<usize> {
        self.owners.get(state).copied().flatten()
    }

    /// The first input that claims the state of an input, where that belongs to another part.
    pub fn rival(&self, claim: &Claim) -> Option<&Claim> {
        let other = self.all.get(self.owner(claim.state()?)?)?;
        if other.part == claim.part {
            None
        } else {
            Some(other)
        }
    }

    /// The claims of the inputs of a file with these parts, or the first input that isn't read.
    pub fn new(
        alloc: Global,
        inputs: Inputs<'_>,
        source: &[u8],
        parts: &[Part],
    ) -> io::Result<Result<Claims, Unread>> {
        let mut claims = Claims {
            all: Vec::new(alloc),
            owners: vec![in alloc; None; inputs.tables.automaton().states()]?,
        };
        for (number, part) in parts.iter().enumerate() {
            for line in &part.lines {
                let line = (number, *line);
                if let Some(unread) = claims.read_line(alloc, inputs, source, line)? {
                    return Ok(Err(unread));
                }
            }
        }
        Ok(Ok(claims))
    }
}
