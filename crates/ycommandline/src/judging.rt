//! What came of an input.

use crate::expected::Expected;
use std::alloc::Global;
use std::io::{self, Write};
use std::rt::Files;
use yfiles::diagnostic::Diagnostics;
use yinput::fault::Fault;
use yinput::grammars::GrammarFile;
use yinput::language::Input;
use yinput::verdict::Verdict;
use yinput::verdict_text::UNDECIDED;
use ymessages::messaged::Messaged;

/// What came of an input.
#[derive(Drop)]
pub enum Came {
    /// It is accepted after so many steps.
    Accepted(usize),
    /// It is rejected at a place, with a message.
    Rejected(Vec<u8>, Vec<u8>),
    /// There is no verdict, which has this exit status and this reason.
    Unjudged(u8, Vec<u8>),
}

impl Came {
    /// The verdict on an input. The place is its line and column in a text, and of a tokens file
    /// the number of its token; the message is what `ydebug check` says after it.
    pub fn of_verdict(
        alloc: Global,
        told: &Messaged,
        input: &Input,
        verdict: &Verdict,
    ) -> io::Result<Came> {
        let rejection = match verdict {
            Verdict::Accepted(steps) => return Ok(Came::Accepted(*steps)),
            Verdict::Undecided => {
                let why = Vec::from_slice(alloc, UNDECIDED.as_bytes())?;
                return Ok(Came::Unjudged(verdict.status(), why));
            }
            Verdict::Rejected(rejection) => rejection,
        };
        let message = told.message(alloc, input, verdict)?;
        let message = message.as_ref().map(Vec::as_slice);
        let (spoken, number) = (told.language.spoken(), rejection.number);
        let (mut place, mut said) = (Vec::new(alloc), Vec::new(alloc));
        if let Some(text) = &input.text {
            let spot = text.place(number).spot();
            write!(place, "{spot}")?;
            rejection.put_token(&mut said, spoken, text.word(number), message)?;
        } else {
            write!(place, "token {number}")?;
            rejection.put_token(&mut said, spoken, &[], message)?;
        }
        Ok(Came::Rejected(place, said))
    }

    /// What is wrong with an input that has no tokens. A text is rejected where nothing matches.
    pub fn of_fault<F: Files + AllocGlobal>(
        rt: &F,
        told: &Messaged,
        file: GrammarFile<'_>,
        fault: &Fault,
    ) -> io::Result<Came> {
        let (alloc, language) = (rt.alloc(), &told.language);
        let mut said = Diagnostics::new(alloc);
        let status = fault.tell(rt, &mut said, file, &language.opened)?;
        let (mut spot, mut message) = (None, Vec::new(alloc));
        for one in &said.all {
            spot = one.spot;
            message = Vec::from_slice(alloc, &one.message)?;
        }
        let Some(spot) = spot else {
            return Ok(Came::Unjudged(status, message));
        };
        let mut place = Vec::new(alloc);
        write!(place, "{spot}")?;
        if language.lexer.is_some() {
            return Ok(Came::Rejected(place, message));
        }
        place.extend_from_slice(b": ")?;
        place.extend_from_slice(&message)?;
        Ok(Came::Unjudged(status, place))
    }

    /// Writes why this isn't what is to come of an input, and says whether there is a reason. The
    /// input is to be accepted, or else rejected, as is expected where that is said.
    pub fn put_wrong<W: Write>(
        &self,
        out: &mut W,
        is_good: bool,
        expected: Option<&Expected>,
    ) -> io::Result<bool> {
        match self {
            Came::Accepted(_) if is_good => return Ok(false),
            Came::Accepted(steps) => write!(out, "accepted after {steps} steps")?,
            Came::Unjudged(_, why) => out.write_all(why)?,
            Came::Rejected(place, message) if is_good => {
                put_rejected(out, place, ": ")?;
                out.write_all(message)?;
            }
            Came::Rejected(place, message) => {
                let Some(expected) = expected else {
                    return Ok(false);
                };
                let wanted = expected.message();
                if expected.place() != place.as_slice() {
                    put_rejected(out, place, ", expected ")?;
                    out.write_all(expected.place())?;
                } else if !wanted.is_empty() && wanted != message.trim_ascii() {
                    put_rejected(out, place, ": ")?;
                    out.write_all(message)?;
                    out.write_all(b"\n  expected: ")?;
                    out.write_all(wanted)?;
                } else {
                    return Ok(false);
                }
            }
        }
        Ok(true)
    }
}

/// Writes that an input is rejected at a place, and what follows that.
fn put_rejected<W: Write>(out: &mut W, place: &[u8], after: &str) -> io::Result<()> {
    out.write_all(b"rejected at ")?;
    out.write_all(place)?;
    out.write_all(after.as_bytes())
}
