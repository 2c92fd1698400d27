//! Verdicts on inputs.

use crate::events::Events;
use crate::kinds::names_of;
use crate::late::Late;
use std::alloc::Global;
use std::io;
use yexplain::reads::Made;
use yfiles::diagnostic::{Diagnostic, Diagnostics};
use yinput::language::Input;
use yinput::spelled::Spoken;
use yinput::verdict::Verdict;
use ymessages::messaged::place;
use ysymbols::{Grammar, let_go};

/// What comes of an input.
pub struct InputSheet {
    file: String,
    /// `accepted`, `rejected`, `undecided` or `refused`.
    verdict: &'static str,
    /// How many steps its parse takes, where it is accepted.
    steps: Option<usize>,
    /// The number of the token at which it is rejected, and that token.
    number: Option<usize>,
    token: Option<String>,
    /// The tokens that can come there, and those of which that can't be told.
    expected: Vec<String>,
    unknown: Vec<String>,
    /// Where a parser with default reductions detects the error, where that is another state.
    late: Option<Late>,
}

impl Drop for InputSheet {
    // A call in each owner, which keeps their proofs short.
    fn drop(self) {
        let_go!(self: InputSheet {
            file, verdict, steps, number, token, expected, unknown, late
        });
    }
}

impl InputSheet {
    /// Adds it to a document.
    pub fn add_to(&self, events: &mut Events) {
        events.begin();
        events.text("file", &self.file);
        events.word("verdict", self.verdict);
        events.number_if("steps", self.steps);
        events.number_if("number", self.number);
        events.text_if("token", &self.token);
        events.texts("expected", &self.expected);
        events.texts("unknown", &self.unknown);
        match &self.late {
            Some(late) => {
                events.key("late");
                late.add_to(events);
            }
            None => events.nothing("late"),
        }
        events.end();
    }
}

impl InputSheet {
    /// That of an input of which no more is known.
    pub fn new(alloc: Global, path: &str, verdict: &'static str) -> Made<InputSheet> {
        Ok(InputSheet {
            file: String::from_str(alloc, path)?,
            verdict,
            steps: None,
            number: None,
            token: None,
            expected: Vec::new(alloc),
            unknown: Vec::new(alloc),
            late: None,
        })
    }

    /// That of a verdict.
    fn of(alloc: Global, grammar: &Grammar, path: &str, verdict: &Verdict) -> Made<InputSheet> {
        let word = match verdict {
            Verdict::Accepted(_) => "accepted",
            Verdict::Rejected(_) => "rejected",
            Verdict::Undecided => "undecided",
        };
        let mut sheet = InputSheet::new(alloc, path, word)?;
        match verdict {
            Verdict::Accepted(steps) => sheet.steps = Some(*steps),
            Verdict::Rejected(rejection) => {
                let mut names = names_of(alloc, grammar, &[rejection.token])?;
                sheet.number = Some(rejection.number);
                sheet.token = names.pop();
                sheet.expected = names_of(alloc, grammar, &rejection.wanted.can)?;
                sheet.unknown = names_of(alloc, grammar, &rejection.wanted.unknown)?;
            }
            Verdict::Undecided => {}
        }
        Ok(sheet)
    }
}

/// What is said of an input of these bytes, with where its error is detected late, a message for
/// it, where there is one, and the exit status where nothing else is said.
pub fn answer_of(
    alloc: Global,
    told: &mut Diagnostics,
    spoken: Spoken<'_>,
    (path, source): (&str, &[u8]),
    (input, verdict, late): (&Input, &Verdict, Option<Late>),
    message: Option<&[u8]>,
) -> io::Result<(InputSheet, u8)> {
    let mut sheet = InputSheet::of(alloc, spoken.grammar, path, verdict)?;
    let Some(mut one) = verdict.diagnostic(alloc, spoken, path, input, message)? else {
        return Ok((sheet, 0));
    };
    if let Verdict::Rejected(rejection) = verdict {
        place(&mut one, (path, source), input, rejection.number);
    }
    if let Some(late) = &late {
        one.help(late.text(alloc)?)?;
    }
    sheet.late = late;
    told.add(one)?;
    Ok((sheet, verdict.status()))
}
