//! `ydebug test`: the tests of a language.

use crate::expected::Expected;
use crate::inputs::{Tests, is_expectation};
use crate::judging::Came;
use crate::tally::Tally;
use std::alloc::AllocError;
use std::io::{self, Write};
use std::rt::Files;
use yfaults::opening::Opened;
use yfiles::diagnostic::Diagnostics;
use yfiles::reading::Limited;
use yinput::language::{Language, LanguageFiles};
use yinput::verdict::verdict_on;
use ymessages::messaged::Messaged;

/// The folder of inputs that are to be accepted.
const GOOD: &str = "good";

/// The folder of those that are to be rejected.
const BAD: &str = "bad";

/// What is asked for: the tests of a language.
#[derive(Clone, Copy)]
pub struct Asked<'a> {
    /// The files of the language.
    pub files: LanguageFiles<'a>,
    /// The path of the folder that has both folders of inputs.
    pub folder: &'a str,
    /// The file of messages.
    pub messages: Option<Limited<'a>>,
    /// The most bytes of an input.
    pub most: u64,
}

/// Both folders of inputs: those that are to be accepted, and those that aren't. Where one can't
/// be read or has none, that is said, and the exit status is the answer.
fn both_of<F: Files + AllocGlobal + Clone + Drop>(
    rt: &F,
    folder: &str,
    told: &mut Diagnostics,
) -> io::Result<Result<(Tests, Tests), u8>> {
    let good = Tests::of(rt, (folder, GOOD), told)?;
    let bad = Tests::of(rt, (folder, BAD), told)?;
    match (good, bad) {
        (Ok(good), Ok(bad)) => Ok(Ok((good, bad))),
        (Err(good), Err(bad)) => Ok(Err(good.max(bad))),
        (Err(status), Ok(_)) | (Ok(_), Err(status)) => Ok(Err(status)),
    }
}

impl Asked<'_> {
    /// What comes of the input of a path, which is kept where it is to be accepted.
    fn came_of<F: Files + AllocGlobal>(
        self,
        rt: &F,
        told: &Messaged,
        (path, is_good): (&str, bool),
        tally: &mut Tally,
    ) -> io::Result<Came> {
        let (alloc, most, language) = (rt.alloc(), self.most, &told.language);
        let input = match language.read(rt, Limited { path, most })? {
            Ok(input) => input,
            Err(fault) => return Came::of_fault(rt, told, self.files.grammar, &fault),
        };
        let verdict = verdict_on(alloc, &language.opened.tables, &input.tokens)?;
        tally.meet(told, &verdict);
        let came = Came::of_verdict(alloc, told, &input, &verdict)?;
        if is_good {
            tally.good.push(input).map_err(AllocError::from)?;
        }
        Ok(came)
    }

    /// Tries an input of a folder: writes why it fails, and gives the exit status; nothing where
    /// it passes.
    fn try_input<F: Files + AllocGlobal, W: Write>(
        self,
        rt: &F,
        told: &Messaged,
        (tests, name, is_good): (&Tests, &str, bool),
        tally: &mut Tally,
        why: &mut W,
    ) -> io::Result<Option<u8>> {
        let (alloc, most, folder) = (rt.alloc(), self.most, &tests.path);
        let path = format!(in alloc; "{folder}/{name}")?;
        let came = self.came_of(rt, told, (path.as_str(), is_good), tally)?;
        let mut expected = None;
        let beside = if is_good {
            None
        } else {
            tests.expectation(name)
        };
        if let Some(name) = beside {
            let path = format!(in alloc; "{folder}/{name}")?;
            let (path, mut said) = (path.as_str(), Diagnostics::new(alloc));
            match Expected::read(rt, Limited { path, most }, &mut said)? {
                Ok(read) => expected = Some(read),
                Err(status) => {
                    write!(why, "what is expected can't be read: {name}")?;
                    return Ok(Some(status));
                }
            }
        }
        if !came.put_wrong(why, is_good, expected.as_ref())? {
            return Ok(None);
        }
        match came {
            Came::Unjudged(status, _) => Ok(Some(status)),
            _ => Ok(Some(1)),
        }
    }

    /// Tries all inputs of a folder, and writes a line for each.
    fn try_all<F: Files + AllocGlobal, W: Write>(
        self,
        rt: &F,
        told: &Messaged,
        (tests, is_good): (&Tests, bool),
        tally: &mut Tally,
        out: &mut W,
    ) -> io::Result<()> {
        let below = if is_good { GOOD } else { BAD };
        for name in &tests.names {
            let mut why = Vec::new(rt.alloc());
            let failed = if !is_expectation(name) {
                self.try_input(rt, told, (tests, name.as_str(), is_good), tally, &mut why)?
            } else if is_good {
                write!(why, "inputs that are to be accepted have no such file")?;
                Some(1)
            } else if !tests.has_input(name) {
                write!(why, "there is no input for which this is expected")?;
                Some(1)
            } else {
                continue;
            };
            tally.count(failed);
            if failed.is_some() {
                write!(out, "FAILED {below}/{name}: ")?;
                out.write_all(&why)?;
                writeln!(out)?;
            } else {
                writeln!(out, "ok {below}/{name}")?;
            }
        }
        Ok(())
    }
}

/// Writes what comes of the tests that are asked for, and gives the exit status: 0 where all pass;
/// 1 where one fails, the grammar, the SPEC or the file of messages is refused, or a folder has no
/// input; 3 where something can't be read, or memory runs out.
pub fn run_test<F: Files + AllocGlobal + Clone + Drop, W: Write, E: Write>(
    rt: &F,
    asked: Asked<'_>,
    out: &mut W,
    errors: &mut E,
) -> io::Result<u8> {
    let alloc = rt.alloc();
    let mut said = Diagnostics::new(alloc);
    let opened = Messaged::open(rt, asked.files, asked.messages, &mut said)?;
    let both = both_of(rt, asked.folder, &mut said)?;
    said.put(errors, "ydebug")?;
    let (told, good, bad) = match (opened, both) {
        (Ok(told), Ok((good, bad))) => (told, good, bad),
        (Err(opened), Err(both)) => return Ok(opened.max(both)),
        (Err(status), Ok(_)) | (Ok(_), Err(status)) => return Ok(status),
    };
    let mut tally = Tally::new(alloc, &told)?;
    asked.try_all(rt, &told, (&good, true), &mut tally, out)?;
    asked.try_all(rt, &told, (&bad, false), &mut tally, out)?;
    tally.put_messages(alloc, out, &told)?;
    let Language { opened, .. } = told.into_language();
    let Opened { tables, .. } = opened;
    tally.put_end(alloc, out, tables)?;
    Ok(tally.status)
}
