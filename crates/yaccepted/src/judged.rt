//! Whether the conflicts of a grammar are accepted.

use crate::conflict::{Conflict, Conflicts};
use crate::expected::{Counts, Expectation};
use crate::found::{MOST_FOUND, found_in};
use crate::list::{List, Trouble, list_of};
use crate::opening::Counted;
use crate::refusal::wrong_line;
use crate::written::put_list;
use std::alloc::{AllocError, Global};
use std::fs;
use std::io::{self, ErrorKind, Write};
use std::rt::Files;
use yexplain::text::Bytes;
use yfaults::opening::Opened;
use yfiles::diagnostic::{Diagnostic, Diagnostics, Severity};
use yfiles::reading::{LONGEST_INPUT, Limited, undone};
use yfiles::writing::write_over;
use yfrontend::notes::Source;

/// The most conflicts that are listed of those that are new, and of those that are gone.
const MOST_TOLD: usize = 1_000;

/// What is accepted.
#[derive(Clone, Copy)]
pub struct Asked<'a> {
    /// The path of the grammar file.
    pub grammar: &'a str,
    /// The numbers that the option `--expect` gives, in place of those of the file.
    pub expect: Option<Counts>,
    /// The path of the list of accepted conflicts.
    pub accept: Option<&'a str>,
    /// Whether the list is written anew.
    pub update: bool,
}

/// What a list comes to.
#[derive(Drop)]
pub struct Listed {
    /// The conflicts that it hasn't.
    pub new: Vec<Conflict>,
    /// Those that it has, and the grammar hasn't.
    pub gone: Vec<Conflict>,
    /// How many it has that the grammar has, too; once it is written anew, all of the grammar.
    pub accepted: usize,
    /// Whether it is written anew.
    pub is_updated: bool,
}

/// What is said of the conflicts of a grammar.
#[derive(Drop)]
pub struct Judged {
    /// Whether their numbers are the expected ones; nothing where nobody expects any.
    pub expected: Option<bool>,
    /// What the list comes to, where there is one.
    pub listed: Option<Listed>,
}

impl Judged {
    /// Whether all conflicts are accepted; nothing where neither numbers nor a list are given.
    pub fn is_accepted(&self) -> Option<bool> {
        let listed = self
            .listed
            .as_ref()
            .map(|it| it.is_updated || it.new.is_empty());
        match (self.expected, listed) {
            (Some(expected), Some(listed)) => Some(expected && listed),
            (expected, listed) => expected.or(listed),
        }
    }
}

/// The conflicts that aren't among others.
fn beside(alloc: Global, conflicts: &Conflicts, others: &Conflicts) -> io::Result<Vec<Conflict>> {
    let mut beside = Vec::new(alloc);
    for conflict in &conflicts.all {
        if !others.has(alloc, conflict)? {
            let conflict = conflict.copy(alloc)?;
            beside.push(conflict).map_err(AllocError::from)?;
        }
    }
    Ok(beside)
}

/// The list of a path, which may be absent where it is to be written; where it can't be read or is
/// refused, that is said, and the exit status is the answer.
fn read_list<F: Files + AllocGlobal>(
    rt: &F,
    path: &str,
    may_lack: bool,
    told: &mut Diagnostics,
) -> io::Result<Result<List, u8>> {
    if may_lack && fs::metadata(rt, path).is_err() {
        return Ok(Ok(List::new(rt.alloc())));
    }
    let most = LONGEST_INPUT;
    let bytes = match (Limited { path, most }).bytes_or_status(rt, false, told)? {
        Ok(bytes) => bytes,
        Err(status) => return Ok(Err(status)),
    };
    match list_of(rt.alloc(), &bytes) {
        Ok(list) => Ok(Ok(list)),
        Err(Trouble::Wrong(line, why)) => {
            told.add(wrong_line(rt.alloc(), (path, &bytes), line, why)?)?;
            Ok(Err(1))
        }
        Err(Trouble::Memory) => Err(io::Error::from(ErrorKind::OutOfMemory)),
    }
}

/// How the conflicts are told that a list hasn't, or that the grammar hasn't any more.
#[derive(Clone, Copy)]
pub struct Telling<'a> {
    /// The path of the grammar file, and that of the list.
    pub paths: (&'a str, &'a str),
    /// How bad a conflict is that the list hasn't.
    pub severity: Severity,
    /// Whether all conflicts are told, as programs want them.
    pub is_whole: bool,
}

/// Tells conflicts as a list has them, each after a front.
fn add_conflicts(
    alloc: Global,
    told: &mut Diagnostics,
    (path, front): (&str, &str),
    conflicts: &[Conflict],
    is_whole: bool,
) -> io::Result<()> {
    let most = if is_whole { usize::MAX } else { MOST_TOLD };
    for conflict in conflicts.iter().take(most) {
        let mut one = Diagnostic::new(alloc, Some(path), Some(conflict.spot))?;
        one.category = conflict.category;
        let token = Bytes(&conflict.token);
        write!(one.message, "{front}conflict on {token}")?;
        for item in [&conflict.taken, &conflict.other] {
            let (mut note, item) = (Vec::new(alloc), Bytes(item));
            write!(note, "{item}")?;
            one.help(note)?;
        }
        told.add(one)?;
    }
    let more = conflicts.len().saturating_sub(most);
    if more > 0 {
        let mut one = Diagnostic::new(alloc, Some(path), None)?;
        write!(one.message, "{front}conflicts more: {more}")?;
        told.add(one)?;
    }
    Ok(())
}

/// Writes a list anew, and gives the exit status.
fn update<F: Files + AllocGlobal>(
    rt: &F,
    (grammar, path): (&str, &str),
    list: &List,
    found: &Conflicts,
    told: &mut Diagnostics,
) -> io::Result<u8> {
    let mut text = Vec::new(rt.alloc());
    put_list(rt.alloc(), &mut text, grammar, list, found)?;
    match write_over(rt, path, &text) {
        Ok(()) => Ok(0),
        Err(error) => undone(rt.alloc(), told, ("write", path), error),
    }
}

/// Compares a list with the conflicts that were found, and writes it anew, where that is asked for.
fn judge_list<F: Files + AllocGlobal>(
    rt: &F,
    asked: Asked<'_>,
    path: &str,
    (list, found): (&List, &Conflicts),
    told: &mut Diagnostics,
) -> io::Result<Result<Listed, u8>> {
    let gone = beside(rt.alloc(), &list.accepted, found)?;
    let mut listed = Listed {
        new: beside(rt.alloc(), found, &list.accepted)?,
        accepted: list.accepted.all.len().saturating_sub(gone.len()),
        gone,
        is_updated: false,
    };
    if !asked.update {
        return Ok(Ok(listed));
    }
    match update(rt, (asked.grammar, path), list, found, told)? {
        0 => {
            listed.accepted = found.all.len();
            listed.is_updated = true;
            Ok(Ok(listed))
        }
        status => Ok(Err(status)),
    }
}

/// What a list comes to.
fn listed_in<F: Files + AllocGlobal>(
    rt: &F,
    asked: Asked<'_>,
    path: &str,
    opened: &Opened,
    told: &mut Diagnostics,
) -> io::Result<Result<Listed, u8>> {
    let list = match read_list(rt, path, asked.update, told)? {
        Ok(list) => list,
        Err(status) => return Ok(Err(status)),
    };
    if let Some(found) = found_in(rt.alloc(), &opened.tables, &opened.lines)? {
        return judge_list(rt, asked, path, (&list, &found), told);
    }
    let mut one = Diagnostic::new(rt.alloc(), Some(asked.grammar), None)?;
    write!(
        one.message,
        "more than {MOST_FOUND} conflicts, the most that a list of accepted ones can have"
    )?;
    told.add(one)?;
    Ok(Err(1))
}

/// Whether the numbers of conflicts are the expected ones, where some are; where they aren't, that
/// is told.
fn is_expected(
    alloc: Global,
    asked: Asked<'_>,
    counted: &Counted,
    told: &mut Diagnostics,
) -> io::Result<Option<bool>> {
    let expected = match asked.expect {
        Some(given) => Expectation::Given(given),
        None => counted.expected,
    };
    if !expected.any() {
        return Ok(None);
    }
    let found = Counts::of(&counted.opened.tables);
    let source = Source {
        path: asked.grammar,
        bytes: &counted.bytes,
    };
    expected.is_met(alloc, told, source, found).map(Some)
}

/// What is said of the conflicts of a grammar: whether their numbers are the expected ones, and
/// what a list of accepted ones comes to. Numbers that aren't the expected ones are told. Where the
/// list is refused or can't be read or written, that is said, and the exit status is the answer: 1
/// or 3.
pub fn judge<F: Files + AllocGlobal>(
    rt: &F,
    asked: Asked<'_>,
    counted: &Counted,
    told: &mut Diagnostics,
) -> io::Result<Result<Judged, u8>> {
    let expected = is_expected(rt.alloc(), asked, counted, told)?;
    let Some(path) = asked.accept else {
        let listed = None;
        return Ok(Ok(Judged { expected, listed }));
    };
    match listed_in(rt, asked, path, &counted.opened, told)? {
        Ok(listed) => Ok(Ok(Judged {
            expected,
            listed: Some(listed),
        })),
        Err(status) => Ok(Err(status)),
    }
}

impl Listed {
    /// Tells the conflicts that a list hasn't, and those that the grammar hasn't, each at the line
    /// of its file and as a list has it; nothing once it is written anew.
    pub fn add_told(
        &self,
        alloc: Global,
        told: &mut Diagnostics,
        asked: Telling<'_>,
    ) -> io::Result<()> {
        if self.is_updated {
            return Ok(());
        }
        let ((grammar, path), is_whole) = (asked.paths, asked.is_whole);
        let before = told.all.len();
        add_conflicts(alloc, told, (grammar, "new "), &self.new, is_whole)?;
        told.judge(before, asked.severity);
        let before = told.all.len();
        add_conflicts(alloc, told, (path, "gone: "), &self.gone, is_whole)?;
        told.judge(before, Severity::Warning);
        Ok(())
    }

    /// Writes how many conflicts a list has, how many are new, and how many are gone.
    pub fn put<W: Write>(&self, out: &mut W, path: &str) -> io::Result<()> {
        let (accepted, new, gone) = (self.accepted, self.new.len(), self.gone.len());
        let what = if self.is_updated {
            "written"
        } else {
            "accepted"
        };
        writeln!(out, "{path}: {accepted} {what}, {new} new, {gone} gone")
    }
}
