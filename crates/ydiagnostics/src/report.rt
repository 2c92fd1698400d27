//! `ydebug conflicts` for programs.

use crate::common::common_sheet;
use crate::document::{ConflictSheet, Said};
use crate::format::Format;
use crate::kinds::Shown;
use crate::scene::Scene;
use crate::sought::sought_for;
use std::alloc::Global;
use std::io::{self, Write};
use std::rt::Files;
use yaccepted::expected::{Counts, Expectation};
use yaccepted::judged::{self, Judged, Telling, judge};
use yaccepted::opening::{Counted, File, open_counted};
use yexplain::reads::grammar_of;
use yfaults::opening::Opened;
use yfiles::category::Choice;
use yfiles::diagnostic::{Diagnostics, Severity};
use yparse::Session;
use yreports::blocks::shown_of;
use yreports::causes::causes_of;
use yreports::warnings::warnings_of;
use ysearch::groups::Conflicts;
use ysearch::trial::empty_session;

/// What is asked for.
#[derive(Clone, Copy)]
pub struct Asked<'a> {
    /// The grammar file.
    pub file: File<'a>,
    /// Which conflicts are accepted.
    pub accepted: judged::Asked<'a>,
    /// Which conflicts and warnings are shown, and which make the status 1.
    pub choice: Choice,
    /// The form of what is said.
    pub format: Format,
}

/// What is said, with this exit status and without conflicts.
fn said<'a>(asked: Asked<'a>, status: u8, told: &'a Diagnostics) -> Said<'a> {
    Said {
        form: "conflicts",
        grammar: asked.file.path,
        status,
        told,
        conflicts: None,
        inputs: None,
    }
}

/// Tells the conflicts of a session without tokens that are shown, and gives them as data.
fn sheet_of(
    alloc: Global,
    told: &mut Diagnostics,
    (asked, shown): (Asked<'_>, Shown<'_>),
    session: &mut Session,
    accepted: Option<bool>,
) -> io::Result<ConflictSheet> {
    let counts = Counts::of(session.tables());
    let found = Conflicts::new(alloc, session.tables())?;
    let (cells, others, all) = (found.cells, found.others, found.groups.len());
    let common = if asked.format == Format::Json {
        causes_of(alloc, session.tables(), shown.lines, &found)?
    } else {
        None
    };
    let found = shown_of(alloc, found, asked.choice.shown)?;
    let sought = sought_for(alloc, session, shown.lines, &found)?;
    let scene = Scene {
        alloc,
        shown,
        tables: session.tables(),
        sought: &sought,
    };
    let grammar = grammar_of(scene.tables);
    let mut sheet = ConflictSheet {
        shift_reduce: counts.shift_reduce,
        reduce_reduce: counts.reduce_reduce,
        cells,
        accepted,
        kinds: Vec::new(alloc),
        others,
        causes: Vec::new(alloc),
        common: None,
    };
    sheet.kinds = shown.kind_sheets(alloc, grammar, &found, &sought.findings)?;
    sheet.causes = scene.tell(told, &found)?;
    if let Some(mut common) = common {
        let is_whole = found.groups.len() == all;
        let known = if is_whole { Some(&sought) } else { None };
        sheet.common = Some(common_sheet(alloc, (grammar, shown.lines), &mut common, known)?);
    }
    Ok(sheet)
}

/// How bad conflicts are that are judged so; what a list hasn't is reported by itself.
pub fn severity_of(judged: &Judged) -> Severity {
    if judged.is_accepted() == Some(true) || judged.listed.is_some() {
        Severity::Note
    } else {
        Severity::Warning
    }
}

/// Tells the conflicts and the warnings of a grammar whose conflicts are judged, and gives the
/// conflicts as data, and the grammar again.
pub fn tell_all(
    alloc: Global,
    told: &mut Diagnostics,
    asked: Asked<'_>,
    (opened, is_plain): (Opened, bool),
    judged: &Judged,
) -> io::Result<(ConflictSheet, Opened)> {
    let (path, accepted) = (asked.file.path, judged.is_accepted());
    let Opened { tables, lines } = opened;
    let warnings = warnings_of(alloc, path, &tables, &lines)?;
    let mut session = empty_session(alloc, tables);
    let shown = Shown {
        lines: &lines,
        path,
        severity: severity_of(judged),
        is_plain,
    };
    let sheet = sheet_of(alloc, told, (asked, shown), &mut session, accepted)?;
    told.take(warnings)?;
    let tables = session.into_tables();
    Ok((sheet, Opened { tables, lines }))
}

/// Writes what is said of a grammar whose conflicts are judged, after what was told of its files,
/// and gives the exit status.
fn put_judged<W: Write>(
    alloc: Global,
    asked: Asked<'_>,
    grammar: (Opened, bool),
    judged: &Judged,
    mut told: Diagnostics,
    out: &mut W,
) -> io::Result<u8> {
    let path = asked.file.path;
    let by = match judged.expected {
        Some(false) => asked.choice,
        _ => asked.choice.without_conflicts(),
    };
    // an import tells of its directives
    let is_surprised = told.judge_by(0, by);
    let before = told.all.len();
    if let Some(listed) = &judged.listed {
        let telling = Telling {
            paths: (path, asked.accepted.accept.unwrap_or(path)),
            severity: Severity::Warning,
            is_whole: true,
        };
        listed.add_told(alloc, &mut told, telling)?;
    }
    let (sheet, _) = tell_all(alloc, &mut told, asked, grammar, judged)?;
    let is_bad = told.judge_by(before, asked.choice) || is_surprised;
    let told = told.only(alloc, asked.choice.shown)?;
    let mut all = said(asked, u8::from(is_bad), &told);
    all.conflicts = Some(&sheet);
    all.put(alloc, out, asked.format)
}

/// Judges the conflicts of a grammar that is open, writes what is said, after what was told of its
/// files, and gives the exit status.
fn put_counted<F: Files + AllocGlobal, W: Write>(
    rt: &F,
    asked: Asked<'_>,
    counted: Counted,
    mut told: Diagnostics,
    out: &mut W,
) -> io::Result<u8> {
    let (alloc, before) = (rt.alloc(), told.all.len());
    match judge(rt, asked.accepted, &counted, &mut told)? {
        Ok(judged) => {
            let is_plain = !matches!(counted.expected, Expectation::Directives(..));
            let Counted { opened, .. } = counted;
            put_judged(alloc, asked, (opened, is_plain), &judged, told, out)
        }
        Err(status) => {
            told.judge(before, Severity::Error);
            let told = told.only(alloc, asked.choice.shown)?;
            said(asked, status, &told).put(alloc, out, asked.format)
        }
    }
}

/// Writes what is asked for, and gives the exit status, as `ydebug conflicts` does. All that is
/// said goes to `out`.
pub fn run_report<F: Files + AllocGlobal, W: Write>(
    rt: &F,
    asked: Asked<'_>,
    out: &mut W,
) -> io::Result<u8> {
    let mut told = Diagnostics::new(rt.alloc());
    match open_counted(rt, asked.file, &mut told)? {
        Ok(counted) => put_counted(rt, asked, counted, told, out),
        Err(status) => {
            told.judge(0, Severity::Error);
            let told = told.only(rt.alloc(), asked.choice.shown)?;
            said(asked, status, &told).put(rt.alloc(), out, asked.format)
        }
    }
}
