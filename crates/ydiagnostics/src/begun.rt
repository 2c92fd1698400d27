//! What is said of a grammar in two steps: where its conflicts stand, and then all of it.

use crate::document::ConflictSheet;
use crate::format::Format;
use crate::kinds::Shown;
use crate::report::{Asked, severity_of, tell_all};
use crate::scene::Scene;
use crate::sought::Sought;
use std::alloc::Global;
use std::io::{self, ErrorKind};
use std::rt::Files;
use yaccepted::expected::Expectation;
use yaccepted::judged::{self, Judged, judge};
use yaccepted::opening::{Counted, File, open_bytes};
use yfaults::opening::Opened;
use yfiles::category::Choice;
use yfiles::diagnostic::{Diagnostics, Severity};
use yfrontend::import::Dialect;
use yreports::blocks::blocks_of;
use ysearch::groups::Conflicts;
use ysymbols::let_go;

/// What is said of a grammar, and the grammar, where it is taken.
pub struct Told {
    /// What is said.
    pub told: Diagnostics,
    /// Its conflicts.
    pub conflicts: Option<ConflictSheet>,
    /// Its tables, and where things stand in its file.
    pub opened: Option<Opened>,
}

impl Drop for Told {
    // A call in each owner, which keeps their proofs short.
    fn drop(self) {
        let_go!(self: Told { told, conflicts, opened });
    }
}

/// A grammar that is open, whether its file is one of yacc, and how its conflicts are judged.
#[derive(Drop)]
struct Taken {
    opened: Opened,
    is_plain: bool,
    judged: Judged,
}

/// A file that was read, before its conflicts are explained.
pub struct Begun {
    /// What is said of it so far.
    told: Diagnostics,
    /// The grammar, where it is taken.
    taken: Option<Taken>,
}

impl Drop for Begun {
    // A call in each owner, which keeps their proofs short.
    fn drop(self) {
        let_go!(self: Begun { told, taken });
    }
}

/// What is asked for, where nothing but the file itself says which conflicts are accepted.
fn asked_for(path: &str) -> io::Result<Asked<'_>> {
    let Some(choice) = Choice::of(&[], &[]) else {
        return Err(io::Error::from(ErrorKind::Other));
    };
    Ok(Asked {
        file: File {
            path,
            dialect: Dialect::Seen,
            comments: false,
        },
        accepted: judged::Asked {
            grammar: path,
            expect: None,
            accept: None,
            update: false,
        },
        choice,
        format: Format::Gcc,
    })
}

/// Reads a file of these bytes, and makes its tables.
pub fn begun_of<F: Files + AllocGlobal>(rt: &F, path: &str, bytes: Vec<u8>) -> io::Result<Begun> {
    let (asked, mut told) = (asked_for(path)?, Diagnostics::new(rt.alloc()));
    let Ok(counted) = open_bytes(rt.alloc(), asked.file, bytes, &mut told)? else {
        return Ok(Begun { told, taken: None });
    };
    let Ok(judged) = judge(rt, asked.accepted, &counted, &mut told)? else {
        return Ok(Begun { told, taken: None });
    };
    let is_plain = !matches!(counted.expected, Expectation::Directives(..));
    let Counted { opened, .. } = counted;
    let taken = Some(Taken {
        opened,
        is_plain,
        judged,
    });
    Ok(Begun { told, taken })
}

impl Begun {
    /// The grammar, where it is taken.
    pub fn opened(&self) -> Option<&Opened> {
        match &self.taken {
            Some(taken) => Some(&taken.opened),
            None => None,
        }
    }

    /// The same, to be kept.
    pub fn into_opened(self) -> Option<Opened> {
        let Begun { told: _, taken } = self;
        let Taken { opened, .. } = taken?;
        Some(opened)
    }

    /// Its conflicts where they stand, without what explains them; nothing of a file without
    /// conflicts or that is refused.
    pub fn brief(&self, alloc: Global, path: &str) -> io::Result<Diagnostics> {
        let mut told = Diagnostics::new(alloc);
        let Some(taken) = &self.taken else {
            return Ok(told);
        };
        let Opened { tables, lines } = &taken.opened;
        let found = Conflicts::new(alloc, tables)?;
        let sought = Sought::none(alloc, blocks_of(alloc, tables, lines, &found)?);
        let shown = Shown {
            lines,
            path,
            severity: severity_of(&taken.judged),
            is_plain: taken.is_plain,
        };
        let scene = Scene {
            alloc,
            shown,
            tables,
            sought: &sought,
        };
        scene.tell_brief(&mut told, &found)?;
        Ok(told)
    }

    /// What `run_report` says of the file, where nothing but that says which conflicts are accepted.
    pub fn explained(self, alloc: Global, path: &str) -> io::Result<Told> {
        let asked = asked_for(path)?;
        let Begun { told, taken } = self;
        let mut told = told;
        let Some(taken) = taken else {
            told.judge(0, Severity::Error);
            return Ok(Told {
                told: told.only(alloc, asked.choice.shown)?,
                conflicts: None,
                opened: None,
            });
        };
        let Taken {
            opened,
            is_plain,
            judged,
        } = taken;
        let (conflicts, opened) = tell_all(alloc, &mut told, asked, (opened, is_plain), &judged)?;
        Ok(Told {
            told: told.only(alloc, asked.choice.shown)?,
            conflicts: Some(conflicts),
            opened: Some(opened),
        })
    }
}
