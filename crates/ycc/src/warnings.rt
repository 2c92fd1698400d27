//! Warnings and errors of a grammar file that is read: which there are, and which are shown.

use crate::ending::{Ending, File};
use crate::examples::tell_examples;
use crate::reading::{Reading, RefusedWord};
use crate::saying::{diagnostic_of, put_counts};
use std::alloc::Global;
use std::mem;
use yexplain::reads::Made;
use yfiles::diagnostic::Diagnostics;
use yfiles::output::Output;
use yfiles::steady::Steady;
use yfindings::bodies::bodies_of;
use yfindings::declared::Declared;
use yfindings::expects::find_expected;
use yfindings::finding::{Finding, Seen, What, about_all, misuse, refusal};
use yfindings::kinds::{Kind, Kinds, Telling};
use yfindings::levels::find_levels;
use yfindings::useless::find_useless;
use yfindings::values::find_in_bodies;
use yfindings::walk::{Conflicts, Walk};
use yimport::import::{Imported, import};
use yimport::refusal::Trouble;
use yimport::symbols::Expected;
use yskeleton::Skeleton;
use ysymbols::let_go;

/// A number of conflicts that differs from the one that a file expects.
fn other<'a>(expected: Option<Expected>, at: Option<usize>, what: What<'a>) -> Finding<'a> {
    Finding {
        kind: None,
        at: expected.map(|it| it.span.from).or(at),
        what,
        before: None,
    }
}

impl Reading<'_> {
    /// The conflicts of the file: as yacc counts them, but in bison's dialect as that does.
    fn conflicts(&self, alloc: Global, is_bison: bool) -> Made<Conflicts> {
        if is_bison && self.imported.is_none() {
            return Ok(Walk::new(alloc, &self.tables)?.conflicts(&self.tables));
        }
        Ok(Conflicts {
            shifts: self.shift_reduce,
            reduces: self.reduce_reduce,
        })
    }

    /// Finds the numbers of conflicts that the file doesn't expect, and those of which it expects
    /// nothing. In bison's dialect `%expect` expects no reduce/reduce conflicts, and `%expect-rr`
    /// is for GLR parsers.
    fn find_conflicts<'a>(
        &self,
        alloc: Global,
        is_bison: bool,
        found: &mut Vec<Finding<'a>>,
    ) -> Made<()> {
        let Conflicts { shifts, reduces } = self.conflicts(alloc, is_bison)?;
        let rest = if is_bison { None } else { self.expected_reduce };
        let place = self.expected_shift.map(|it| it.span.from);
        match self.expected_shift {
            Some(it) if it.number != shifts => {
                let what = What::OtherShifts(shifts, it.number);
                found.push(other(self.expected_shift, None, what))?;
            }
            None if shifts > 0 => {
                found.push(about_all(Kind::ConflictsSr, What::Shifts(shifts)))?;
            }
            _ => {}
        }
        match rest {
            Some(it) if it.number != reduces => {
                let what = What::OtherReduces(reduces, it.number);
                found.push(other(rest, None, what))?;
            }
            None if is_bison && place.is_some() && reduces > 0 => {
                found.push(other(None, place, What::OtherReduces(reduces, 0)))?;
            }
            None if reduces > 0 => {
                found.push(about_all(Kind::ConflictsRr, What::Reduces(reduces)))?;
            }
            _ => {}
        }
        Ok(())
    }
}

/// Finds all that can be warned of in a file, but its conflicts.
fn find_all<'a>(seen: &'a Seen<'a>, kinds: Wanted) -> Made<Vec<Finding<'a>>> {
    let mut declared = Declared::new(seen)?;
    for group in seen.groups {
        declared.find(group)?;
    }
    let none = Vec::new(seen.alloc);
    let mut found = mem::replace(&mut declared.found, none);
    let bodies = bodies_of(seen)?;
    find_in_bodies(seen, &bodies, &mut found)?;
    find_expected(seen, &bodies, &mut found)?;
    if kinds.tells(Kind::Other) {
        find_useless(seen, &bodies, declared.strangers, &mut found)?;
    }
    if kinds.tells(Kind::Precedence) {
        find_levels(seen, &bodies, &mut found)?;
    }
    Ok(found)
}

/// Which kinds are shown of a file.
#[derive(Clone, Copy)]
struct Wanted {
    kinds: Kinds,
    is_bison: bool,
}

impl Wanted {
    /// How something is shown: of byacc's files conflicts are, where no word names a kind.
    fn telling(self, finding: Finding<'_>) -> Telling {
        match finding.kind {
            Some(kind) => self.kinds.telling(kind, self.is_usual(kind)),
            None => Telling::Error,
        }
    }

    /// Whether a kind is shown of a file where no word names it.
    fn is_usual(self, kind: Kind) -> bool {
        self.is_bison || matches!(kind, Kind::ConflictsSr | Kind::ConflictsRr)
    }

    /// Whether a kind is shown.
    fn tells(self, kind: Kind) -> bool {
        self.kinds.telling(kind, self.is_usual(kind)) != Telling::Not
    }
}

/// The import of a file that was read without one, where it is needed and succeeds.
pub fn import_of(
    rt: &HostRuntime,
    file: &File,
    read: &Reading<'_>,
    is_needed: bool,
) -> Result<Option<Imported>, Ending> {
    if read.imported.is_some() || !is_needed {
        return Ok(None);
    }
    match import(rt.alloc(), &file.bytes) {
        Ok(imported) => Ok(Some(imported)),
        Err(Trouble::Refused(_)) => Ok(None),
        Err(Trouble::Memory) => Err(Ending::Memory),
    }
}

/// Says why a variable that a word sets is refused.
fn put_refused_word(out: &mut Output, word: RefusedWord<'_>) {
    out.put_pieces(&[b"ycc: -", &[word.by], b" ", word.variable]);
    out.put(": ");
    out.line(word.refusal.text());
}

/// What is told of a file, in its order.
struct Teller<'a> {
    alloc: Global,
    file: &'a File,
    wanted: Wanted,
    told: Diagnostics,
    /// Whether there is an error.
    is_refused: bool,
    /// The conflicts of one of byacc's files, which are shown as byacc does.
    shifts: usize,
    reduces: usize,
}

impl Drop for Teller<'_> {
    // A call in each owner, which keeps their proofs short.
    fn drop(self) {
        let_go!(self: Teller { alloc, file, wanted, told, is_refused, shifts, reduces });
    }
}

impl Teller<'_> {
    /// Adds what is found.
    fn add(&mut self, finding: Finding<'_>) -> Result<(), Ending> {
        let telling = self.wanted.telling(finding);
        self.is_refused = self.is_refused || telling == Telling::Error;
        match (finding.what, telling) {
            (_, Telling::Not) => {}
            (What::Shifts(count), Telling::Warning) if !self.wanted.is_bison => self.shifts = count,
            (What::Reduces(count), Telling::Warning) if !self.wanted.is_bison => {
                self.reduces = count;
            }
            _ => {
                let source = (self.file.path.as_str(), self.file.bytes.as_slice());
                let one = diagnostic_of(self.alloc, source, finding, telling)?;
                self.told.add(one)?;
            }
        }
        Ok(())
    }

    /// Adds two lists in the order of the file; at one place the first goes before.
    fn add_both(&mut self, found: &[Finding<'_>], faults: &[Finding<'_>]) -> Result<(), Ending> {
        let mut next = 0usize;
        for finding in found {
            for fault in faults.get(next..).unwrap_or(&[]) {
                if place_of(finding) <= place_of(fault) {
                    break;
                }
                self.add(*fault)?;
                next = next.saturating_add(1);
            }
            self.add(*finding)?;
        }
        for fault in faults.get(next..).unwrap_or(&[]) {
            self.add(*fault)?;
        }
        Ok(())
    }

    /// Says all of it, which variables of words are refused, and the conflicts of byacc's files:
    /// whether there is an error, and whether all was written.
    fn finish(self, rt: &HostRuntime, read: &Reading<'_>) -> Result<(bool, bool), Ending> {
        let mut errors = Steady::new(rt.stderr(), true);
        self.told.put(&mut errors, "ycc")?;
        let mut out = Output::new(self.alloc);
        for word in &read.refused_words {
            put_refused_word(&mut out, *word);
        }
        put_counts(&mut out, &self.file.path, (self.shifts, self.reduces));
        out.finish(&mut errors)?;
        let is_refused = self.is_refused || !read.refused_words.is_empty();
        Ok((is_refused, errors.finish().is_ok()))
    }
}

/// Where something stands, for what has no place before all others.
fn place_of(finding: &Finding<'_>) -> usize {
    finding.at.map_or(0, |at| at.saturating_add(1))
}

/// What is wrong with values in code, and what no parser has, in the order of the file.
fn faults_of<'a>(alloc: Global, skeleton: &Skeleton<'a>) -> Made<Vec<Finding<'a>>> {
    let mut faults = Vec::new(alloc);
    for misused in &skeleton.misuses(alloc)? {
        faults.push(misuse(*misused))?;
    }
    for refused in &skeleton.parts.refused {
        faults.push(refusal(*refused))?;
    }
    faults.sort_by_key(|fault| place_of(fault))?;
    Ok(faults)
}

/// Finds what is to be shown of a file, where it can be looked at, and says it in the order of the
/// file, with what is wrong in it, conflicts at the end: whether all was written. Where there is an
/// error among it, the file is refused.
pub fn tell_found(
    rt: &HostRuntime,
    (kinds, is_bison): (Kinds, bool),
    file: &File,
    read: &Reading<'_>,
    skeleton: &Skeleton<'_>,
    seen: Option<&Seen<'_>>,
) -> Result<bool, Ending> {
    let (alloc, wanted) = (rt.alloc(), Wanted { kinds, is_bison });
    let mut found = Vec::new(alloc);
    if let Some(seen) = seen {
        found = find_all(seen, wanted)?;
    }
    if !wanted.is_bison {
        found.retain(|finding| finding.kind.is_some());
    }
    found.sort_by_key(|finding| place_of(finding))?;
    let mut teller = Teller {
        alloc,
        file,
        wanted,
        told: Diagnostics::new(alloc),
        is_refused: false,
        shifts: 0,
        reduces: 0,
    };
    teller.add_both(&found, &faults_of(alloc, skeleton)?)?;
    let mut conflicts = Vec::new(alloc);
    read.find_conflicts(alloc, wanted.is_bison, &mut conflicts)?;
    for conflict in &conflicts {
        teller.add(*conflict)?;
    }
    let (is_refused, is_told) = teller.finish(rt, read)?;
    let telling = wanted.kinds.telling(Kind::Counterexamples, false);
    let has_conflicts = read.shift_reduce > 0 || read.reduce_reduce > 0;
    if has_conflicts && telling != Telling::Not {
        tell_examples(rt, file, skeleton, telling)?;
    }
    if is_refused || (has_conflicts && telling == Telling::Error) {
        Err(Ending::Refused)
    } else {
        Ok(is_told)
    }
}
