//! Numbers of conflicts that are expected, beside those that are counted.

use crate::comments::Numbers;
use std::alloc::Global;
use std::io::{self, Write};
use yfiles::category::Category;
use yfiles::diagnostic::{Diagnostic, Diagnostics, Severity};
pub use yfrontend::compared::Counts;
use yfrontend::notes::Source;
use yimport::symbols::Expected;

/// The numbers of conflicts that are expected, and who expects them.
#[derive(Clone, Copy, Drop)]
pub enum Expectation {
    /// Nobody expects a number.
    Open,
    /// The option `--expect`.
    Given(Counts),
    /// Comments of the file.
    Comments(Numbers),
    /// Directives of a file of bison or byacc, and the conflicts as bison counts them. That these
    /// aren't the ones that a directive names was told.
    Directives(Numbers, Counts),
}

/// The numbers that an option's word gives: `N`, or `N,M`.
pub fn numbers_in(word: &str) -> Option<Counts> {
    let (first, second) = word.split_once(',').unwrap_or((word, "0"));
    Some(Counts {
        shift_reduce: first.parse::<usize>().ok()?,
        reduce_reduce: second.parse::<usize>().ok()?,
    })
}

/// A kind of conflict: its word in a file, its name, and its category.
const KINDS: [(&str, &str, Category); 2] = [
    ("%expect", "shift/reduce", Category::ConflictsSr),
    ("%expect-rr", "reduce/reduce", Category::ConflictsRr),
];

/// Tells where the numbers of an option aren't those that were counted, and says whether they are.
fn is_given(
    alloc: Global,
    told: &mut Diagnostics,
    path: &str,
    given: Counts,
    found: Counts,
) -> io::Result<bool> {
    let Counts {
        shift_reduce: shifts,
        reduce_reduce: reduces,
    } = given;
    let (sr, rr) = (Category::ConflictsSr, Category::ConflictsRr);
    for (kind, wanted, counted, category) in [
        ("shift/reduce", shifts, found.shift_reduce, sr),
        ("reduce/reduce", reduces, found.reduce_reduce, rr),
    ] {
        if wanted != counted {
            let mut one = Diagnostic::new(alloc, Some(path), None)?;
            one.severity = Severity::Warning;
            one.category = Some(category);
            write!(
                one.message,
                "--expect {shifts},{reduces}: {kind} conflicts: {counted}"
            )?;
            told.add(one)?;
        }
    }
    Ok(given == found)
}

/// A kind of conflict with the number that a file expects, where it expects one, that of the other
/// kind, and the number that was counted.
#[derive(Clone, Copy)]
struct Compared {
    kind: usize,
    wanted: Option<Expected>,
    other: Option<Expected>,
    counted: usize,
    /// Whether conflicts are counted as bison does, and a number that isn't the wanted one is
    /// reported.
    is_bison: bool,
}

impl Compared {
    /// Whether the number is the expected one; where only the other kind has one, that is 0.
    fn fits(self) -> bool {
        match (self.wanted, self.other) {
            (Some(wanted), _) => wanted.number == self.counted,
            (None, Some(_)) => self.counted == 0,
            (None, None) => true,
        }
    }

    /// Tells that the number isn't the expected one, where that isn't told.
    fn add(self, alloc: Global, told: &mut Diagnostics, source: Source<'_>) -> io::Result<()> {
        let counted = self.counted;
        let Some(Expected { span, number }) = self.wanted.or(self.other) else {
            return Ok(());
        };
        if self.wanted.is_some() && self.is_bison {
            return Ok(());
        }
        let unknown = ("", "", Category::Other);
        let (word, kind, category) = KINDS.get(self.kind).copied().unwrap_or(unknown);
        let mut one = Diagnostic::new(alloc, Some(source.path), Some(source.spot(span)))?;
        one.severity = Severity::Warning;
        one.category = Some(category);
        if self.wanted.is_some() {
            write!(one.message, "{word} {number}: {kind} conflicts: {counted}")?;
        } else {
            let other = KINDS.get(1_usize.saturating_sub(self.kind));
            let other_word = other.map_or("", |(word, _, _)| *word);
            let as_bison = if self.is_bison {
                ", as bison counts them"
            } else {
                ""
            };
            write!(
                one.message,
                "{other_word} {number} without {word}: {kind} conflicts{as_bison}: {counted}"
            )?;
        }
        Ok(told.add(one)?)
    }
}

/// Tells where the numbers that a file expects aren't those that were counted, and says whether
/// they are.
fn is_told(
    alloc: Global,
    told: &mut Diagnostics,
    source: Source<'_>,
    numbers: Numbers,
    (counts, is_bison): (Counts, bool),
) -> io::Result<bool> {
    let (shifts, reduces) = (numbers.shift_reduce, numbers.reduce_reduce);
    let mut fits = true;
    for (kind, wanted, other, counted) in [
        (0, shifts, reduces, counts.shift_reduce),
        (1, reduces, shifts, counts.reduce_reduce),
    ] {
        let compared = Compared {
            kind,
            wanted,
            other,
            counted,
            is_bison,
        };
        if !compared.fits() {
            compared.add(alloc, told, source)?;
            fits = false;
        }
    }
    Ok(fits)
}

impl Expectation {
    /// Whether a number is expected.
    pub fn any(&self) -> bool {
        match self {
            Expectation::Open => false,
            Expectation::Given(_) => true,
            Expectation::Comments(numbers) | Expectation::Directives(numbers, _) => {
                numbers.shift_reduce.is_some() || numbers.reduce_reduce.is_some()
            }
        }
    }

    /// Tells where expected numbers aren't those that were counted, unless that was told, and says
    /// whether they are.
    pub fn is_met(
        self,
        alloc: Global,
        told: &mut Diagnostics,
        source: Source<'_>,
        found: Counts,
    ) -> io::Result<bool> {
        match self {
            Expectation::Open => Ok(true),
            Expectation::Given(given) => is_given(alloc, told, source.path, given, found),
            Expectation::Comments(numbers) => {
                is_told(alloc, told, source, numbers, (found, false))
            }
            Expectation::Directives(numbers, counts) => {
                is_told(alloc, told, source, numbers, (counts, true))
            }
        }
    }
}
