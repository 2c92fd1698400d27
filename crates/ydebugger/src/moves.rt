//! Moves: steps forward and back, and to where a condition holds.

use crate::breaks::{Breaks, Hit};
use crate::condition::Condition;
use crate::refusal::fault_words;
use crate::text::put_ahead;
use crate::travel::{LAST, Move, tells_each, until_of};
use std::alloc::Global;
use std::io::Write;
use yexplain::reads::{Made, grammar_of};
use yinput::Parse;
use yparse::Session;
use yparse::machine::{StepFault, StepKind};
use yview::page::Page;
use yview::reading::{name_of, token_ahead};
use yview::step_line::{StepLine, put_made};

/// More steps than can be made.
const FARTHEST: usize = LAST + 1;
/// How many of the lines of a run are kept for its end.
const KEPT: usize = 10;
/// After how many steps a long run writes its position.
const PROGRESS: usize = 50_000;

/// How a move ended.
#[derive(Clone, Copy)]
enum End {
    /// As many steps were made as were wanted.
    Done,
    /// The condition is met.
    Met,
    /// A breakpoint is met.
    Broken(Hit),
    /// The next step detects an error.
    Fault,
    /// No further step can be made.
    Refused(StepFault),
    /// Nothing stands that could be undone.
    AtStart,
}

/// How the steps of a move are written: each at once, or the last ones at its end.
#[derive(Drop)]
struct Telling {
    each: bool,
    progress: bool,
    made: usize,
    /// The last lines.
    tail: Vec<StepLine>,
}

impl Telling {
    /// Writes what was just done or undone, or keeps it for the end.
    fn tell<W: Write>(&mut self, page: &mut Page<W>, parse: &Parse, kind: StepKind, undone: bool) {
        let line = StepLine::of(&parse.session, kind, undone);
        self.made = self.made.saturating_add(1);
        if self.each {
            put_made(page, &parse.session, line);
            return;
        }
        if self.tail.len() >= KEPT {
            let _ = self.tail.remove(0);
        }
        let _ = self.tail.push(line);
        if self.progress && self.made % PROGRESS == 0 {
            page.passing("");
            page.number(line.position);
            let _ = page.flush();
        }
    }

    /// Writes what was kept, with two dots first where lines are left out.
    fn finish<W: Write>(&self, page: &mut Page<W>, parse: &Parse) {
        if self.progress && self.made >= PROGRESS {
            page.passing("        ");
            page.passing("");
        }
        if !self.each && self.made > KEPT {
            page.line("   ..");
        }
        for line in &self.tail {
            put_made(page, &parse.session, *line);
        }
    }
}

/// Where a move goes: forward or back, so many steps at most, or to where a condition is met.
#[derive(Clone, Copy)]
struct Course<'a> {
    back: bool,
    most: usize,
    until: Option<Condition>,
    /// How often the condition is to be met.
    times: usize,
    /// The breakpoints at which it stops.
    breaks: Option<&'a Breaks>,
    /// Whether it stops before an error is detected, where it made a step before that.
    wary: bool,
}

impl Course<'_> {
    /// Makes a step, or undoes one; why not, where that can't be.
    fn make(self, session: &mut Session) -> Result<StepKind, End> {
        if self.back {
            return session.back().map_err(|_| End::AtStart);
        }
        session.step().map_err(End::Refused)
    }

    /// How it ends after a step or an undo of this kind, where it does. `left` is how often the
    /// condition is still to be met.
    fn end_after(self, session: &Session, kind: StepKind, left: &mut usize) -> Option<End> {
        if let Some(until) = self.until {
            if until.is_met(session, kind) {
                *left = left.saturating_sub(1);
            }
            if *left == 0 {
                return Some(End::Met);
            }
        }
        let hit = self.breaks?.met(session, kind)?;
        Some(End::Broken(hit))
    }
}

/// Makes the steps of a course, or undoes them, up to a fault of the page.
fn go<W: Write>(
    parse: &mut Parse,
    page: &mut Page<W>,
    telling: &mut Telling,
    course: Course<'_>,
) -> End {
    let mut left = course.times;
    for _ in 0..course.most {
        let kind = match course.make(&mut parse.session) {
            Ok(kind) => kind,
            Err(end) => return end,
        };
        // it can be mended where it isn't detected yet
        if course.wary && telling.made > 0 && matches!(kind, StepKind::Detect) {
            let _ = parse.session.back();
            return End::Fault;
        }
        telling.tell(page, parse, kind, course.back);
        if let Some(end) = course.end_after(&parse.session, kind, &mut left) {
            return end;
        }
        if page.checked().is_err() {
            break;
        }
    }
    End::Done
}

/// Whether the condition of a move was met.
fn put_until<W: Write>(page: &mut Page<W>, parse: &Parse, until: Condition, end: End) {
    match (end, until) {
        // how many tokens were shifted is plain from the steps
        (_, Condition::AnyShift) | (End::Broken(_), _) => return,
        (End::Met, Condition::Conflict) => {
            let session = &parse.session;
            let (state, token) = (session.state(), token_ahead(session));
            let name = name_of(grammar_of(session.tables()), token);
            let _ = write!(page, "stopped: state {state} on {name} has a conflict");
        }
        (End::Met, until) => {
            page.put("stopped: ");
            until.put(page, &parse.session);
        }
        (_, until) => {
            page.put("No ");
            until.put(page, &parse.session);
            page.put(" came on the way.");
        }
    }
    page.end();
}

/// How a move ended, where that isn't plain from its steps.
fn put_end<W: Write>(
    page: &mut Page<W>,
    parse: &Parse,
    (wanted, until): (Move, Option<Condition>),
    end: End,
    made: usize,
) {
    if let Some(until) = until {
        put_until(page, parse, until, end);
    }
    match end {
        End::Broken(hit) => {
            let _ = write!(page, "stopped: breakpoint {}, ", hit.number);
            hit.condition.put(page, &parse.session);
            page.end();
        }
        End::Fault => {
            let session = &parse.session;
            let name = name_of(grammar_of(session.tables()), token_ahead(session));
            let _ = writeln!(page, "stopped: an error comes next, {name} can't come here");
        }
        End::Refused(StepFault::Halted) if made > 0 && !matches!(wanted, Move::To(_)) => {}
        End::Refused(fault) => page.line(fault_words(fault, parse.session.view().mode())),
        End::AtStart if made > 0 => {}
        End::AtStart => page.line("The parse is at its start."),
        End::Done if made == 0 => page.line("The parse is at that position already."),
        End::Done | End::Met => {}
    }
}

/// The course of a move from a position.
fn course_of<'a>(
    position: usize,
    wanted: Move,
    until: Option<Condition>,
    breaks: &'a Breaks,
) -> Course<'a> {
    let (back, most) = match wanted {
        Move::Step(count) | Move::RunFor(count) => (false, count),
        Move::Back(count) => (true, count),
        Move::To(to) if position < to => (false, to.saturating_sub(position)),
        Move::To(to) => (true, position.saturating_sub(to)),
        Move::Run | Move::RunUntil(_) | Move::Next(_) | Move::Finish => (false, FARTHEST),
        Move::BackUntil(_) => (true, FARTHEST),
    };
    Course {
        back,
        most,
        until,
        times: if let Move::Next(times) = wanted {
            times
        } else {
            1
        },
        breaks: match wanted {
            Move::Step(_) | Move::Back(_) | Move::To(_) => None,
            _ => Some(breaks),
        },
        wary: matches!(
            wanted,
            Move::Run | Move::RunFor(_) | Move::Next(_) | Move::Finish
        ),
    }
}

/// Makes a move, and tells it. A run stops at breakpoints. A long one tells its position on the way
/// where `progress` is set.
pub fn make_move<W: Write>(
    alloc: Global,
    parse: &mut Parse,
    page: &mut Page<W>,
    wanted: Move,
    breaks: &Breaks,
    progress: bool,
) -> Made<()> {
    let mut telling = Telling {
        each: tells_each(wanted),
        progress,
        made: 0,
        tail: Vec::with_capacity(alloc, KEPT)?,
    };
    let until = until_of(&parse.session, wanted);
    let course = course_of(parse.session.position(), wanted, until, breaks);
    let end = go(parse, page, &mut telling, course);
    telling.finish(page, parse);
    put_end(page, parse, (wanted, until), end, telling.made);
    if !tells_each(wanted) {
        put_ahead(page, parse);
    }
    Ok(())
}
