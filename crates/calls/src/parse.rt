//! A verdict and a session: each call that takes memory by itself, and then those that take none.

ghost use Rattle.yparse.specs.Tokens.{Fits, symbols_of};

use crate::said::{say, say_at, say_refused};
use yparse::machine::{StepFault, StepKind};
use yparse::{Session, Tokens, Verdict, judge};
use ytables::{Link, Tables};

/// At most so many steps are made.
const STEPS: usize = 2_000;

/// A call that may take memory.
#[derive(Clone, Copy)]
enum Call {
    Step,
    /// The first of the upcoming tokens, once more before it.
    Insert,
    DropNext,
}

/// What came of a call.
#[derive(Clone, Copy)]
enum Came {
    Made(StepKind),
    Halted,
    /// Memory ran out twice.
    Starved,
}

impl Call {
    fn name(self) -> &'static str {
        match self {
            Call::Step => "step",
            Call::Insert => "insert",
            Call::DropNext => "drop_next",
        }
    }
}

fn insert(session: &mut Session) -> Result<StepKind, StepFault> {
    let view = session.view();
    if view.rest_len() == 0 {
        return Err(StepFault::NoToken);
    }
    let (symbol, _place) = view.rest(0);
    match session.token(session.name(symbol)) {
        Some(token) => session.insert(token),
        None => Err(StepFault::NoToken),
    }
}

fn make(session: &mut Session, call: Call) -> Result<StepKind, StepFault> {
    match call {
        Call::Step => session.step(),
        Call::Insert => insert(session),
        Call::DropNext => session.drop_next(),
    }
}

/// Makes a call, and once more where it ran out of memory.
fn make_twice(rt: &HostRuntime, session: &mut Session, call: Call) -> Came {
    for _ in 0..2 {
        match make(session, call) {
            Ok(kind) => return Came::Made(kind),
            Err(StepFault::Memory) => say_refused(rt, call.name()),
            Err(_) => return Came::Halted,
        }
    }
    Came::Starved
}

fn word(kind: StepKind) -> &'static [u8] {
    match kind {
        StepKind::Shift(_) => b" shift",
        StepKind::Reduce(_) => b" reduce",
        StepKind::Accept => b" accept",
        StepKind::Detect => b" detect",
        StepKind::Pop(_) => b" pop",
        StepKind::ShiftError => b" shift error",
        StepKind::Discard(_) => b" discard",
        StepKind::Fail => b" fail",
        StepKind::Insert(_) => b" insert",
        StepKind::Drop(_) => b" drop",
    }
}

/// Makes a call and says so.
fn tell(rt: &HostRuntime, session: &mut Session, call: Call) -> Came {
    let came = make_twice(rt, session, call);
    if let Came::Made(kind) = came {
        say_at(rt, session.position(), &[word(kind)]);
    }
    came
}

/// Two edits; answers whether memory was there for them.
fn edit(rt: &HostRuntime, session: &mut Session) -> bool {
    match tell(rt, session, Call::Insert) {
        Came::Starved => false,
        _ => !matches!(tell(rt, session, Call::DropNext), Came::Starved),
    }
}

/// All steps; answers whether memory was there for them.
fn step_on(rt: &HostRuntime, session: &mut Session) -> bool {
    for _ in 0..STEPS {
        match tell(rt, session, Call::Step) {
            Came::Made(_) => {}
            Came::Halted => return true,
            Came::Starved => return false,
        }
    }
    true
}

/// Undoes all, and says so.
fn go_back(rt: &HostRuntime, session: &mut Session) {
    for _ in 0..STEPS + 2 {
        match session.back() {
            Ok(kind) => say_at(rt, session.position(), &[b" undo", word(kind)]),
            Err(_) => return,
        }
    }
}

/// Steps through a parse, shows its trees and its forms, and undoes all; answers whether memory
/// was there for the steps.
pub fn walk(rt: &HostRuntime, session: &mut Session) -> bool {
    let fed = edit(rt, session) && step_on(rt, session);
    let mut link = Link::new(rt.stdout());
    let _ = session.write_trees(&mut link);
    let _ = session.unwind(&mut link);
    go_back(rt, session);
    fed
}

fn say_verdict(rt: &HostRuntime, verdict: Verdict) {
    match verdict {
        Verdict::Accepted(position) => say_at(rt, position, &[b" steps to acceptance"]),
        Verdict::Rejected(place) => say_at(rt, place, &[b" is the first token that can't come"]),
        Verdict::Limit => say(rt, &[b"limit"]),
    }
}

/// Judges tokens, which fit the tables, and says the verdict; answers whether memory was there.
pub fn tell_verdict(rt: &HostRuntime, tables: &Tables, tokens: &Tokens) -> bool
    requires { Fits tables.now.built.grammar (symbols_of tokens.now) }
{
    for _ in 0..2 {
        match judge(rt.alloc(), tables, tokens) {
            Ok(verdict) => {
                say_verdict(rt, verdict);
                return true;
            }
            Err(_) => say_refused(rt, "judge"),
        }
    }
    false
}
