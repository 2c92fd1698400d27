//! A session goes to a position, forward or back.

ghost use Rattle.std.specs.Prelude.{◌≡◌, ◌-◌};
ghost use Rattle.ymachine.specs.Past.{back_by};
ghost use Rattle.ysession.specs.Session.{machine_of, history_of, setting_of};
ghost use Rattle.yhandles.specs.Answers.{Answers};
ghost use Rattle.yhandles.specs.Travel.{Ups, Travelled, travel_status};

use crate::handle::Handle;
use crate::moves::fault_status;
use std::alloc::Global;
use ymachine::machine::{AtStart, StepFault};
use ysession::Session;

/// At most so many steps forward; why there were fewer.
fn go_up(session: &mut Session, count: usize) -> Option<StepFault>
    ensures ups { Ups (machine_of session.old) count (history_of session.old) result
        (history_of session.new) }
    ensures stays { setting_of session.new ≡ setting_of session.old }
{
    for _i in 0..count {
        match session.step() {
            Ok(_) => {}
            Err(fault) => return Some(fault),
        }
    }
    None
}

/// At most so many undos.
fn go_down(session: &mut Session, count: usize)
    ensures downs { history_of session.new ≡ back_by count (history_of session.old) }
    ensures stays { setting_of session.new ≡ setting_of session.old }
{
    for _i in 0..count {
        match session.back() {
            Ok(_) => {}
            Err(AtStart) => return,
        }
    }
}

/// A session goes to a position; why it stays before it.
fn travelled(session: &mut Session, position: usize) -> Option<StepFault>
    ensures { Travelled position session.old result session.new }
{
    let now = session.position();
    if now < position {
        go_up(session, position - now)
    } else {
        go_down(session, now - position);
        None
    }
}

/// The session behind a handle goes to a position; `None` where there is no session.
pub fn travel(alloc: Global, handle: &mut Handle, position: usize) -> Option<Option<StepFault>>
    ensures { Answers (Travelled position) handle.old.session result handle.new.session }
{
    of_held!(alloc, handle, |held| travelled(&mut held, position))
}

/// The status of the answer: 0 where the position is reached, 12 where there is no session.
pub fn travel_status(answer: Option<Option<StepFault>>) -> u32
    ensures { result ≡ travel_status answer }
{
    match answer {
        Some(None) => 0,
        Some(Some(fault)) => fault_status(fault),
        None => 12,
    }
}
