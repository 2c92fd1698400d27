//! Where the session behind a handle stands.

ghost use Rattle.std.specs.Prelude.{◌≡◌};
ghost use Rattle.yhandles.specs.Answers.{Answers};
ghost use Rattle.yhandles.specs.Stands.{IsStanding, Stands, mode_number};

use crate::handle::Handle;
use std::alloc::Global;
use ymachine::machine::Mode;
use ysession::Session;

/// Where a session stands.
#[repr(C)]
#[derive(Clone, Copy)]
pub struct Standing {
    /// 1 running, 2 popping, 3 accepted, 4 failed.
    pub mode: u32,
    /// The position: how many steps and edits stand, 0 to 1,000,000.
    pub position: usize,
    /// The state on top of the stack.
    pub state: usize,
    /// How many symbols the stack has.
    pub height: usize,
    /// How many upcoming tokens there are.
    pub left: usize,
    /// The recovery counter, 0 to 3.
    pub counter: usize,
    /// How many errors were reported.
    pub errors: usize,
}

/// The number of a mode.
fn mode_number(mode: Mode) -> u32
    ensures { result ≡ mode_number mode }
{
    match mode {
        Mode::Running => 1,
        Mode::Popping => 2,
        Mode::Accepted => 3,
        Mode::Failed => 4,
    }
}

/// Where a session stands. It takes no memory.
fn stand_of(session: &Session) -> Standing
    ensures { IsStanding session.now result }
{
    let view = session.view();
    Standing {
        mode: mode_number(view.mode()),
        position: session.position(),
        state: session.state(),
        height: view.stack_len(),
        left: view.rest_len(),
        counter: view.counter(),
        errors: view.errors(),
    }
}

/// Where the session behind a handle stands, or `None` where there is none. It takes no memory.
pub fn stand(alloc: Global, handle: &mut Handle) -> Option<Standing>
    ensures { Answers Stands handle.old.session result handle.new.session }
{
    of_held!(alloc, handle, |held| stand_of(&held))
}
