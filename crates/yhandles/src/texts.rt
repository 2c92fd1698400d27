//! Texts of the session behind a handle: its configuration, its trees, its forms.

ghost use Rattle.std.specs.Prelude.{◌≡◌, IfSome};
ghost use Rattle.ysession.specs.Session.{machine_of, history_of, setting_of};
ghost use Rattle.ystepper.specs.Reply.{configuration_text};
ghost use Rattle.yhandles.specs.Answers.{Answers};
ghost use Rattle.yhandles.specs.Texts.{Showed, Treed, Unwound, text_status};

use crate::handle::Handle;
use std::alloc::Global;
use ymachine::machine::UnwindFault;
use ysession::Session;
use ystepper::reply::put_configuration;
use ytables::Link;

/// Why there is no text.
#[derive(Clone, Copy, Debug, PartialEq, Eq)]
pub enum TextFault {
    /// The parse isn't accepted.
    NotAccepted,
    /// An error step is in the history.
    HadError,
    /// Memory ran out.
    NoRoom,
}

/// A text, or why there is none.
pub type Text = Result<Vec<u8>, TextFault>;

/// The status of a text; 12 where there is no session.
pub fn text_status(text: &Option<Text>) -> u32
    ensures { result ≡ text_status text.now }
{
    match text {
        Some(Ok(_)) => 0,
        Some(Err(TextFault::NoRoom)) => 3,
        Some(Err(TextFault::NotAccepted)) => 10,
        Some(Err(TextFault::HadError)) => 11,
        None => 12,
    }
}

/// The five lines of the configuration of a session.
fn configuration(alloc: Global, session: &Session) -> Text
    ensures { Showed session.now result session.now }
{
    let mut link = Link::new(Vec::new(alloc));
    match put_configuration(session, &mut link) {
        Some(()) => Ok(link.into_inner()),
        None => Err(TextFault::NoRoom),
    }
}

/// A line for each tree of the stack of a session.
fn trees(alloc: Global, session: &mut Session) -> Text
    ensures { Treed session.old result session.new }
{
    let mut link = Link::new(Vec::new(alloc));
    match session.write_trees(&mut link) {
        Ok(()) => Ok(link.into_inner()),
        Err(_) => Err(TextFault::NoRoom),
    }
}

/// The forms of an accepted session without error steps, which then stands at its start.
fn forms(alloc: Global, session: &mut Session) -> Text
    ensures { Unwound session.old result session.new }
{
    let mut link = Link::new(Vec::new(alloc));
    match session.unwind(&mut link) {
        Ok(()) => Ok(link.into_inner()),
        Err(UnwindFault::NotAccepted) => Err(TextFault::NotAccepted),
        Err(UnwindFault::HadError) => Err(TextFault::HadError),
        Err(UnwindFault::Write) => Err(TextFault::NoRoom),
    }
}

/// The five lines of the configuration of the session behind a handle, or `None` where there is no
/// session.
pub fn show(alloc: Global, handle: &mut Handle) -> Option<Text>
    ensures { Answers Showed handle.old.session result handle.new.session }
{
    of_held!(alloc, handle, |held| configuration(alloc, &held))
}

/// A line for each tree of its stack.
pub fn tree(alloc: Global, handle: &mut Handle) -> Option<Text>
    ensures { Answers Treed handle.old.session result handle.new.session }
{
    of_held!(alloc, handle, |held| trees(alloc, &mut held))
}

/// Its forms, the last one first; it then stands at its start.
pub fn unwind(alloc: Global, handle: &mut Handle) -> Option<Text>
    ensures { Answers Unwound handle.old.session result handle.new.session }
{
    of_held!(alloc, handle, |held| forms(alloc, &mut held))
}
