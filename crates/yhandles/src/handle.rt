//! A handle: a pointer that C holds, and the session that it owns.

ghost use Rattle.std.specs.Prelude.{◌≡◌, Some, None, true, false, option_map};
ghost use Rattle.std.specs.declared.option.Option.{Option};
ghost use Rattle.ysession.specs.declared.session.Session.{Session};
ghost use Rattle.yhandles.specs.Handles.{held, session_coded};

use std::alloc::Global;
use std::marker::Model;
use std::mem::replace;
use std::ptr::null_mut;
use ysession::Session;

/// A handle. It owns the session to which it points, or is null and has none.
#[repr(C)]
pub struct Handle {
    at: *mut u8,
    pub ghost session: { Option Session } by { session_coded },
}

impl Model for Handle {
    ghost also_owns = { λ h. held h.at h.session };
}

impl Handle {
    /// A handle without a session.
    fn closed() -> Handle
        ensures { result.session ≡ None }
    {
        Handle { at: null_mut() }
    }

    /// A handle to this session.
    fn holding(session: Box<Session, Global>) -> Handle
        ensures { result.session ≡ Some session.value }
    {
        let at = Box::into_raw(session);
        Handle { at: at as *mut u8 }
    }

    /// The session of a handle, or `None` where it has none. It takes no memory.
    fn into_session(self, alloc: Global) -> Option<Box<Session, Global>>
        ensures { self.session ≡ option_map (λ held. held.value) result }
    {
        let Handle { at } = self;
        if at.is_null() {
            return None;
        }
        Some(unsafe { Box::from_raw(alloc, at as *mut Session) })
    }

    /// Takes the session out, or `None` where there is none; the handle then has none. It takes no
    /// memory.
    pub(crate) fn take(&mut self, alloc: Global) -> Option<Box<Session, Global>>
        ensures taken { self.old.session ≡ option_map (λ held. held.value) result }
        ensures none { self.new.session ≡ None }
    {
        replace(self, Handle::closed()).into_session(alloc)
    }

    /// Puts a session in, in place of what was there, which ends. It takes no memory.
    pub(crate) fn put(&mut self, alloc: Global, session: Box<Session, Global>)
        ensures { self.new.session ≡ Some session.value }
    {
        let old = replace(self, Handle::holding(session));
        drop(old.into_session(alloc));
    }

    /// Gives the handle this session in place of the one that it had, which ends. `false` where
    /// memory runs out, which changes nothing.
    pub fn open(&mut self, alloc: Global, session: Session) -> bool
        ensures opened { result ≡ true → self.new.session ≡ Some session }
        ensures stays { result ≡ false → self.new.session ≡ self.old.session }
    {
        match Box::new(alloc, session) {
            Ok(held) => {
                self.put(alloc, held);
                true
            }
            Err(_) => false,
        }
    }

    /// Ends the session, where there is one; the handle then has none. It takes no memory.
    pub fn close(&mut self, alloc: Global)
        ensures { self.new.session ≡ None }
    {
        drop(self.take(alloc));
    }
}

// Any thread may have a handle, one at a time.
unsafe impl Send for Handle {}
