//! How a run ends, and what is said then.

use crate::forms::{FORMS, USAGE};
use std::alloc::AllocError;
use std::io::{self, ErrorKind, Write};

/// Why nothing was done.
#[derive(Clone, Copy)]
pub enum Refused {
    /// There are no arguments.
    Arguments,
    /// The arguments are wrong, which is said.
    Said,
    /// What an option says is wrong, as this tells.
    Wrong(&'static str),
    /// Help or the version was asked for, and is written.
    Helped,
    /// Memory ran out.
    Memory,
    /// Nobody reads what is written any more.
    Unread,
    /// The standard streams fail.
    Outside,
}

/// The exit status of a run, or why nothing was done.
pub type Ended = Result<u8, Refused>;

/// The exit status of a program that a signal ends since its pipe has no reader any more.
const ENDED_BY_PIPE: u8 = 141;

impl From<io::Error> for Refused {
    fn from(error: io::Error) -> Refused {
        match error.kind() {
            ErrorKind::OutOfMemory => Refused::Memory,
            ErrorKind::BrokenPipe => Refused::Unread,
            _ => Refused::Outside,
        }
    }
}

impl From<AllocError> for Refused {
    fn from(_error: AllocError) -> Refused {
        Refused::Memory
    }
}

/// Writes why nothing was done, where that isn't said yet.
fn put_refused<E: Write>(refused: Refused, errors: &mut E) -> io::Result<()> {
    match refused {
        Refused::Arguments => {
            errors.write_all(USAGE.as_bytes())?;
            errors.write_all(FORMS.as_bytes())
        }
        Refused::Said | Refused::Helped | Refused::Unread => Ok(()),
        Refused::Wrong(why) => writeln!(errors, "ydebug: error: {why}"),
        Refused::Memory => errors.write_all(b"ydebug: no memory\n"),
        Refused::Outside => errors.write_all(b"ydebug: cannot read or write\n"),
    }
}

/// The exit status of a run. Where nothing was done, why is written.
pub fn status_of<E: Write>(ended: Ended, errors: &mut E) -> u8 {
    let refused = match ended {
        Ok(status) => return status,
        Err(refused) => refused,
    };
    // Where that can't be written, the status is all that is left to tell.
    let _ = put_refused(refused, errors);
    match refused {
        Refused::Helped => 0,
        Refused::Arguments | Refused::Said | Refused::Wrong(_) => 2,
        Refused::Memory | Refused::Outside => 3,
        Refused::Unread => ENDED_BY_PIPE,
    }
}
