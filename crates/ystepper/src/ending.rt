//! Why `ystep` ends before its work is done: its message and its exit status.

ghost use Rattle.std.specs.Prelude.{◌≡◌, is_some};
ghost use Rattle.ylink.specs.Sends.{Sends};
ghost use Rattle.ystepper.specs.Programs.{message, of_start, session_word, status};
ghost use Rattle.ystepper.specs.Programs.{token_code, token_place};

use crate::fault::SessionFault;
use crate::stepper::StepperFault;
use std::io::Write;
use ygenerate::arguments::YstepWords;
use ygenerate::message::{Program, Trouble};
use ytables::Link;
use ytokens::TokenFault;

/// Why `ystep` ends before its work is done.
#[derive(Clone, Copy)]
pub(crate) enum Ending<'a> {
    /// The words or the grammar file are refused, or a file can't be read, or a limit is met.
    Trouble(Trouble<'a>),
    /// The tokens file is refused.
    Tokens(TokenFault),
    /// The session ended since a stream failed.
    Session(SessionFault),
}

impl<'a> From<TokenFault> for Ending<'a> {
    ghost use Rattle.ystepper.specs.Programs.{of_tokens};

    ghost from_gives = { λ fault ending. ending ≡ of_tokens fault };

    fn from(fault: TokenFault) -> Ending<'a> {
        match fault {
            TokenFault::Memory => Ending::Trouble(Trouble::NoMemory),
            _ => Ending::Tokens(fault),
        }
    }
}

impl<'a> Ending<'a> {
    /// Why the program ends, where a session over files did not start, or ended early.
    pub(crate) fn of_start(words: YstepWords<'a>, fault: StepperFault) -> Ending<'a>
        ensures { result ≡ of_start words.entry fault }
    {
        match fault {
            StepperFault::Source(fault) => {
                Ending::Trouble(Trouble::of_source(words.grammar(), fault))
            }
            StepperFault::Unread => Ending::Trouble(Trouble::CannotRead(words.tokens())),
            StepperFault::NoRoom => Ending::Trouble(Trouble::NoMemory),
            StepperFault::Tokens(fault) => Ending::from(fault),
            StepperFault::Session(fault) => Ending::Session(fault),
        }
    }

    /// The exit status: 1 where a file is refused, 2 where the words are, 3 where a file or stream
    /// fails, memory runs out, or there are too many item sets.
    pub(crate) fn status(&self) -> u8
        ensures { result ≡ status self.now }
    {
        match self {
            Ending::Trouble(trouble) => trouble.status(),
            Ending::Tokens(_) => 1,
            Ending::Session(_) => 3,
        }
    }

    /// Writes the program's message, one line. `None` where the link failed.
    pub(crate) fn put<E: Write>(&self, link: &mut Link<E>) -> Option<()>
        ensures { Sends E.contents link.old link.new (is_some result) (message self.now) }
    {
        match self {
            Ending::Trouble(trouble) => trouble.put(link, Program::Ystep),
            Ending::Tokens(fault) => {
                let (code, place) = (token_code(*fault), token_place(*fault));
                Program::Ystep.say(link, code, b" at token ", place)
            }
            Ending::Session(fault) => Program::Ystep.say(link, session_word(*fault), b"", None),
        }
    }
}

/// The words for a fault of a session's streams.
fn session_word(fault: SessionFault) -> &'static [u8]
    ensures { result.now ≡ session_word fault }
{
    match fault {
        SessionFault::Read => b"read fault",
        SessionFault::Write => b"write fault",
    }
}

/// The code of a fault of a tokens file.
fn token_code(fault: TokenFault) -> &'static [u8]
    ensures { result.now ≡ token_code fault }
{
    match fault {
        TokenFault::Unknown(_) => b"K1",
        TokenFault::NotInput(_) => b"K2",
        TokenFault::TooMany => b"K3",
        TokenFault::Memory => b"no memory",
        TokenFault::BadLiteral(_) => b"K5",
    }
}

/// The place of the token at fault, where the fault has one.
fn token_place(fault: TokenFault) -> Option<usize>
    ensures { result ≡ token_place fault }
{
    match fault {
        TokenFault::TooMany | TokenFault::Memory => None,
        TokenFault::Unknown(place) | TokenFault::NotInput(place) | TokenFault::BadLiteral(place) =>
            Some(place),
    }
}
