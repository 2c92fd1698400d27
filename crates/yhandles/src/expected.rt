//! Which tokens could come next, in C's numbers.

ghost use Rattle.std.specs.Prelude.{◌≡◌, IfSome};
ghost use Rattle.ymachine.specs.Machine.{symbols};
ghost use Rattle.ysession.specs.Session.{machine_of, history_of, tables_of};
ghost use Rattle.ysession.specs.States.{AreStates};
ghost use Rattle.yhandles.specs.Answers.{Answers};
ghost use Rattle.yhandles.specs.Expected.{Foretold, Tells, outlook_number};

use crate::handle::Handle;
use crate::texts::{Text, TextFault};
use std::alloc::Global;
use ylalr::token_count;
use ymachine::tables::grammar_of;
use ysession::Session;
use ysession::expected::{Outlook, outlook_at};
use ysession::states::stack_states;
use ysymbols::Sym;

/// The number of an outlook.
fn outlook_number(outlook: Outlook) -> u8
    ensures { result ≡ outlook_number outlook }
{
    match outlook {
        Outlook::Unexpected => 0,
        Outlook::Expected => 1,
        Outlook::Untold => 2,
    }
}

/// How many tokens the grammar of a session has.
#[tactic(auto, unfolding(ysession::specs::Session::setting_of, ymachine::specs::MachineOver::machine_over))]
fn tokens_of(session: &Session) -> usize
    ensures { result ≡ (machine_of session.now).tokens }
{
    token_count(grammar_of(session.tables()))
}

/// The number for a token in a session of whose stack these are the states; `None`
/// where memory runs out.
fn number_of(alloc: Global, session: &Session, states: &[usize], token: Sym) -> Option<u8>
    requires { AreStates (tables_of session.now) (symbols (history_of session.now).now.stack)
        states.now }
    ensures { IfSome result (Tells (machine_of session.now) (history_of session.now) token) }
{
    match outlook_at(alloc, session, states, token) {
        Ok(outlook) => Some(outlook_number(outlook)),
        Err(_) => None,
    }
}

/// The number of each token of the grammar.
fn foretold(alloc: Global, session: &Session) -> Text
    ensures { Foretold session.now result session.now }
{
    let Ok(states) = stack_states(alloc, session) else {
        return Err(TextFault::NoRoom);
    };
    let count = tokens_of(session);
    let mut numbers = Vec::new(alloc);
    for token in 0..count {
        let Some(number) = number_of(alloc, session, &states, token) else {
            return Err(TextFault::NoRoom);
        };
        if numbers.push(number).is_err() {
            return Err(TextFault::NoRoom);
        }
    }
    Ok(numbers)
}

/// For each token of the grammar whether it could come next in the session of a handle, which goes on
/// as it was; `None` where there is no session.
pub fn expected(alloc: Global, handle: &mut Handle) -> Option<Text>
    ensures { Answers Foretold handle.old.session result handle.new.session }
{
    of_held!(alloc, handle, |held| foretold(alloc, &held))
}
