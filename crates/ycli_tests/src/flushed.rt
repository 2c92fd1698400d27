//! A session of one step whose writer refuses one of its calls, the flush among them.

use crate::made::tables_of;
use std::alloc::Global;
use std::test::Fail;
use testkit::devices::{Refusal, Sink};
use testkit::worked::ONE;
use ycli::fault::SessionFault;
use ycli::run::run_session;
use yparse::{Session, read_tokens};
use ysymbols::let_go;
use ytables::Link;

const REPLY: &[u8] = b"1 shift 'x'\n";

/// More calls than the reply takes, with its flush.
const CALLS: usize = 20;

/// What a session answered, and its writer.
struct Served {
    answer: Result<(), SessionFault>,
    writer: Sink,
}

impl Drop for Served {
    // A call in each owner, which keeps their proofs short.
    fn drop(self) {
        let_go!(self: Served { answer, writer });
    }
}

/// A session over one rule and one token, at its start.
fn session_of(alloc: Global) -> Result<Session, Fail> {
    let tables = tables_of(alloc, ONE)?;
    match read_tokens(alloc, &tables, b"'x'") {
        Ok(tokens) => Ok(Session::new(alloc, tables, tokens)),
        Err(fault) => {
            drop(tables);
            Err(Fail::from(fault))
        }
    }
}

/// One step with a writer that refuses this call, a write or a flush, counted from 1.
fn refused_at(alloc: Global, call: usize) -> Result<Served, Fail> {
    let session = session_of(alloc)?;
    let mut reader = Link::new(b"step\n".as_slice());
    let mut writer = Link::new(Sink::new(4096, Refusal::Refuses(call)));
    let answer = run_session(session, &mut reader, &mut writer);
    Ok(Served {
        answer,
        writer: writer.into_inner(),
    })
}

/// Whether the writer took the whole reply, where it took a beginning of it and the answer tells
/// of each refusal.
fn is_whole(served: &Served) -> Option<bool> {
    let text = served.writer.text();
    let whole = text == REPLY;
    let told = served.answer == Err(SessionFault::Write);
    (REPLY.starts_with(text) && (whole || told)).then_some(whole)
}

#[test]
fn a_flush_that_fails_without_a_buffer(rt: HostRuntime) -> Result<(), Fail> {
    let mut flushes: usize = 0;
    let mut ends: usize = 0;
    for call in 1..=CALLS {
        let served = refused_at(rt.alloc(), call)?;
        let whole = is_whole(&served);
        assert!(rt; whole.is_some(), "at {call}");
        let refused = served.answer.is_err();
        flushes = flushes.wrapping_add(usize::from(whole == Some(true) && refused));
        ends = ends.wrapping_add(usize::from(!refused));
    }
    // After the writes one call is the flush, and the calls that are never made are no fault.
    assert_eq!(rt; flushes, 1);
    assert!(rt; ends > 0);
    Ok(())
}
