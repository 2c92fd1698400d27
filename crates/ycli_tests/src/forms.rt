//! Trees and forms into writers that refuse a call, and sessions that go on after it.

use crate::made::tables_of;
use std::alloc::Global;
use std::test::Fail;
use testkit::devices::{Refusal, Sink};
use testkit::worked::{SHORT, SPOILED, SUM, Worked, behind, first_lines};
use yparse::machine::UnwindFault;
use yparse::{Session, read_tokens};
use ysymbols::let_go;
use ytables::Link;

/// What is written of a halted session.
#[derive(Clone, Copy)]
enum Written {
    Trees,
    Forms,
}

/// What a session wrote before a refusal, how that was answered, where it stood then, how many
/// steps it made after it, and its trees in the end.
struct Resumed {
    answer: Result<(), UnwindFault>,
    before: Sink,
    position: usize,
    steps: usize,
    trees: Sink,
}

impl Drop for Resumed {
    // A call in each owner, which keeps their proofs short.
    fn drop(self) {
        let_go!(self: Resumed { answer, before, position, steps, trees });
    }
}

/// A session at its start.
fn session_of(alloc: Global, worked: Worked) -> Result<Session, Fail> {
    let tables = tables_of(alloc, worked.grammar)?;
    match read_tokens(alloc, &tables, worked.tokens) {
        Ok(tokens) => Ok(Session::new(alloc, tables, tokens)),
        Err(fault) => {
            drop(tables);
            Err(Fail::from(fault))
        }
    }
}

/// Makes all steps, and answers how many.
fn run(session: &mut Session) -> usize {
    let mut steps: usize = 0;
    for _ in 0..20 {
        steps = steps.wrapping_add(usize::from(session.step().is_ok()));
    }
    steps
}

/// Writes the trees or the forms.
fn write(
    session: &mut Session,
    written: Written,
    link: &mut Link<Sink>,
) -> Result<(), UnwindFault> {
    match written {
        Written::Trees => session.write_trees(link),
        Written::Forms => session.unwind(link),
    }
}

/// Makes all steps, and writes the trees or the forms into a writer of one byte a call that
/// refuses this call; then goes on.
fn resume(alloc: Global, worked: Worked, written: Written, call: usize) -> Result<Resumed, Fail> {
    let mut session = session_of(alloc, worked)?;
    let mut before = Link::new(Sink::new(1, Refusal::Refuses(call)));
    let mut trees = Link::new(Sink::new(4096, Refusal::Never));
    let _ = run(&mut session);
    let answer = write(&mut session, written, &mut before);
    let position = session.position();
    let steps = run(&mut session);
    let _ = session.write_trees(&mut trees);
    drop(session);
    Ok(Resumed {
        answer,
        before: before.into_inner(),
        position,
        steps,
        trees: trees.into_inner(),
    })
}

#[test]
fn stepping_goes_on_behind_a_refused_form(rt: HostRuntime) -> Result<(), Fail> {
    let resumed = resume(rt.alloc(), SHORT, Written::Forms, 3)?;
    assert_eq!(rt; resumed.answer, Err(UnwindFault::Write));
    assert_eq!(rt; resumed.before.text(), b"s\n".as_slice());
    assert_eq!(rt; (resumed.position, resumed.steps), (1, 2));
    assert_eq!(rt; resumed.trees.text(), b"(1 'x'@1)\n".as_slice());
    Ok(())
}

/// Whether a sum whose forms were refused at this call stands at the form that was being written,
/// and goes on from there to its end.
fn resumes(alloc: Global, call: usize) -> Result<bool, Fail> {
    // Where the forms stand, the last first.
    let positions = [11usize, 9, 8, 7, 4, 1];
    let resumed = resume(alloc, SUM, Written::Forms, call)?;
    let written = resumed.before.text();
    let whole = written.iter().filter(|byte| **byte == b'\n').count();
    let position = positions.get(whole).copied().unwrap_or(0);
    Ok(
        resumed.answer == Err(UnwindFault::Write)
            && written.len() == call.saturating_sub(1)
            && behind(SUM.text, 12).starts_with(written)
            && resumed.position == position
            && resumed.steps == 11usize.saturating_sub(position)
            && resumed.trees.text() == behind(first_lines(SUM.text, 12), 11),
    )
}

#[test]
fn a_refusal_at_each_call_of_the_forms(rt: HostRuntime) -> Result<(), Fail> {
    let calls = behind(SUM.text, 12).len();
    assert_eq!(rt; calls, 78);
    for call in 1..=calls.min(78) {
        assert!(rt; resumes(rt.alloc(), call)?, "at {call}");
    }
    Ok(())
}

/// Whether a refusal of the trees at this call, after so many steps, leaves the session as it was.
fn keeps_its_trees(alloc: Global, worked: Worked, steps: usize, call: usize) -> Result<bool, Fail> {
    let resumed = resume(alloc, worked, Written::Trees, call)?;
    let trees = behind(first_lines(worked.text, steps.saturating_add(1)), steps);
    let written = resumed.before.text();
    Ok(
        resumed.answer == Err(UnwindFault::Write)
            && written.len() == call.saturating_sub(1)
            && trees.starts_with(written)
            && (resumed.position, resumed.steps) == (steps, 0)
            && resumed.trees.text() == trees,
    )
}

#[test]
fn a_refusal_at_each_call_of_the_trees(rt: HostRuntime) -> Result<(), Fail> {
    for (worked, steps, calls) in [(SPOILED, 12usize, 36usize), (SUM, 11, 50)] {
        for call in 1..=calls {
            assert!(rt;
                keeps_its_trees(rt.alloc(), worked, steps, call)?,
                "at {call}"
            );
        }
    }
    Ok(())
}
