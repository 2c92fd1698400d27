//! A session between links: command lines in, replies out.

ghost use Rattle.std.specs.Prelude.{◌≡◌, ◌<◌, ◌^◌, List, [], ℕ, length, take, ◌||◌, true, false};
ghost use Rattle.std.specs.Prelude.{is_some, IfSome, if◌then◌else◌};
ghost use Rattle.ylink.specs.Link.{device_of, has_failed};
ghost use Rattle.ysession.specs.Session.{machine_of, history_of};
ghost use Rattle.ystepper.specs.Transcript.{Tells, failed_read, failed_write};
ghost use Rattle.ystepper.specs.Plain.{HasOneText};
ghost use Rattle.ystepper.specs.Line.{AreTold, line_room};
ghost use Rattle.ystepper.specs.Serving.{ChunkTells, ReadTells, Ends};

use crate::command::{Line, line_in};
use crate::fault::SessionFault;
use crate::line_buffer::LineBuffer;
use crate::reply::answer;
use std::io::{Read, Write};
use ysession::Session;
use ytables::Link;

/// How many bytes are read at once.
const CHUNK: usize = 4096;

/// Whether a session goes on after lines.
#[derive(Clone, Copy)]
enum Flow {
    /// Further lines are answered.
    GoesOn,
    /// A line was `quit`.
    Quit,
}

/// Answers each line that ends in these bytes; `held` is what came before of the first line.
/// `None` where the writer failed.
fn take_chunk<W: Write>(
    session: &mut Session,
    held: &mut LineBuffer,
    bytes: &[u8],
    writer: &mut Link<W>,
) -> Option<Flow>
    requires { has_failed writer.old ≡ false }
    ensures tells { (line : List ℕ) → held.old ≡ take line_room line →
        ChunkTells W.contents writer.old writer.new result (machine_of session.old)
        (history_of session.old) line bytes.now (history_of session.new) held.new }
    ensures machine { machine_of session.new ≡ machine_of session.old }
    ensures failed { has_failed writer.new ≡
        (if is_some result then has_failed writer.old else true) }
{
    for byte in bytes {
        if *byte != b'\n' {
            held.push(*byte);
            continue;
        }
        match line_in(held.as_slice()) {
            Line::Quit => return Some(Flow::Quit),
            Line::Command(command) => answer(session, command, writer)?,
        }
        held.clear();
    }
    Some(Flow::GoesOn)
}

/// Answers each line whose newline is read, up to a `quit` or to the end of the input.
fn read_lines<R: Read, W: Write>(
    session: &mut Session,
    held: &mut LineBuffer,
    reader: &mut Link<R>,
    writer: &mut Link<W>,
) -> Result<Flow, SessionFault>
    requires held { held.old ≡ [] }
    requires clear { has_failed writer.old ≡ false }
    ensures tells { ReadTells W.contents writer.old writer.new (R.remaining (device_of reader.old))
        (R.remaining (device_of reader.new)) result (machine_of session.old)
        (history_of session.old) (history_of session.new) held.new }
    ensures machine { machine_of session.new ≡ machine_of session.old }
    ensures read_failed { has_failed reader.new ≡ (failed_read result || has_failed reader.old) }
    ensures write_failed { has_failed writer.new ≡ (failed_write result || has_failed writer.old) }
{
    let mut chunk = [0; CHUNK];
    for _i in 0..u64::MAX {
        let Some(n) = reader.read(&mut chunk) else {
            return Err(SessionFault::Read);
        };
        if n == 0 {
            return Ok(Flow::GoesOn);
        }
        match take_chunk(session, held, &chunk[..n], writer) {
            Some(Flow::GoesOn) => {}
            Some(Flow::Quit) => return Ok(Flow::Quit),
            None => return Err(SessionFault::Write),
        }
    }
    Ok(Flow::GoesOn)
}

/// Answers a last line without its newline.
fn answer_last<W: Write>(
    session: &mut Session,
    held: &LineBuffer,
    writer: &mut Link<W>,
) -> Option<()>
    requires { has_failed writer.old ≡ false }
    ensures tells { (line : List ℕ) → held.now ≡ take line_room line →
        Ends W.contents writer.old writer.new (is_some result) (machine_of session.old)
        (history_of session.old) line }
    ensures failed { has_failed writer.new ≡
        (if is_some result then has_failed writer.old else true) }
{
    let last = held.as_slice();
    if last.is_empty() {
        return Some(());
    }
    match line_in(last) {
        Line::Quit => Some(()),
        Line::Command(command) => answer(session, command, writer),
    }
}

/// Answers the command lines of the reader, up to a `quit` or to the end of the input.
fn serve<R: Read, W: Write>(
    session: &mut Session,
    reader: &mut Link<R>,
    writer: &mut Link<W>,
) -> Result<(), SessionFault>
    requires { has_failed writer.old ≡ false }
    ensures tells { IfSome (R.remaining (device_of reader.old)) (λ input. length input < 2 ^ 63 →
        Tells (machine_of session.old) (history_of session.old) input
        (R.remaining (device_of reader.new)) (W.contents (device_of writer.old))
        (W.contents (device_of writer.new)) result) }
    ensures read_fault { has_failed reader.old ≡ false →
        has_failed reader.new ≡ failed_read result }
    ensures write_fault { has_failed writer.new ≡ failed_write result }
{
    let mut held = LineBuffer::new();
    match read_lines(session, &mut held, reader, writer)? {
        Flow::Quit => return Ok(()),
        Flow::GoesOn => {}
    }
    match answer_last(session, &held, writer) {
        Some(()) => Ok(()),
        None => Err(SessionFault::Write),
    }
}

/// Reads command lines and writes their replies, up to a `quit` or to the end of the input.
///
/// X1 is answered exactly where the reader's link failed; then the replies to all lines whose
/// newline was read are written. X2 is answered exactly where the writer's link failed; then a
/// beginning of the session's text is written.
#[tactic(auto, using(crate::proofs::Plain::has_one_text, crate::proofs::Spelled::are_told))]
pub fn run_session<R: Read, W: Write>(
    mut session: Session,
    reader: &mut Link<R>,
    writer: &mut Link<W>,
) -> Result<(), SessionFault>
    // What is written, where the input of the reader is known.
    ensures tells { IfSome (R.remaining (device_of reader.old)) (λ input. length input < 2 ^ 63 →
        Tells (machine_of session) (history_of session) input (R.remaining (device_of reader.new))
        (W.contents (device_of writer.old)) (W.contents (device_of writer.new)) result) }
    // Where no step is refused when memory runs out, the text is a function of the lines.
    ensures plain { (lines : List (List ℕ)) →
        HasOneText (machine_of session) (history_of session) lines }
    // Each command but the unknown one is known by its spelling.
    ensures told { AreTold }
    // A read fault exactly where the reader's link failed.
    ensures read_fault { has_failed reader.new ≡ failed_read result }
    // A write fault exactly where the writer's did.
    ensures write_fault { has_failed writer.new ≡ failed_write result }
{
    reader.clear();
    writer.clear();
    serve(&mut session, reader, writer)
}
