//! The replies to commands.

ghost use Rattle.std.specs.Prelude.{◌≡◌, true, false, if◌then◌else◌, is_some};
ghost use Rattle.std.specs.Prelude.{Some, drop, ◌∷◌, ◌++◌, codes};
ghost use Rattle.ystepper.specs.Command as commands;
ghost use Rattle.ylink.specs.Link.{has_failed};
ghost use Rattle.ylink.specs.Sends.{Sends};
ghost use Rattle.ymachine.specs.Past.{position};
ghost use Rattle.ysession.specs.Session.{machine_of, history_of};
ghost use Rattle.ystepper.specs.Reply.{step_line, refusal, kind_word, kind_tail};
ghost use Rattle.ystepper.specs.Reply.{mode_word, configuration_text};
ghost use Rattle.ystepper.specs.Reply.{head_text, stack_text, rest_text, errors_text};
ghost use Rattle.ystepper.specs.Command.{command_view};
ghost use Rattle.ystepper.specs.Reply.{Answers, edit_text};

use crate::command::Command;
use std::io::Write;
use ygrammar::Sym;
use ylink::pieces::Piece::{Number, Words};
use ylink::pieces::{END, put_pieces};
use ylink::put::{put, put_all};
use ymachine::machine::{AtStart, Mode, StepFault, StepKind, UnwindFault};
use ysession::Session;
use ytables::Link;

/// The words of a step or an edit.
fn kind_word(kind: StepKind) -> &'static [u8]
    ensures { result.now ≡ kind_word kind }
{
    match kind {
        StepKind::Shift(_) => b"shift ",
        StepKind::Reduce(_) => b"reduce ",
        StepKind::Accept => b"accept",
        StepKind::Detect => b"detect",
        StepKind::Pop(_) => b"pop ",
        StepKind::ShiftError => b"shift error",
        StepKind::Discard(_) => b"discard ",
        StepKind::Fail => b"fail",
        StepKind::Insert(_) => b"insert ",
        StepKind::Drop(_) => b"drop ",
    }
}

fn mode_word(mode: Mode) -> &'static [u8]
    ensures { result.now ≡ mode_word mode }
{
    match mode {
        Mode::Running => b"running",
        Mode::Popping => b"popping",
        Mode::Accepted => b"accepted",
        Mode::Failed => b"failed",
    }
}

/// What a refused step or edit writes; `made` says whether steps were made before it.
fn refusal(made: bool, fault: StepFault) -> &'static [u8]
    ensures { result.now ≡ refusal made fault }
{
    match fault {
        StepFault::Halted if made => b"",
        StepFault::Halted => b"halted\n",
        StepFault::NoToken => b"no token\n",
        StepFault::Limit => b"limit\n",
        StepFault::Memory => b"no memory\n",
    }
}

/// The name or the rule number that follows the words of a step, where one does.
fn kind_tail<'a>(session: &'a Session, kind: StepKind, digits: &'a mut itoa::Buffer) -> &'a [u8]
    ensures { result.now ≡ kind_tail (machine_of session.now) kind }
{
    match kind {
        StepKind::Shift(symbol) => session.name(symbol),
        StepKind::Pop(symbol) => session.name(symbol),
        StepKind::Discard(symbol) => session.name(symbol),
        StepKind::Reduce(rule) => digits.format(rule).as_bytes(),
        StepKind::Accept => b"",
        StepKind::Detect => b"",
        StepKind::ShiftError => b"",
        StepKind::Fail => b"",
        StepKind::Insert(symbol) => session.name(symbol),
        StepKind::Drop(symbol) => session.name(symbol),
    }
}

/// Writes four texts and a newline: a session has a line for each step, and this is a fifth faster
/// than pieces.
fn put_line<'a, W: Write>(
    writer: &mut Link<W>,
    at: &'a [u8],
    between: &'a [u8],
    words: &'a [u8],
    tail: &'a [u8],
) -> Option<()>
    ensures { Sends W.contents writer.old writer.new (is_some result)
        (at.now ++ (between.now ++ (words.now ++ (tail.now ++ codes "\n")))) }
{
    put_all(writer, &[at, between, words, tail, b"\n"])
}

/// Writes the position, what stands between, and the words of a step.
fn put_step<W: Write>(
    session: &Session,
    writer: &mut Link<W>,
    between: &[u8],
    kind: StepKind,
) -> Option<()>
    ensures { Sends W.contents writer.old writer.new (is_some result)
        (step_line (machine_of session.now) (position (history_of session.now)) between.now kind) }
{
    let mut at = itoa::Buffer::new();
    let mut rule = itoa::Buffer::new();
    let digits = at.format(session.position()).as_bytes();
    let tail = kind_tail(session, kind, &mut rule);
    put_line(writer, digits, between, kind_word(kind), tail)
}

/// Makes at most so many steps, and writes a line for each, and the reason where there are fewer.
fn run<W: Write>(session: &mut Session, writer: &mut Link<W>, count: usize) -> Option<()>
    ensures answers { Answers W.contents writer.old writer.new (is_some result)
        (machine_of session.old) (history_of session.old) (commands.Run count)
        (history_of session.new) }
    ensures machine { machine_of session.new ≡ machine_of session.old }
{
    let mut made = false;
    for _i in 0..count {
        match session.step() {
            Ok(kind) => put_step(session, writer, b" ", kind)?,
            Err(fault) => return put(writer, refusal(made, fault)),
        }
        made = true;
    }
    Some(())
}

/// Makes at most so many undos, and writes a line for each.
fn back<W: Write>(session: &mut Session, writer: &mut Link<W>, count: usize) -> Option<()>
    ensures answers { Answers W.contents writer.old writer.new (is_some result)
        (machine_of session.old) (history_of session.old) (commands.Back count)
        (history_of session.new) }
    ensures machine { machine_of session.new ≡ machine_of session.old }
{
    let mut made = false;
    for _i in 0..count {
        match session.back() {
            Ok(kind) => put_step(session, writer, b" undo ", kind)?,
            Err(AtStart) if made => return Some(()),
            Err(AtStart) => return put(writer, b"at start\n"),
        }
        made = true;
    }
    Some(())
}

/// Goes to a position, by steps or by undos.
fn to<W: Write>(session: &mut Session, writer: &mut Link<W>, position: usize) -> Option<()>
    ensures answers { Answers W.contents writer.old writer.new (is_some result)
        (machine_of session.old) (history_of session.old) (commands.To position)
        (history_of session.new) }
    ensures machine { machine_of session.new ≡ machine_of session.old }
{
    let now = session.position();
    if now < position {
        run(session, writer, position - now)
    } else {
        back(session, writer, now - position)
    }
}

/// Writes the position and the mode.
fn put_head<W: Write>(session: &Session, writer: &mut Link<W>) -> Option<()>
    ensures { Sends W.contents writer.old writer.new (is_some result)
        (head_text (history_of session.now)) }
{
    let at = Number(session.position());
    let mode = Words(mode_word(session.view().mode()));
    put_pieces(writer, &[at, Words(b" "), mode, Words(b"\nstack:")])
}

/// Writes a space and a name.
fn put_name<W: Write>(session: &Session, writer: &mut Link<W>, symbol: Sym) -> Option<()>
    ensures { Sends W.contents writer.old writer.new (is_some result)
        (codes " " ++ (machine_of session.now).name symbol) }
{
    put_all(writer, &[b" ", session.name(symbol)])
}

/// Writes the symbols of the stack, from the bottom.
fn put_stack<W: Write>(session: &Session, writer: &mut Link<W>) -> Option<()>
    ensures { Sends W.contents writer.old writer.new (is_some result)
        (stack_text (machine_of session.now) (history_of session.now)) }
{
    let view = session.view();
    for index in 0..view.stack_len() {
        put_name(session, writer, view.stack(index))?;
    }
    Some(())
}

/// Writes the upcoming tokens.
fn put_rest<W: Write>(session: &Session, writer: &mut Link<W>) -> Option<()>
    ensures { Sends W.contents writer.old writer.new (is_some result)
        (rest_text (machine_of session.now) (history_of session.now)) }
{
    let view = session.view();
    for index in 0..view.rest_len() {
        let (token, _place) = view.rest(index);
        put_name(session, writer, token)?;
    }
    Some(())
}

/// Writes the recovery counter and the errors reported.
fn put_errors<W: Write>(session: &Session, writer: &mut Link<W>) -> Option<()>
    ensures { Sends W.contents writer.old writer.new (is_some result)
        (errors_text (history_of session.now)) }
{
    let view = session.view();
    let counter = Number(view.counter());
    let errors = Number(view.errors());
    let between = Words(b"\nerrors: ");
    put_pieces(
        writer,
        &[Words(b"\ncounter: "), counter, between, errors, END],
    )
}

/// Writes the five lines of the configuration now. `None` where the link failed.
pub fn put_configuration<W: Write>(session: &Session, writer: &mut Link<W>) -> Option<()>
    ensures { Sends W.contents writer.old writer.new (is_some result)
        (configuration_text (machine_of session.now) (history_of session.now)) }
{
    put_head(session, writer)?;
    put_stack(session, writer)?;
    put(writer, b"\nrest:")?;
    put_rest(session, writer)?;
    put_errors(session, writer)
}

/// Writes a line for each tree of the stack.
fn tree<W: Write>(session: &mut Session, writer: &mut Link<W>) -> Option<()>
    requires { has_failed writer.old ≡ false }
    ensures answers { Answers W.contents writer.old writer.new (is_some result)
        (machine_of session.old) (history_of session.old) commands.Tree (history_of session.new) }
    ensures machine { machine_of session.new ≡ machine_of session.old }
{
    match session.write_trees(writer) {
        Ok(()) => Some(()),
        Err(_) => None,
    }
}

/// Unwinds an accepted parse without error steps, or writes why it can't.
fn unwind<W: Write>(session: &mut Session, writer: &mut Link<W>) -> Option<()>
    requires { has_failed writer.old ≡ false }
    ensures answers { Answers W.contents writer.old writer.new (is_some result)
        (machine_of session.old) (history_of session.old) commands.Unwind (history_of session.new) }
    ensures machine { machine_of session.new ≡ machine_of session.old }
{
    match session.unwind(writer) {
        Ok(()) => Some(()),
        Err(UnwindFault::NotAccepted) => put(writer, b"not accepted\n"),
        Err(UnwindFault::HadError) => put(writer, b"had error\n"),
        Err(UnwindFault::Write) => None,
    }
}

/// Writes the line of an edit that was made, or why it was not.
fn put_edit<W: Write>(
    session: &Session,
    writer: &mut Link<W>,
    made: Result<StepKind, StepFault>,
) -> Option<()>
    ensures { Sends W.contents writer.old writer.new (is_some result)
        (edit_text (machine_of session.now) (history_of session.now) made) }
{
    match made {
        Ok(kind) => put_step(session, writer, b" ", kind),
        Err(fault) => put(writer, refusal(false, fault)),
    }
}

/// Inserts the token that these bytes spell, and writes what came of it.
fn insert<W: Write>(session: &mut Session, writer: &mut Link<W>, bytes: &[u8]) -> Option<()>
    ensures answers { Answers W.contents writer.old writer.new (is_some result)
        (machine_of session.old) (history_of session.old) (commands.Insert bytes.now)
        (history_of session.new) }
    ensures machine { machine_of session.new ≡ machine_of session.old }
{
    match session.token(bytes) {
        Some(token) => {
            let made = session.insert(token);
            put_edit(session, writer, made)
        }
        None => put(writer, b"bad token\n"),
    }
}

/// Takes out the first of the upcoming tokens, and writes what came of it.
fn drop_next<W: Write>(session: &mut Session, writer: &mut Link<W>) -> Option<()>
    ensures answers { Answers W.contents writer.old writer.new (is_some result)
        (machine_of session.old) (history_of session.old) commands.Drop (history_of session.new) }
    ensures machine { machine_of session.new ≡ machine_of session.old }
{
    let made = session.drop_next();
    put_edit(session, writer, made)
}

/// Writes the reply to a command. `None` where the link failed.
#[tactic(auto, using(crate::proofs::Replying::told_show, crate::proofs::Replying::told_unknown))]
fn reply<W: Write>(session: &mut Session, command: Command<'_>, writer: &mut Link<W>) -> Option<()>
    requires { has_failed writer.old ≡ false }
    ensures answers { Answers W.contents writer.old writer.new (is_some result)
        (machine_of session.old) (history_of session.old) (command_view command.entry)
        (history_of session.new) }
    ensures machine { machine_of session.new ≡ machine_of session.old }
{
    match command {
        Command::Run(count) => run(session, writer, count),
        Command::Back(count) => back(session, writer, count),
        Command::To(position) => to(session, writer, position),
        Command::Show => put_configuration(session, writer),
        Command::Tree => tree(session, writer),
        Command::Unwind => unwind(session, writer),
        Command::Insert(bytes) => insert(session, writer, bytes),
        Command::Drop => drop_next(session, writer),
        Command::Unknown => put(writer, b"unknown command\n"),
    }
}

/// Answers a command, and flushes the writer. `None` where the link failed.
pub(crate) fn answer<W: Write>(
    session: &mut Session,
    command: Command<'_>,
    writer: &mut Link<W>,
) -> Option<()>
    requires { has_failed writer.old ≡ false }
    ensures answers { Answers W.contents writer.old writer.new (is_some result)
        (machine_of session.old) (history_of session.old) (command_view command.entry)
        (history_of session.new) }
    ensures machine { machine_of session.new ≡ machine_of session.old }
    ensures failed { has_failed writer.new ≡
        (if is_some result then has_failed writer.old else true) }
{
    reply(session, command, writer)?;
    if writer.flush() { Some(()) } else { None }
}
