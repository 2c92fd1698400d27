//! A journal over the parser that keeps snapshots: steps, edits, refusals, and undos.

use crate::made::tables_of;
use std::alloc::Global;
use std::test::Fail;
use testkit::worked::{LIST, ONE, SUMS};
use ygrammar::Sym;
use ylalr::ERROR;
use yparse::machine::{AtStart, Edit, Mode, StepFault, StepKind as Kind};
use yparse::{Journal, SnapshotParser, read_tokens};

const NUM: Sym = 2;

const SEMICOLON: Sym = 3;

const LIST_SYMBOL: Sym = 5;

const PLUS: Sym = 3;

const SUM_SYMBOL: Sym = 6;

const X: Sym = 2;

const ONE_SYMBOL: Sym = 4;

/// The upcoming tokens, each with its place.
type Rest = &'static [(Sym, usize)];

/// What is done, and what comes of it.
#[derive(Clone, Copy)]
enum Turn {
    /// The next steps, or the edits of these kinds, are made.
    Made(&'static [Kind]),
    /// These are undone, the last one first.
    Undone(&'static [Kind]),
    /// A step is refused.
    Halted,
    /// An edit is refused.
    Refused(Edit, StepFault),
    /// An undo is refused.
    Start,
    /// The stack, the upcoming tokens, the counter, the errors and the mode.
    Stands(&'static [Sym], Rest, usize, usize, Mode),
}

fn journal_of(
    alloc: Global,
    grammar: &[u8],
    tokens: &[u8],
) -> Result<Journal<SnapshotParser>, Fail> {
    let tables = tables_of(alloc, grammar)?;
    match read_tokens(alloc, &tables, tokens) {
        Ok(tokens) => Ok(Journal::new(alloc, SnapshotParser::new(alloc, tables, tokens))),
        Err(fault) => {
            drop(tables);
            Err(Fail::from(fault))
        }
    }
}

fn last_is(journal: &Journal<SnapshotParser>, kind: Kind) -> bool {
    journal.last().map(|change| change.kind) == Some(kind)
}

/// Whether the step or the edit of this kind is made.
fn makes(journal: &mut Journal<SnapshotParser>, kind: Kind) -> bool {
    let before = journal.position();
    let made = match kind {
        Kind::Insert(token) => journal.edit(Edit::Insert(token)),
        Kind::Drop(_) => journal.edit(Edit::Drop),
        _ => journal.step(),
    };
    made == Ok(()) && journal.position() == before + 1 && last_is(journal, kind)
}

/// Whether the last step or edit, of this kind, is undone.
fn undoes(journal: &mut Journal<SnapshotParser>, kind: Kind) -> bool {
    let before = journal.position();
    last_is(journal, kind) && journal.back() == Ok(()) && journal.position() + 1 == before
}

/// Whether these are the symbols of the stack and the upcoming tokens.
fn holds(journal: &Journal<SnapshotParser>, stack: &[Sym], rest: Rest) -> bool {
    let view = journal.machine().view();
    if (view.stack_len(), view.rest_len()) != (stack.len(), rest.len()) {
        return false;
    }
    for (index, symbol) in stack.iter().enumerate() {
        if view.stack(index) != *symbol {
            return false;
        }
    }
    for (index, token) in rest.iter().enumerate() {
        if view.rest(index) != *token {
            return false;
        }
    }
    true
}

/// Whether a turn gives what it says. What is refused leaves the position.
fn gives(journal: &mut Journal<SnapshotParser>, turn: Turn) -> bool {
    let before = journal.position();
    match turn {
        Turn::Made(kinds) => kinds.iter().all(|kind| makes(journal, *kind)),
        Turn::Undone(kinds) => kinds.iter().rev().all(|kind| undoes(journal, *kind)),
        Turn::Halted => journal.step() == Err(StepFault::Halted) && journal.position() == before,
        Turn::Refused(edit, fault) => {
            journal.edit(edit) == Err(fault) && journal.position() == before
        }
        Turn::Start => before == 0 && journal.back() == Err(AtStart),
        Turn::Stands(stack, rest, counter, errors, mode) => {
            let view = journal.machine().view();
            let counts = (view.counter(), view.errors());
            counts == (counter, errors) && view.mode() == mode && holds(journal, stack, rest)
        }
    }
}

fn gives_all(journal: &mut Journal<SnapshotParser>, turns: &[Turn]) -> bool {
    turns.iter().all(|turn| gives(journal, *turn))
}

/// Whether all turns over these texts give what they say.
fn goes(alloc: Global, (grammar, tokens): (&[u8], &[u8]), turns: &[Turn]) -> Result<bool, Fail> {
    let mut journal = journal_of(alloc, grammar, tokens)?;
    let all = gives_all(&mut journal, turns);
    drop(journal);
    Ok(all)
}

/// The steps over a spoiled number, of which the second token is discarded, up to the next number.
const SPOILED: &[Kind] = &[
    Kind::Reduce(1),
    Kind::Shift(NUM),
    Kind::Detect,
    Kind::Pop(NUM),
    Kind::ShiftError,
    Kind::Discard(NUM),
    Kind::Shift(SEMICOLON),
    Kind::Reduce(3),
    Kind::Shift(NUM),
];

#[test]
fn a_recovered_parse_and_its_undos(rt: HostRuntime) -> Result<(), Fail> {
    const LAST: &[Kind] = &[Kind::Shift(SEMICOLON), Kind::Reduce(2), Kind::Accept];
    let tokens = b"NUM NUM ';' NUM ';'";
    let number = Turn::Stands(&[LIST_SYMBOL, NUM], &[(SEMICOLON, 5)], 1, 1, Mode::Running);
    let turns = [
        Turn::Made(SPOILED),
        number,
        Turn::Made(LAST),
        Turn::Stands(&[LIST_SYMBOL], &[], 0, 1, Mode::Accepted),
        Turn::Halted,
        Turn::Undone(LAST),
        number,
        Turn::Undone(SPOILED),
        Turn::Start,
    ];
    assert!(rt; goes(rt.alloc(), (LIST, tokens), &turns)?);
    Ok(())
}

#[test]
fn a_second_error_and_its_undos(rt: HostRuntime) -> Result<(), Fail> {
    const FOUND: &[Kind] = &[Kind::Detect, Kind::Pop(NUM), Kind::ShiftError];
    const LAST: &[Kind] = &[
        Kind::Discard(NUM),
        Kind::Shift(SEMICOLON),
        Kind::Reduce(3),
        Kind::Accept,
    ];
    let rest: Rest = &[(NUM, 5), (SEMICOLON, 6)];
    let turns = [
        Turn::Made(SPOILED),
        Turn::Made(FOUND),
        Turn::Made(LAST),
        Turn::Stands(&[LIST_SYMBOL], &[], 2, 1, Mode::Accepted),
        Turn::Halted,
        Turn::Undone(LAST),
        Turn::Stands(&[LIST_SYMBOL, ERROR], rest, 3, 1, Mode::Running),
        Turn::Undone(FOUND),
        Turn::Undone(SPOILED),
        Turn::Start,
    ];
    assert!(rt; goes(rt.alloc(), (LIST, b"NUM NUM ';' NUM NUM ';'"), &turns)?);
    Ok(())
}

#[test]
fn an_inserted_token_and_its_undos(rt: HostRuntime) -> Result<(), Fail> {
    const FIRST: &[Kind] = &[Kind::Shift(NUM), Kind::Reduce(3)];
    const SIGN: &[Kind] = &[Kind::Insert(PLUS)];
    const LAST: &[Kind] = &[
        Kind::Shift(PLUS),
        Kind::Shift(NUM),
        Kind::Reduce(3),
        Kind::Reduce(1),
        Kind::Accept,
    ];
    let number = Turn::Stands(&[SUM_SYMBOL], &[(NUM, 2)], 0, 0, Mode::Running);
    let signed = Turn::Stands(&[SUM_SYMBOL], &[(PLUS, 0), (NUM, 2)], 0, 0, Mode::Running);
    let turns = [
        Turn::Made(FIRST),
        number,
        Turn::Made(SIGN),
        signed,
        Turn::Made(LAST),
        Turn::Stands(&[SUM_SYMBOL], &[], 0, 0, Mode::Accepted),
        Turn::Refused(Edit::Insert(PLUS), StepFault::Halted),
        Turn::Refused(Edit::Drop, StepFault::Halted),
        Turn::Undone(LAST),
        signed,
        Turn::Undone(SIGN),
        number,
        Turn::Undone(FIRST),
        Turn::Start,
    ];
    assert!(rt; goes(rt.alloc(), (SUMS, b"NUM NUM"), &turns)?);
    Ok(())
}

#[test]
fn a_dropped_token_and_its_undos(rt: HostRuntime) -> Result<(), Fail> {
    const FIRST: &[Kind] = &[Kind::Shift(X)];
    const TAKEN: &[Kind] = &[Kind::Drop(X)];
    const LAST: &[Kind] = &[Kind::Reduce(1), Kind::Accept];
    let one = Turn::Stands(&[X], &[(X, 2)], 0, 0, Mode::Running);
    let turns = [
        Turn::Made(FIRST),
        one,
        Turn::Made(TAKEN),
        Turn::Refused(Edit::Drop, StepFault::NoToken),
        Turn::Refused(Edit::Insert(ONE_SYMBOL), StepFault::NoToken),
        Turn::Refused(Edit::Insert(ERROR), StepFault::NoToken),
        Turn::Refused(Edit::Insert(0), StepFault::NoToken),
        Turn::Stands(&[X], &[], 0, 0, Mode::Running),
        Turn::Made(LAST),
        Turn::Stands(&[ONE_SYMBOL], &[], 0, 0, Mode::Accepted),
        Turn::Undone(LAST),
        Turn::Undone(TAKEN),
        one,
        Turn::Made(&LAST[..1]),
        Turn::Stands(&[ONE_SYMBOL], &[(X, 2)], 0, 0, Mode::Running),
        Turn::Undone(&LAST[..1]),
        Turn::Undone(FIRST),
        Turn::Start,
    ];
    assert!(rt; goes(rt.alloc(), (ONE, b"'x' 'x'"), &turns)?);
    Ok(())
}
