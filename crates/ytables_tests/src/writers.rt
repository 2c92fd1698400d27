//! Writers of a byte a call, and those that fail at each of their calls; how often a link asks.

use crate::made::tables_of;
use std::alloc::Global;
use std::io::{Read, Write};
use std::test::Fail;
use testkit::devices::{Calls, Counted, Refusal, Sink};
use testkit::worked::DANGLING;
use ytables::{Link, TableFault, Tables};

/// Which of the two texts of tables.
#[derive(Clone, Copy)]
enum Text {
    Report,
    Table,
}

/// Writes one of the texts.
fn write<W: Write>(tables: &Tables, text: Text, link: &mut Link<W>) -> Result<(), TableFault> {
    match text {
        Text::Report => tables.write_report(link),
        Text::Table => tables.write_table(link),
    }
}

/// What a writer of a byte a call answers one of the texts, whether its link failed, and the
/// writer.
fn sent(tables: &Tables, text: Text, refusal: Refusal) -> (Result<(), TableFault>, bool, Sink) {
    let mut link = Link::new(Sink::new(1, refusal));
    let answer = write(tables, text, &mut link);
    (answer, link.failed(), link.into_inner())
}

/// Whether a writer that fails after so many bytes of a text gets these and answers a fault.
fn is_cut(tables: &Tables, text: Text, whole: &[u8], n: usize, refusal: Refusal) -> bool {
    let (answer, failed, sink) = sent(tables, text, refusal);
    answer == Err(TableFault::Write) && failed && whole.get(..n) == Some(sink.text())
}

/// Whether a text is cut off at each of its bytes, and complete where no call fails.
fn is_sent(alloc: Global, tables: &Tables, text: Text) -> bool {
    let mut link = Link::new(Vec::new(alloc));
    let written = write(tables, text, &mut link);
    let whole = link.into_inner();
    for n in 0..whole.len() {
        let call = n.saturating_add(1);
        if !is_cut(tables, text, &whole, n, Refusal::Refuses(call))
            || !is_cut(tables, text, &whole, n, Refusal::TakesNone(call))
        {
            return false;
        }
    }
    let (answer, failed, sink) = sent(tables, text, Refusal::Never);
    written.is_ok() && answer.is_ok() && !failed && sink.text() == whole.as_slice()
}

#[test]
fn texts_are_cut_where_a_writer_fails(rt: HostRuntime) -> Result<(), Fail> {
    let tables = tables_of(rt.alloc(), DANGLING)?;
    let right = is_sent(rt.alloc(), &tables, Text::Report)
        && is_sent(rt.alloc(), &tables, Text::Table);
    drop(tables);
    assert!(rt; right);
    Ok(())
}

/// A call of a link.
#[derive(Clone, Copy)]
enum Ask {
    Write,
    Flush,
    Read,
    ReadAsReader,
}

/// What a device is asked by one call of its link.
fn asked(ask: Ask) -> Calls {
    let mut link = Link::new(Counted::default());
    let mut room = [0; 8];
    let _done = match ask {
        Ask::Write => link.write(b"text").is_some(),
        Ask::Flush => link.flush(),
        Ask::Read => link.read(&mut room).is_some(),
        Ask::ReadAsReader => Read::read(&mut link, &mut room).is_ok(),
    };
    link.into_inner().calls()
}

/// So many calls.
fn calls(reads: usize, writes: usize, flushes: usize) -> Calls {
    Calls {
        reads,
        writes,
        flushes,
    }
}

#[test]
fn each_call_of_a_link_is_one_of_its_device(rt: HostRuntime) -> Result<(), Fail> {
    assert!(rt; asked(Ask::Write) == calls(0, 1, 0));
    assert!(rt; asked(Ask::Flush) == calls(0, 0, 1));
    assert!(rt; asked(Ask::Read) == calls(1, 0, 0));
    assert!(rt; asked(Ask::ReadAsReader) == calls(1, 0, 0));
    Ok(())
}
