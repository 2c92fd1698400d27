//! The folder of the file system over files whose flush refuses.

use crate::drive::{Drive, GRAMMAR, Open};
use std::alloc::Global;
use std::test::Fail;
use testkit::devices::{Refusal, Sink};
use ycli::generator::yacc_in;
use yfolder::{Disk, Folder};
use ytables::Link;

/// The call of a file that is its flush, where nothing is written: the first.
const FLUSH: usize = 1;

/// What the folder answers when it closes a link to a file with this refusal.
fn closed(drive: &Drive, link: Link<Open>) -> bool {
    Disk::new(drive).close(link)
}

#[test]
fn a_close_answers_what_the_flush_answered(rt: HostRuntime) -> Result<(), Fail> {
    let drive = Drive::new(Refusal::Never);
    for (refusal, answer) in [
        (Refusal::Never, true),
        (Refusal::Refuses(FLUSH), false),
        // One call is made, and no second.
        (Refusal::Refuses(FLUSH + 1), true),
    ] {
        assert_eq!(rt; closed(&drive, Link::new(Open::empty(refusal))), answer);
    }
    Ok(())
}

#[test]
fn a_file_that_failed_is_closed_as_such(rt: HostRuntime) -> Result<(), Fail> {
    let drive = Drive::new(Refusal::Never);
    let mut link = Link::new(Open::empty(Refusal::Refuses(1)));
    assert!(rt; link.write(b"x").is_none());
    assert!(rt; !closed(&drive, link));
    Ok(())
}

/// The status of `yacc` over one grammar, where the table's file refuses a call, and its messages.
fn generate(alloc: Global, refusal: Refusal) -> (u8, Sink) {
    let drive = Drive::new(refusal);
    let mut out = Link::new(Sink::new(4096, Refusal::Never));
    let mut messages = Link::new(Sink::new(4096, Refusal::Never));
    let words = ["yacc", GRAMMAR];
    let status = yacc_in(
        alloc,
        &mut Disk::new(&drive),
        &words,
        &mut out,
        &mut messages,
    );
    (status, messages.into_inner())
}

#[test]
fn a_table_whose_flush_is_refused(rt: HostRuntime) -> Result<(), Fail> {
    // The table is one write, and then comes the flush.
    for call in 1..=2 {
        let (status, messages) = generate(rt.alloc(), Refusal::Refuses(call));
        assert_eq!(rt; status, 3);
        assert!(rt; messages.text().starts_with(b"yacc: cannot write y.tab"));
    }
    let (status, messages) = generate(rt.alloc(), Refusal::Refuses(3));
    assert_eq!(rt; status, 0);
    assert!(rt; messages.text().is_empty());
    Ok(())
}
