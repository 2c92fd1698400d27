//! Programs over two texts in memory.

use std::alloc::Global;
use std::test::Fail;
use testkit::devices::{Refusal, Sink};
use testkit::worked::ONE;
use ycli::generator::yacc_in;
use ycli::programs::ystep_in;
use yfolder::{Text, Texts};
use ysymbols::let_go;
use ytables::Link;

/// How a run ended: its status, what it wrote, and its messages.
struct Ran {
    status: u8,
    out: Sink,
    messages: Sink,
}

impl Drop for Ran {
    // A call in each owner, which keeps their proofs short.
    fn drop(self) {
        let_go!(self: Ran { status, out, messages });
    }
}

/// A grammar of one rule and its one token, as files in memory.
fn texts() -> Texts<'static> {
    Texts::new(Text::new("grammar.y", ONE), Text::new("tokens", b"'x'"))
}

/// A link to a writer of which no call fails.
fn sink() -> Link<Sink> {
    Link::new(Sink::new(4096, Refusal::Never))
}

/// Whether a writer has taken this text, and nothing else.
fn has(sink: &Sink, text: &[u8]) -> bool {
    sink.text() == text
}

/// `ystep` over these texts and command lines.
fn step(alloc: Global, words: &[&str], lines: &[u8]) -> Ran {
    let (mut out, mut messages) = (sink(), sink());
    let mut reader = Link::new(lines);
    let status = ystep_in(
        alloc,
        &mut texts(),
        words,
        &mut reader,
        &mut out,
        &mut messages,
    );
    Ran {
        status,
        out: out.into_inner(),
        messages: messages.into_inner(),
    }
}

/// `yacc` over these texts.
fn generate(alloc: Global, words: &[&str]) -> Ran {
    let (mut out, mut messages) = (sink(), sink());
    let status = yacc_in(alloc, &mut texts(), words, &mut out, &mut messages);
    Ran {
        status,
        out: out.into_inner(),
        messages: messages.into_inner(),
    }
}

#[test]
fn a_session(rt: HostRuntime) -> Result<(), Fail> {
    let ran = step(
        rt.alloc(),
        &["ystep", "grammar.y", "tokens"],
        b"run 9\nunwind\n",
    );
    assert_eq!(rt; ran.status, 0);
    assert!(rt; has(&ran.out, b"1 shift 'x'\n2 reduce 1\n3 accept\ns\n'x'\n"));
    assert!(rt; has(&ran.messages, b""));
    Ok(())
}

#[test]
fn a_text_that_is_not_there(rt: HostRuntime) -> Result<(), Fail> {
    let ran = step(rt.alloc(), &["ystep", "grammar.y", "input"], b"run 9\n");
    assert_eq!(rt; ran.status, 3);
    assert!(rt; has(&ran.out, b""));
    assert!(rt; has(&ran.messages, b"ystep: cannot read input\n"));
    Ok(())
}

#[test]
fn a_folder_that_takes_no_file(rt: HostRuntime) -> Result<(), Fail> {
    let ran = generate(rt.alloc(), &["yacc", "-b", "one", "grammar.y"]);
    assert_eq!(rt; ran.status, 3);
    assert!(rt; has(&ran.messages, b"yacc: cannot write one.tab\n"));
    Ok(())
}
