//! Texts on their way out: what they have, what they hand on to a device, and when.

use std::test::Fail;
use testkit::devices::{Counted, Refusal, Sink};
use yfiles::output::Output;

#[test]
fn a_text_has_what_is_written(rt: HostRuntime) -> Result<(), Fail> {
    let mut out = Output::new(rt.alloc());
    out.number_to(4, 12);
    out.tab(6);
    out.signed(-5);
    out.tab(7);
    out.hex(255);
    out.put_characters(b"\xe9?");
    out.end_line();
    out.end_line();
    out.put_pieces(&[b"a", b"b"]);
    assert_eq!(rt; out.next_line(), 2);
    out.line("");
    assert_eq!(rt; out.next_line(), 3);
    let text = out.into_bytes()?;
    assert_eq!(rt;
        text.as_slice(),
        b"  12  -5  000000ff\xc3\xa9?\nab\n".as_slice()
    );
    Ok(())
}

#[test]
fn much_is_handed_on_at_once(rt: HostRuntime) -> Result<(), Fail> {
    let (mut out, mut device) = (Output::new(rt.alloc()), Counted::default());
    for _ in 0..131_072usize {
        out.put("a");
        out.hand_on(&mut device);
    }
    assert_eq!(rt; device.calls().writes, 2);
    out.put("b\nc");
    assert_eq!(rt; out.next_line(), 2);
    assert!(rt; out.finish(&mut device).is_ok());
    assert_eq!(rt; out.next_line(), 2);
    assert_eq!(rt; device.calls().writes, 3);
    Ok(())
}

#[test]
fn a_fault_is_remembered(rt: HostRuntime) -> Result<(), Fail> {
    let (mut out, mut sink) = (Output::new(rt.alloc()), Sink::new(8, Refusal::Refuses(2)));
    out.put("it takes eight bytes");
    assert!(rt; out.finish(&mut sink).is_err());
    out.put("and no more");
    assert!(rt; out.finish(&mut sink).is_err());
    assert_eq!(rt; sink.text(), b"it takes".as_slice());
    assert!(rt; out.into_bytes().is_err());
    Ok(())
}
