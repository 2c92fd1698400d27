//! What is said of calls, without memory. Where it can't be written, nothing more is said.

use std::io::Write;

/// Writes a line of these parts to standard output.
pub fn say(rt: &HostRuntime, parts: &[&[u8]]) {
    let mut output = rt.stdout();
    for part in parts {
        let _ = output.write_all(part);
    }
    let _ = output.write_all(b"\n");
}

/// Writes a number and then these parts.
pub fn say_at(rt: &HostRuntime, position: usize, parts: &[&[u8]]) {
    let mut digits = itoa::Buffer::new();
    let _ = rt.stdout().write_all(digits.format(position).as_bytes());
    say(rt, parts);
}

/// Says that memory ran out in this call.
pub fn say_refused(rt: &HostRuntime, call: &str) {
    say(rt, &[call.as_bytes(), b": no memory"]);
}
