//! What is said of errors of a file: of values that its code misuses, and of what no parser has.

use std::alloc::Global;
use std::io;
use yexplain::reads::Made;
use yfiles::diagnostic::Diagnostic;
use yfiles::output::Output;
use yparts::defines::accepted;
use yparts::refusal::{Refusal, Refused};
use yskeleton::{Meant, Misuse, Misused, has_signs};

/// Says that a value needs a tag: the left side's, or another.
fn put_untyped(out: &mut Output, it: &Misused<'_>) {
    if it.misuse == Misuse::Untyped {
        out.put_bytes(it.text);
    } else {
        out.put("$$");
        if let Some(place) = it.inner {
            out.put(" for the midrule at $");
            out.number(place);
        }
    }
    let left: &[u8] = match it.names.first() {
        Some(left) => left.symbol,
        None => b"",
    };
    out.put_pieces(&[b" of '", left, b"' has no declared type"]);
}

/// Says what is wrong with a value or place that code names.
pub fn put_misused(out: &mut Output, it: &Misused<'_>) {
    let front = match it.misuse {
        Misuse::OutOfRange => "integer out of range: '",
        Misuse::UntypedLeft | Misuse::Untyped => return put_untyped(out, it),
        Misuse::Unknown => "invalid reference: '",
        Misuse::Ambiguous => "ambiguous reference: '",
        Misuse::Misleading => "misleading reference: '",
        Misuse::Stray => "stray '",
    };
    out.put_pieces(&[front.as_bytes(), it.text, b"'"]);
}

/// Writes a name after its sign, and what follows it, in brackets where it needs some.
fn put_name(out: &mut Output, sign: u8, name: &[u8], tail: &[u8]) {
    let (open, close) = if has_signs(name) {
        ("[", "]")
    } else {
        ("", "")
    };
    out.put_bytes(&[sign]);
    out.put(open);
    out.put_bytes(name);
    out.put(close);
    out.put_bytes(tail);
}

/// What a misused name could mean, in words.
fn meaning(alloc: Global, it: &Misused<'_>, meant: Meant<'_>) -> Made<Vec<u8>> {
    let sign = if it.text.first() == Some(&b'@') {
        b'@'
    } else {
        b'$'
    };
    let mut out = Output::new(alloc);
    if meant.is_right {
        out.put_pieces(&[b"refers to: ", &[sign], meant.name]);
    } else {
        out.put("possibly meant: ");
        let tail: &[u8] = if it.is_bracketed() { b"" } else { meant.tail };
        put_name(&mut out, sign, meant.name, tail);
        if let Some(hidden) = meant.hidden {
            out.put(", hiding ");
            put_name(&mut out, sign, hidden, tail);
        }
    }
    out.put(" at $");
    match meant.place {
        0 => out.put("$"),
        place => out.number(place),
    }
    if let (true, Some(inner)) = (meant.is_unseen, it.inner) {
        out.put(", cannot be accessed from midrule action at $");
        out.number(inner);
    }
    out.into_bytes()
}

/// Says where a name was sought in vain.
fn absence(alloc: Global, it: &Misused<'_>) -> Made<Vec<u8>> {
    let mut out = Output::new(alloc);
    out.put("symbol not found in production");
    if let Some(inner) = it.inner {
        out.put(" before $");
        out.number(inner);
    }
    let end = it.name.iter().position(|b| matches!(*b, b'.' | b'-'));
    let name = match end {
        Some(end) if !it.is_bracketed() && end > 0 => it.name.get(..end),
        _ => None,
    };
    out.put_pieces(&[b": ", name.unwrap_or(it.name)]);
    out.into_bytes()
}

/// Adds what helps with a misused name.
pub fn help_with_name(alloc: Global, one: &mut Diagnostic, it: &Misused<'_>) -> io::Result<()> {
    match it.misuse {
        Misuse::Unknown => one.help(absence(alloc, it)?)?,
        Misuse::Ambiguous | Misuse::Misleading => {}
        _ => return Ok(()),
    }
    for meant in &it.meant(alloc)? {
        one.help(meaning(alloc, it, *meant)?)?;
    }
    Ok(())
}

/// Says why a file is refused for what it says of its parser.
pub fn put_refused(out: &mut Output, it: &Refused<'_>) {
    let (name, value) = (it.name, it.value);
    match it.refusal {
        Refusal::Variable => out.put_pieces(&[b"%define variable '", name, b"' is not used"]),
        Refusal::Redefined => out.put_pieces(&[b"%define variable '", name, b"' redefined"]),
        Refusal::Boolean => {
            out.put_pieces(&[b"invalid value for %define Boolean variable '", name, b"'"]);
        }
        Refusal::Value => {
            out.put_pieces(&[b"invalid value for %define variable '", name]);
            out.put_pieces(&[b"': '", value, b"'"]);
        }
        Refusal::Qualifier => out.put_pieces(&[b"%code qualifier '", name, b"' is not used"]),
        Refusal::Parameter => out.put("missing identifier in parameter declaration"),
        Refusal::Version => out.put_pieces(&[b"invalid version requirement: ", name]),
        Refusal::Later => out.put_pieces(&[b"require bison ", name, b", but have 3.8.2"]),
        Refusal::Values => {
            out.put("'%union' and '%define api.value.type' cannot be used together");
        }
        Refusal::SecondCare => out.put_pieces(&[value, b" redeclaration for ", name]),
        refusal => out.put(refusal.text()),
    }
}

/// Adds the values that a variable accepts.
pub fn help_with_value(alloc: Global, one: &mut Diagnostic, it: &Refused<'_>) -> io::Result<()> {
    let known = accepted(it.name);
    if it.refusal != Refusal::Value || known.is_empty() {
        return Ok(());
    }
    for value in known.split(' ') {
        let mut out = Output::new(alloc);
        out.put_pieces(&[b"accepted value: '", value.as_bytes(), b"'"]);
        one.help(out.into_bytes()?)?;
    }
    Ok(())
}
