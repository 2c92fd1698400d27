//! Counterexamples for the conflicts of a grammar file.

use crate::called::called_by;
use crate::ending::{Ending, File};
use std::env;
use yfiles::diagnostic::Diagnostics;
use yfiles::steady::Steady;
use yfindings::kinds::Telling;
use yfrontend::import::{Dialect, Foreign, Read, open_grammar};
use yfrontend::notes::Source;
use ylayouts::examples::{Heading, put_examples};
use ylayouts::manner::{ASCII, Manner, Signs, UTF_8};
use yskeleton::Skeleton;

/// Whether a name of a place says that its texts are in UTF-8.
fn names_utf_8(place: &[u8]) -> bool {
    let (mut five, mut four) = (place.windows(5), place.windows(4));
    five.any(|part| matches!(part, b"UTF-8" | b"utf-8"))
        || four.any(|part| matches!(part, b"UTF8" | b"utf8"))
}

/// The signs of texts where the program runs: in UTF-8 where the first of these variables that is
/// set to something says so.
pub fn signs_of(rt: &HostRuntime) -> Signs {
    for name in ["LC_ALL", "LC_CTYPE", "LANG"] {
        if let Ok(value) = env::var(rt, name) {
            if !value.is_empty() {
                return if names_utf_8(value.as_bytes()) {
                    UTF_8
                } else {
                    ASCII
                };
            }
        }
    }
    ASCII
}

/// Tells an example for each conflict of a file, which was read without a fault.
pub fn tell_examples(
    rt: &HostRuntime,
    file: &File,
    skeleton: &Skeleton<'_>,
    telling: Telling,
) -> Result<(), Ending> {
    let (alloc, path) = (rt.alloc(), file.path.as_str());
    let source = Source {
        path,
        bytes: &file.bytes,
    };
    let mut told = Diagnostics::new(alloc);
    let opened = match open_grammar(alloc, &mut told, source, Dialect::Seen)? {
        Ok(Read::Plain(opened)) => opened,
        Ok(Read::Foreign(foreign)) => {
            let Foreign { opened, .. } = foreign;
            opened
        }
        Err(_) => return Ok(()),
    };
    let (severity, option) = match telling {
        Telling::Error => ("error", "-Werror=counterexamples"),
        _ => ("warning", "-Wcounterexamples"),
    };
    let heading = Heading {
        path,
        severity,
        option,
    };
    let names = called_by(alloc, skeleton, true)?;
    let manner = Manner {
        names: &names,
        signs: signs_of(rt),
    };
    let mut errors = Steady::new(rt.stderr(), true);
    put_examples(alloc, &mut errors, (heading, manner), opened)?;
    Ok(errors.finish()?)
}
