//! Variables that a word sets and the file sets otherwise.

use crate::ending::{Ending, File};
use crate::saying::refuse;
use yparts::parts::Parts;
use yparts::refusal::{Refusal, Refused};

/// Refuses a file that gives another value to a variable that `-D` sets; one that `-F` sets has
/// that value whatever the file says. Each variable of the words has its letter before it and a
/// zero after it.
pub fn refuse_others(rt: &HostRuntime, file: &File, parts: &Parts<'_>) -> Result<(), Ending> {
    for word in file.variables.split(|byte| *byte == 0) {
        let Some((b'D', variable)) = word.split_first() else {
            continue;
        };
        let equals = variable.iter().position(|byte| *byte == b'=');
        let end = equals.unwrap_or(variable.len());
        let name = variable.get(..end).unwrap_or(variable);
        let value = match variable.get(end.saturating_add(1)..).unwrap_or(&[]) {
            [b'{', text @ .., b'}'] | [b'"', text @ .., b'"'] => text,
            text => text,
        };
        for defined in &parts.defined {
            if defined.name == name && defined.value != value {
                let refused = Refused::new(Refusal::Redefined, defined.at, defined.name);
                return Err(refuse(rt, file, refused));
            }
        }
    }
    Ok(())
}
