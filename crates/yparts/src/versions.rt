//! Versions of bison.

use crate::refusal::Refusal;

/// The version whose files are taken, 3.8.2.
const OWN: usize = 30_802;

/// The number that digits spell, where they are one to five.
fn number_of(digits: &[u8]) -> Option<usize> {
    if digits.is_empty() || digits.len() > 5 {
        return None;
    }
    let mut number: usize = 0;
    for b in digits {
        if !b.is_ascii_digit() {
            return None;
        }
        let digit = usize::from(b.wrapping_sub(b'0'));
        number = number.saturating_mul(10).saturating_add(digit);
    }
    Some(number)
}

/// The version that a text requires, as 30802; a later one than that is refused. A version has two
/// numbers or three, those after the first below 100; what follows a third dot is left out.
pub fn required(text: &[u8]) -> Result<usize, Refusal> {
    let mut version: usize = 0;
    let mut count: usize = 0;
    for digits in text.split(|b| *b == b'.') {
        if count < 3 {
            match number_of(digits) {
                Some(number) if count == 0 || number < 100 => {
                    version = version.saturating_mul(100).saturating_add(number);
                }
                _ => return Err(Refusal::Version),
            }
            count = count.saturating_add(1);
        }
    }
    if count == 2 {
        version = version.saturating_mul(100);
    }
    if count < 2 {
        Err(Refusal::Version)
    } else if version > OWN {
        Err(Refusal::Later)
    } else {
        Ok(version)
    }
}
