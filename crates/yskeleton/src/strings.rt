//! Texts within strings of C.

use yfiles::output::Output;

/// What of a text is escaped.
#[derive(Clone, Copy, PartialEq, Eq)]
pub enum Escaped {
    /// The second question mark of two: the text is one of C, but for trigraphs.
    Trigraphs,
    /// What no string of C has as it is, too.
    Quotes,
    /// Each question mark and what isn't printed, too.
    Unprinted,
}

/// Writes bytes within a string of C.
pub fn put_string(out: &mut Output, bytes: &[u8], escaped: Escaped) {
    let mut before = 0u8;
    for byte in bytes {
        let is_plain = match *byte {
            b'?' => before != b'?' && escaped != Escaped::Unprinted,
            b'"' | b'\\' | 0..=31 | 127 => escaped == Escaped::Trigraphs,
            b' '..=b'~' => true,
            _ => escaped != Escaped::Unprinted,
        };
        match *byte {
            byte if is_plain => out.put_bytes(&[byte]),
            byte @ (b'?' | b'"' | b'\\') => out.put_bytes(&[b'\\', byte]),
            b'\n' => out.put("\\n"),
            byte => {
                let digits = [byte >> 6, (byte >> 3) & 7, byte & 7];
                out.put("\\");
                for digit in digits {
                    out.put_bytes(&[b'0'.saturating_add(digit)]);
                }
            }
        }
        before = *byte;
    }
}
