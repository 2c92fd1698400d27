//! Runs of bytes at the front of others: how many they are.

use ylexemes::bytes::is_name_byte;

/// How many bytes a name has, or a percent word without its sign. Names of bison can have dashes.
pub fn word_length(bytes: &[u8]) -> usize {
    bytes
        .iter()
        .position(|b| !is_name_byte(*b) && *b != b'-')
        .unwrap_or(bytes.len())
}

/// How many bytes a percent word has, with its sign. Four old ones of byacc are a sign or a digit.
pub fn percent_length(bytes: &[u8]) -> usize {
    match bytes {
        [b'%', b'<' | b'>' | b'0' | b'2', ..] => 2,
        [b'%', word @ ..] => word_length(word).saturating_add(1),
        _ => 0,
    }
}

/// How many bytes stand before a newline.
pub fn line_length(bytes: &[u8]) -> usize {
    bytes
        .iter()
        .position(|b| *b == b'\n')
        .unwrap_or(bytes.len())
}

/// How many newlines there are.
pub fn newlines(bytes: &[u8]) -> usize {
    bytes.iter().filter(|b| **b == b'\n').count()
}
