//! Numbers of tokens.

/// The most that a token of `yacc` can have.
pub const MOST: usize = 32_767;

/// The most that a token of bison can have.
pub const GREATEST: usize = 2_147_483_646;

/// The number of `error`.
pub const ERROR: usize = 256;

/// The number of digits of a base, or a large one.
fn value_of(digits: &[u8], base: usize) -> usize {
    let mut value: usize = 0;
    for b in digits {
        let digit = char::from(*b).to_digit(16).unwrap_or(0) as usize;
        value = value.saturating_mul(base).saturating_add(digit);
    }
    value
}

/// Whether a number is hexadecimal.
pub fn is_hexadecimal(text: &[u8]) -> bool {
    matches!(text, [b'0', b'x' | b'X', ..])
}

/// The value of a number, or a large one.
pub fn number_of(text: &[u8]) -> usize {
    if is_hexadecimal(text) {
        value_of(text.get(2..).unwrap_or(&[]), 16)
    } else {
        value_of(text, 10)
    }
}
