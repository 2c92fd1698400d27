//! The limits of grammars and of their files.

/// The most symbols that a grammar may have.
pub const MOST_SYMBOLS: usize = 4_096;

/// The most rules that a grammar may have, `$accept : S $end` among them.
pub const MOST_RULES: usize = 8_192;

/// The most symbols in the body of a rule.
pub const LONGEST_BODY: usize = 255;

/// The greatest number that a token may have.
pub const GREATEST_NUMBER: u32 = 32_767;

/// Numbers of tokens are below this: one more than `GREATEST_NUMBER`.
pub const NUMBERS: usize = 32_768;

/// The most bytes that a grammar file may have.
pub const LONGEST_FILE: usize = 1_048_576;
