//! The words of a tokens file.

ghost use Rattle.std.specs.Prelude.{◌≡◌, ◌≤◌, ◌==◌, true, false, length, take, drop};
ghost use Rattle.ylexemes.specs.Bytes.{is_blank, all_pass, begins};
ghost use Rattle.ytokens.specs.TokensFile.{is_word_byte};
ghost use Rattle.ytokens.specs.TokensFile.{FrontAt, FrontIs};
ghost use Rattle.ytokens.specs.Reading.{front_view};

use ylexemes::bytes::is_blank;
use ylexemes::literal::literal_at;

/// What stands at the front of a tokens file, once blanks are skipped.
#[derive(Clone, Copy)]
pub enum Front<'a> {
    /// The end of the file.
    Nothing,
    /// A word other than a literal, and what follows it.
    Word(&'a [u8], &'a [u8]),
    /// A literal by its value, and what follows it.
    Literal(u8, &'a [u8]),
    /// A quote that begins no literal.
    Broken,
}

fn is_word_byte(byte: u8) -> bool
    ensures { result ≡ is_word_byte byte }
{
    !(is_blank(byte) || byte == b'\'')
}

/// How many blanks stand at the front.
fn blanks_in(bytes: &[u8]) -> usize
    ensures within { result ≤ length bytes.now }
    ensures each { all_pass is_blank (take result bytes.now) ≡ true }
    ensures whole { begins is_blank (drop result bytes.now) ≡ false }
{
    for (index, byte) in bytes.iter().enumerate() {
        if !is_blank(*byte) {
            return index;
        }
    }
    bytes.len()
}

/// How many bytes that are neither blanks nor quotes stand at the front.
fn run_in(bytes: &[u8]) -> usize
    ensures within { result ≤ length bytes.now }
    ensures each { all_pass is_word_byte (take result bytes.now) ≡ true }
    ensures whole { begins is_word_byte (drop result bytes.now) ≡ false }
{
    for (index, byte) in bytes.iter().enumerate() {
        if !is_word_byte(*byte) {
            return index;
        }
    }
    bytes.len()
}

/// What stands at a quote.
fn quoted(bytes: &[u8]) -> Front<'_>
    requires { begins (λ b. b == 39) bytes.now ≡ true }
    ensures { FrontAt bytes.now (front_view result) }
{
    match literal_at(bytes) {
        Some((value, rest)) => Front::Literal(value, rest),
        None => Front::Broken,
    }
}

/// What stands at the front, where no blank does.
fn front_here(bytes: &[u8]) -> Front<'_>
    requires { begins is_blank bytes.now ≡ false }
    ensures { FrontAt bytes.now (front_view result) }
{
    if bytes.is_empty() {
        return Front::Nothing;
    }
    if bytes[0] == b'\'' {
        return quoted(bytes);
    }
    let len = run_in(bytes);
    Front::Word(&bytes[..len], &bytes[len..])
}

/// What stands at the front, once blanks are skipped.
pub fn front_of(bytes: &[u8]) -> Front<'_>
    ensures { FrontIs bytes.now (front_view result) }
{
    front_here(&bytes[blanks_in(bytes)..])
}
