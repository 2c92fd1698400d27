//! Runs of bytes, texts and comments at the front of bytes.

ghost use Rattle.std.specs.Prelude.{◌≡◌, ◌++◌, ◌∷◌, [], true, false, length, List, ℕ, MatchOption};
ghost use Rattle.ylexemes.specs.Bytes.{is_blank, is_digit, is_name_start, is_name_byte, all_pass};
ghost use Rattle.ylexemes.specs.Bytes.{begins, IsComment};
ghost use Rattle.ylexemes.specs.Views.{pair_after, slice_of, SkipsGap};

/// Whether the byte is a blank: a space, tab, newline, carriage return or form feed.
pub fn is_blank(b: u8) -> bool
    ensures { result ≡ is_blank b }
{
    matches!(b, b' ' | b'\t' | b'\n' | b'\r' | 12)
}

/// Whether the byte is a decimal digit.
pub fn is_digit(b: u8) -> bool
    ensures { result ≡ is_digit b }
{
    b.is_ascii_digit()
}

/// Whether a name can begin with the byte: a letter, a period or an underscore.
pub fn is_name_start(b: u8) -> bool
    ensures { result ≡ is_name_start b }
{
    b.is_ascii_alphabetic() || b == b'.' || b == b'_'
}

/// Whether the byte can stand in a name: as its first byte, or a digit.
pub fn is_name_byte(b: u8) -> bool
    ensures { result ≡ is_name_byte b }
{
    is_name_start(b) || is_digit(b)
}

/// The name bytes at the front, as many as stand there, and the rest.
pub fn name_run(bytes: &[u8]) -> (&[u8], &[u8])
    ensures whole { bytes.now ≡ result.0.now ++ result.1.now }
    ensures run { all_pass is_name_byte result.0.now ≡ true }
    ensures stop { begins is_name_byte result.1.now ≡ false }
{
    let mut n = 0;
    while n < bytes.len() && is_name_byte(bytes[n]) {
        n += 1;
    }
    bytes.split_at(n)
}

/// The digits at the front, as many as stand there, and the rest.
pub fn digit_run(bytes: &[u8]) -> (&[u8], &[u8])
    ensures whole { bytes.now ≡ result.0.now ++ result.1.now }
    ensures run { all_pass is_digit result.0.now ≡ true }
    ensures stop { begins is_digit result.1.now ≡ false }
{
    let mut n = 0;
    while n < bytes.len() && is_digit(bytes[n]) {
        n += 1;
    }
    bytes.split_at(n)
}

/// What follows the first byte `first` with `second` right after it. `None` where they stand
/// nowhere.
pub fn after_pair<'a>(bytes: &'a [u8], first: u8, second: u8) -> Option<&'a [u8]>
    ensures { slice_of result ≡ pair_after first second bytes.now }
{
    let mut rest = bytes;
    while let [x, tail @ ..] = rest {
        if *x == first && !tail.is_empty() && tail[0] == second {
            return Some(&tail[1..]);
        }
        rest = tail;
    }
    None
}

/// What follows this text at the front. `None` where the bytes don't begin with it.
pub fn after_text<'a>(bytes: &'a [u8], text: &[u8]) -> Option<&'a [u8]>
    ensures { MatchOption result
        ((rest : List ℕ) → bytes.now ≡ text.now ++ rest → ⊥)
        (λ rest. bytes.now ≡ text.now ++ rest.now) }
{
    bytes.strip_prefix(text)
}

/// What follows the blanks and comments at the front.
pub fn after_gap(bytes: &[u8]) -> &[u8]
    ensures { SkipsGap bytes.now result.now }
{
    let mut rest = bytes;
    while !rest.is_empty() {
        if is_blank(rest[0]) {
            rest = rest.split_at(1).1;
        } else {
            match after_comment(rest) {
                None => return rest,
                Some(tail) => rest = tail,
            }
        }
    }
    rest
}

/// What follows a comment, `/*` to the first `*/`, at the front. `None` where no comment stands
/// there.
pub fn after_comment<'a>(bytes: &'a [u8]) -> Option<&'a [u8]>
    ensures { MatchOption result
        ((text rest : List ℕ) → IsComment text → bytes.now ≡ text ++ rest → ⊥)
        (λ rest. (text : List ℕ) × IsComment text × (bytes.now ≡ text ++ rest.now)) }
{
    match after_text(bytes, b"/*") {
        None => None,
        Some(more) => after_pair(more, b'*', b'/'),
    }
}
