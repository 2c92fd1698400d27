//! What a call leaves in the caller's memory.

ghost use Rattle.std.specs.Prelude.{◌≡◌, ◌++◌, take, drop, length};
ghost use Rattle.yembed.specs.Memory.{Holds};

/// Puts the beginning that fits into the caller's memory: how long all is.
pub(crate) fn put_bytes(text: &[u8], out: &mut [u8]) -> usize
    ensures holds { Holds out.old out.new text.now }
    ensures len { result ≡ length text.now }
{
    let count = text.len().min(out.len());
    out[..count].copy_from_slice(&text[..count]);
    text.len()
}

/// Puts the first numbers that fit into the caller's memory: how many there are in all.
pub(crate) fn put_numbers(numbers: &[usize], out: &mut [usize]) -> usize
    ensures holds { Holds out.old out.new numbers.now }
    ensures len { result ≡ length numbers.now }
{
    let count = numbers.len().min(out.len());
    out[..count].copy_from_slice(&numbers[..count]);
    numbers.len()
}
