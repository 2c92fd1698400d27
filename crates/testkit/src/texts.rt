//! Long texts of a piece that repeats.

use std::alloc::{AllocError, Global};

/// A text: the head, a piece so many times, and the end after them. It fails only when memory
/// runs out.
pub fn repeated(
    alloc: Global,
    head: &[u8],
    piece: &[u8],
    times: usize,
    end: &[u8],
) -> Result<Vec<u8>, AllocError> {
    let mut text = Vec::from_slice(alloc, head)?;
    for _ in 0..times {
        text.extend_from_slice(piece)?;
    }
    text.extend_from_slice(end)?;
    Ok(text)
}
