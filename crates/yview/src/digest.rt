//! The digest of a table: the CRC-32 of its bytes, as gzip and zip have it.

use std::alloc::{AllocError, Global};
use ytables::{Link, Tables};

/// The polynomial, its lowest power first.
const POLYNOMIAL: u32 = 0xedb8_8320;

/// The digest, a CRC-32, of the table that `yacc` writes for these tables.
pub fn digest_of(alloc: Global, tables: &Tables) -> Result<u32, AllocError> {
    let mut link = Link::new(Vec::new(alloc));
    if tables.write_table(&mut link).is_err() {
        return Err(AllocError);
    }
    let table = link.into_inner();
    let mut rest = u32::MAX;
    for byte in &table {
        rest = rest ^ u32::from(*byte);
        for _ in 0..8 {
            rest = if rest & 1 == 1 {
                (rest >> 1) ^ POLYNOMIAL
            } else {
                rest >> 1
            };
        }
    }
    Ok(!rest)
}
