//! Where packed rows go: each at the least displacement at which it meets no other.

use std::alloc::Global;
use std::test::Fail;
use ybitsets::packed::Packed;

/// A column that is filled, and one that is free.
const X: bool = true;

const O: bool = false;

/// The entry of a column that is filled, or free.
fn entry(filled: bool) -> Option<bool> {
    if filled { Some(true) } else { None }
}

/// Whether rows that are filled at these columns begin there.
fn begin_at(alloc: Global, rows: &[[bool; 3]], begins: &[usize]) -> Result<bool, Fail> {
    let mut packed: Packed<bool> = Packed::new(alloc, 3);
    for row in rows {
        if packed.width() != 3 {
            return Ok(false);
        }
        packed.push(alloc, &[entry(row[0]), entry(row[1]), entry(row[2])])?;
    }
    Ok(packed.displacements() == begins)
}

#[test]
fn rows_that_do_not_meet_begin_at_the_front(rt: HostRuntime) -> Result<(), Fail> {
    let rows = [[O, O, X], [O, O, O], [X, O, O]];
    assert!(rt; begin_at(rt.alloc(), &rows, &[0, 0, 0])?);
    Ok(())
}

#[test]
fn a_row_that_meets_another_begins_behind(rt: HostRuntime) -> Result<(), Fail> {
    let rows = [[O, O, X], [O, O, O], [X, O, X], [O, O, O]];
    assert!(rt; begin_at(rt.alloc(), &rows, &[0, 0, 1, 0])?);
    Ok(())
}

#[test]
fn a_row_fills_the_gap_of_another(rt: HostRuntime) -> Result<(), Fail> {
    let rows = [[X, O, X], [X, O, X], [O, X, O]];
    assert!(rt; begin_at(rt.alloc(), &rows, &[0, 1, 3])?);
    Ok(())
}
