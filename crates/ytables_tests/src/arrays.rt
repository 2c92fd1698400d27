//! The arrays of grammars, by the numbers of states, symbols and rules.

use crate::made::tables_of;
use std::alloc::Global;
use std::test::Fail;
use testkit::worked::ONE;
use ycode::{Code, Comb, Numbers, Policy, code_of};

/// The arrays of a grammar text. An error is any fault of it, or memory ran out.
fn arrays(alloc: Global, grammar: &[u8]) -> Result<Code, Fail> {
    let tables = tables_of(alloc, grammar)?;
    Ok(code_of(alloc, &tables, Policy::Consistent)?)
}

/// Whether an array has these numbers.
fn are(numbers: &Numbers, wanted: &[usize]) -> bool {
    numbers.as_slice() == wanted
}

/// The number at an index, where the array has it.
fn number(numbers: &Numbers, at: usize) -> Option<usize> {
    numbers.as_slice().get(at).copied()
}

/// What row `q` of a comb has at a column.
fn held(comb: &Comb, q: usize, t: usize) -> Option<usize> {
    let at = number(&comb.rows, q)?.saturating_add(t);
    if number(&comb.checks, at) == Some(t) {
        number(&comb.values, at)
    } else {
        None
    }
}

// State 0 shifts 'x' (token 2) to state 1, which is consistent; state 2 accepts at the end. With
// three states, 3 is the acceptance; with three tokens, rows have four columns, and 4 is the check
// of a free cell. The row of state 2 is put first, at 0; that of state 0 at 1, where its column 2
// is place 3; the empty row at 2, with room up to place 5. The only goto is the usual one, so the rows
// of both nonterminals are empty, with a column for each state.
#[test]
fn arrays_of_one_token(rt: HostRuntime) -> Result<(), Fail> {
    let code = arrays(rt.alloc(), ONE)?;
    assert_eq!(rt;
        (code.states, code.rules, code.tokens, code.span),
        (3, 2, 3, 1)
    );
    assert!(rt; are(&code.actions.rows, &[1, 2, 0]));
    assert!(rt; are(&code.actions.checks, &[0, 4, 4, 2, 4, 4]));
    assert!(rt; are(&code.actions.values, &[3, 0, 0, 1, 0, 0]));
    assert!(rt; are(&code.usual, &[0, 1, 0]));
    assert!(rt; are(&code.sets, &[1, 0, 1]));
    assert!(rt; are(&code.bits, &[15, 0]));
    assert!(rt; are(&code.gotos.rows, &[0, 0]));
    assert!(rt; are(&code.gotos.checks, &[3, 3, 3]));
    assert!(rt; are(&code.targets, &[0, 2]));
    assert!(rt; are(&code.lengths, &[2, 1]));
    assert!(rt; are(&code.lefts, &[0, 1]));
    Ok(())
}

// 'x' is 120 and `error` 256.
#[test]
fn numbers_of_tokens(rt: HostRuntime) -> Result<(), Fail> {
    let code = arrays(rt.alloc(), ONE)?;
    assert_eq!(rt; code.numbers.as_slice().len(), 257);
    assert_eq!(rt; code.numbers.greatest(), 3);
    let wanted = [(0, 0), (1, 3), (119, 3), (120, 2), (121, 3), (256, 1)];
    for (n, token) in wanted {
        assert_eq!(rt; number(&code.numbers, n), Some(token));
    }
    Ok(())
}

// Before the parenthesis and after it the same tokens can be shifted, to the same states.
#[test]
fn equal_rows_begin_at_one_place(rt: HostRuntime) -> Result<(), Fail> {
    let code = arrays(rt.alloc(), b"%% s : '(' s ')' | 'x' ;")?;
    let rows = code.actions.rows.as_slice();
    assert_eq!(rt; rows.first(), rows.get(1));
    assert!(rt; rows.first() != rows.get(2));
    Ok(())
}

// After `e '<' e`, state 4, a further '<', token 3, is an error; the number of an error is that of
// states and rules together. The end has the usual reduction, and no number.
#[test]
fn errors_of_nonassoc_are_told_apart(rt: HostRuntime) -> Result<(), Fail> {
    let grammar = b"%token NUM %nonassoc '<' %% e : e '<' e | NUM ;";
    let code = arrays(rt.alloc(), grammar)?;
    assert_eq!(rt; (code.states, code.rules), (5, 3));
    assert_eq!(rt; held(&code.actions, 4, 3), Some(8));
    assert_eq!(rt; held(&code.actions, 4, 0), None);
    assert_eq!(rt; number(&code.usual, 4), Some(1));
    Ok(())
}
