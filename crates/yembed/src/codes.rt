//! The arrays of a parser in C.

ghost use Rattle.std.specs.Prelude.{◌≡◌, IfOk, IfErr};
ghost use Rattle.yembed.specs.Codes.{HasSizes, IsArrayOf, IsCodeOf, IsOnlyCode};
ghost use Rattle.yembed.specs.Refusals.{LacksTables};

use crate::refusal::Refusal;
use crate::sources::tables_of;
use std::alloc::Global;
use ycode::{Code, Policy, code_of};

/// The numbers by which the arrays of a parser are read.
#[repr(C)]
#[derive(Clone, Copy)]
pub struct Sizes {
    /// How many states there are.
    pub states: usize,
    /// How many rules there are.
    pub rules: usize,
    /// How many tokens there are: also the number of what is no token.
    pub tokens: usize,
    /// How many bytes a set of tokens has.
    pub span: usize,
}

/// The arrays of the parser of a grammar, without default reductions but of consistent states.
pub(crate) fn arrays_of(alloc: Global, grammar: &[u8]) -> Result<Code, Refusal>
    ensures code { IfOk result (IsCodeOf grammar.now) }
    ensures only { IfOk result (IsOnlyCode grammar.now) }
    ensures refused { IfErr result (LacksTables grammar.now) }
{
    let tables = match tables_of(alloc, grammar) {
        Ok(tables) => tables,
        Err(refusal) => return Err(refusal),
    };
    let made = code_of(alloc, &tables, Policy::Consistent);
    drop(tables);
    match made {
        Ok(code) => Ok(code),
        Err(_) => Err(Refusal::NoRoom),
    }
}

/// One of the arrays; one without numbers where there is none of this number.
pub(crate) fn array_of(code: &Code, array: u32) -> &[usize]
    ensures { IsArrayOf code.now array result.now }
{
    match array {
        0 => code.actions.rows.as_slice(),
        1 => code.actions.checks.as_slice(),
        2 => code.actions.values.as_slice(),
        3 => code.usual.as_slice(),
        4 => code.sets.as_slice(),
        5 => code.bits.as_slice(),
        6 => code.gotos.rows.as_slice(),
        7 => code.gotos.checks.as_slice(),
        8 => code.gotos.values.as_slice(),
        9 => code.targets.as_slice(),
        10 => code.symbols.as_slice(),
        11 => code.lengths.as_slice(),
        12 => code.lefts.as_slice(),
        13 => code.numbers.as_slice(),
        _ => &[],
    }
}

/// The numbers by which the arrays are read.
pub(crate) fn sizes_of(code: &Code) -> Sizes
    ensures { HasSizes code.now result }
{
    Sizes {
        states: code.states,
        rules: code.rules,
        tokens: code.tokens,
        span: code.span,
    }
}
