//! The proved core as a library for C. Each call reads the bytes that it is given, and writes into
//! memory of its caller; but for the session behind a handle, nothing is kept.
//!
//! The answer is a status: 0 where all was handed over, and else that of a refusal: 1 where the
//! grammar is refused, 2 where the tokens are, 3 where memory runs out, 4 where there are too many
//! item sets. With a refusal nothing is handed over. A text that is longer than the memory given is
//! handed over by its beginning, with its whole length.
#![tactic(auto)]

ghost use Rattle.std.specs.Prelude.{◌≡◌, ◌≢◌};
ghost use Rattle.yembed.specs.Codes.{IsArray};
ghost use Rattle.yembed.specs.Faults.{Shows, ShowsNone};
ghost use Rattle.yembed.specs.Memory.{Hands, HandsNothing};
ghost use Rattle.yembed.specs.Refusals.{IsRefused, LacksTables, Refuses};
ghost use Rattle.yembed.specs.Sessions.{IsSession};
ghost use Rattle.yembed.specs.Texts.{IsReport, IsTable};
ghost use Rattle.yembed.specs.Verdicts.{AreTokens, IsJudged};

// What is found is handed over; or it is refused, and nothing is.
macro_rules! handed_over {
    ($found:expr, $len:ident, $whole:ident => { $($put:tt)* }) => {
        match $found {
            Ok($whole) => {
                $($put)*
                0
            }
            Err(refusal) => {
                *$len = 0;
                refusal.status()
            }
        }
    };
}

mod codes;
mod faults;
pub mod handles;
mod memory;
mod refusal;
mod sources;
mod texts;
mod verdicts;

use crate::codes::{Sizes, array_of, arrays_of, sizes_of};
use crate::faults::{Fault, no_fault, tokens_read};
use crate::memory::{put_bytes, put_numbers};
use crate::texts::{Conflicts, report_text, session_text, table_text};
use crate::verdicts::{Judged, judgement, tokens_of};
use std::alloc::Global;

/// A session: what it replies to command lines, from the start of a parse of these tokens by this
/// grammar, as the program `ystep` writes it.
#[unsafe(no_mangle)]
pub extern "C" fn sulderko_session(
    alloc: Global,
    grammar: &[u8],
    tokens: &[u8],
    commands: &[u8],
    out: &mut [u8],
    len: &mut usize,
) -> u32
    ensures answer { result ≡ 0 → Hands (IsSession grammar.now tokens.now commands.now) out.old
        out.new len.new }
    ensures refused { result ≢ 0 → IsRefused (Refuses grammar.now tokens.now) result }
    ensures nothing { result ≢ 0 → HandsNothing out.old out.new len.new }
{
    handed_over!(session_text(alloc, grammar, tokens, commands), len, text => {
        *len = put_bytes(&text, out);
    })
}

/// The table of a grammar, as the program `yacc` writes it, and its conflicts.
#[unsafe(no_mangle)]
pub extern "C" fn sulderko_table(
    alloc: Global,
    grammar: &[u8],
    out: &mut [u8],
    len: &mut usize,
    conflicts: &mut Conflicts,
) -> u32
    ensures answer { result ≡ 0 → Hands (IsTable grammar.now conflicts.new) out.old out.new
        len.new }
    ensures refused { result ≢ 0 → IsRefused (LacksTables grammar.now) result }
    ensures nothing { result ≢ 0 → HandsNothing out.old out.new len.new }
    ensures stays { result ≢ 0 → conflicts.new ≡ conflicts.old }
{
    handed_over!(table_text(alloc, grammar), len, written => {
        *len = put_bytes(&written.text, out);
        *conflicts = written.conflicts;
    })
}

/// The report on a grammar, as the program `yacc` writes it, and its conflicts.
#[unsafe(no_mangle)]
pub extern "C" fn sulderko_report(
    alloc: Global,
    grammar: &[u8],
    out: &mut [u8],
    len: &mut usize,
    conflicts: &mut Conflicts,
) -> u32
    ensures answer { result ≡ 0 → Hands (IsReport grammar.now conflicts.new) out.old out.new
        len.new }
    ensures refused { result ≢ 0 → IsRefused (LacksTables grammar.now) result }
    ensures nothing { result ≢ 0 → HandsNothing out.old out.new len.new }
    ensures stays { result ≢ 0 → conflicts.new ≡ conflicts.old }
{
    handed_over!(report_text(alloc, grammar), len, written => {
        *len = put_bytes(&written.text, out);
        *conflicts = written.conflicts;
    })
}

/// An array of the parser in C by the tables of a grammar, as the program `ycc` writes it, and the
/// numbers by which the arrays are read. There are 14 arrays, from 0 on; another number has an array
/// without numbers. The bytes of a grammar fix all of them, so all calls hand over arrays of one
/// parser.
#[unsafe(no_mangle)]
pub extern "C" fn sulderko_code(
    alloc: Global,
    grammar: &[u8],
    array: u32,
    out: &mut [usize],
    len: &mut usize,
    sizes: &mut Sizes,
) -> u32
    ensures answer { result ≡ 0 → Hands (IsArray grammar.now array sizes.new) out.old out.new
        len.new }
    ensures refused { result ≢ 0 → IsRefused (LacksTables grammar.now) result }
    ensures nothing { result ≢ 0 → HandsNothing out.old out.new len.new }
    ensures stays { result ≢ 0 → sizes.new ≡ sizes.old }
{
    handed_over!(arrays_of(alloc, grammar), len, code => {
        *len = put_numbers(array_of(&code, array), out);
        *sizes = sizes_of(&code);
    })
}

/// The numbers of the symbols that a text of tokens names, one after another, by the table of the
/// grammar. The token at index `i` has the place `i + 1` in faults and verdicts.
#[unsafe(no_mangle)]
pub extern "C" fn sulderko_tokens(
    alloc: Global,
    grammar: &[u8],
    tokens: &[u8],
    out: &mut [usize],
    len: &mut usize,
) -> u32
    ensures answer { result ≡ 0 → Hands (AreTokens grammar.now tokens.now) out.old out.new
        len.new }
    ensures refused { result ≢ 0 → IsRefused (Refuses grammar.now tokens.now) result }
    ensures nothing { result ≢ 0 → HandsNothing out.old out.new len.new }
{
    handed_over!(tokens_of(alloc, grammar, tokens), len, found => {
        *len = put_numbers(&found.symbols, out);
    })
}

/// The verdict on tokens: whether they are a sentence of the grammar.
#[unsafe(no_mangle)]
pub extern "C" fn sulderko_judge(
    alloc: Global,
    grammar: &[u8],
    tokens: &[u8],
    verdict: &mut Judged,
) -> u32
    ensures answer { result ≡ 0 → IsJudged grammar.now tokens.now verdict.new }
    ensures refused { result ≢ 0 → IsRefused (Refuses grammar.now tokens.now) result }
    ensures stays { result ≢ 0 → verdict.new ≡ verdict.old }
{
    match judgement(alloc, grammar, tokens) {
        Ok(judged) => {
            *verdict = judged;
            0
        }
        Err(refusal) => refusal.status(),
    }
}

/// The first fault of a grammar, or else of tokens by it, and where it stands. The status is 0 where
/// there is none.
#[unsafe(no_mangle)]
pub extern "C" fn sulderko_fault(
    alloc: Global,
    grammar: &[u8],
    tokens: &[u8],
    fault: &mut Fault,
) -> u32
    ensures none { result ≡ 0 → ShowsNone grammar.now tokens.now fault.new }
    ensures found { result ≢ 0 → Shows grammar.now tokens.now result fault.new }
{
    match tokens_read(alloc, grammar, tokens) {
        Ok(_) => {
            *fault = no_fault();
            0
        }
        Err(finding) => {
            *fault = finding.fault();
            finding.status()
        }
    }
}
