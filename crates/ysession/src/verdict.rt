//! The verdict on a list of tokens, by the steps of a parse without its trees and its past.

ghost use Rattle.std.specs.Prelude.{◌≡◌, false, IfOk};
ghost use Rattle.ymachine.specs.Headline.{IsMachineOf};
ghost use Rattle.ymachine.specs.MachineOver.{machine_over};
ghost use Rattle.ytokens.specs.Tokens.{Fits, symbols_of};
ghost use Rattle.ysession.specs.Judge.{ahead};
ghost use Rattle.ysession.specs.Sentences.{IsAnswered, IsExactOf, IsSoundOf};
ghost use Rattle.ysession.specs.Verdict.{IsVerdict};

use crate::states::act;
use std::alloc::{AllocError, AllocFailed, Global};
use thiserror::Error;
use ylalr::END;
use ymachine::tables::known;
use ysymbols::Sym;
use ytables::{Action, Tables};
use ytokens::tokens::Tokens;

/// The most steps that may stand.
pub(crate) const MOST_STEPS: usize = 1_000_000;

/// What the steps of a parse come to, from its first configuration on (Aho, Sethi and Ullman, 4.7,
/// the LR parsing algorithm). Tables and tokens have one verdict.
#[derive(Clone, Copy, Debug, PartialEq, Eq)]
pub enum Verdict {
    /// The tokens are accepted, and no error was detected before. This is the position of the
    /// accepted configuration, 2 to 1,000,000: how many tokens there are, how often a body was
    /// replaced by a left side, and one for the acceptance.
    Accepted(usize),
    /// An error is detected first with the token at this place ahead, counted from 1, or with the
    /// end ahead, whose place is one after the last token's.
    Rejected(usize),
    /// Neither: at position 1,000,000 the parse would go on.
    Limit,
}

/// Why there is no verdict.
#[derive(Clone, Copy, Debug, PartialEq, Eq, Error)]
pub enum JudgeFault {
    /// J1: memory ran out. It may come in place of any verdict.
    #[error("no memory")]
    Memory,
}

impl<T: Drop> From<AllocFailed<T>> for JudgeFault {
    fn from(_refused: AllocFailed<T>) -> JudgeFault {
        JudgeFault::Memory
    }
}

impl From<AllocError> for JudgeFault {
    fn from(_refused: AllocError) -> JudgeFault {
        JudgeFault::Memory
    }
}

/// The token ahead, or the end.
fn token_ahead(tokens: &[Sym], taken: usize) -> Sym
    ensures { result ≡ ahead tokens.now taken }
{
    tokens.get(taken).copied().unwrap_or(END)
}

/// What the steps from the first configuration on come to.
fn verdict_on(alloc: Global, tables: &Tables, tokens: &Tokens) -> Result<Verdict, JudgeFault>
    ensures { IfOk result (λ v. IsVerdict (machine_over tables.now) (symbols_of tokens.now) v) }
{
    let mut states = Vec::new(alloc);
    states.push(0)?;
    let mut taken = 0;
    for steps in 0..MOST_STEPS {
        match act(tables, &mut states, token_ahead(&tokens.symbols, taken))? {
            Action::Shift(_) => taken += 1,
            Action::Reduce(_) => {}
            Action::Accept => return Ok(Verdict::Accepted(steps + 1)),
            Action::Error => return Ok(Verdict::Rejected(taken + 1)),
        }
    }
    Ok(Verdict::Limit)
}

/// The verdict on the tokens by the tables: how the steps of a session over them would end, if it
/// stopped at the first acceptance, at the first error that is detected, or at position 1,000,000
/// (Aho, Sethi and Ullman, 4.7, the LR parsing algorithm).
///
/// The tokens were read for these tables, or fit them (`Tokens::fits`). Tables and tokens are
/// lent, so one pair of tables serves many lists of tokens. No past, no trees and no places are
/// kept: the only list that grows has a number for each symbol on the stack. The only fault is J1:
/// memory ran out.
///
/// ```
/// let grammar = b"%token NUM %% list : | list NUM ';' ;";
/// let tables = resolve(alloc, build(alloc, read_grammar(alloc, grammar)?)?)?;
/// let good = read_tokens(alloc, &tables, b"NUM ';'")?;
/// let bad = read_tokens(alloc, &tables, b"NUM NUM ';'")?;
/// assert_eq!(rt; judge(alloc, &tables, &good)?, Verdict::Accepted(5));
/// assert_eq!(rt; judge(alloc, &tables, &bad)?, Verdict::Rejected(2));
/// ```
pub fn judge(alloc: Global, tables: &Tables, tokens: &Tokens) -> Result<Verdict, JudgeFault>
    requires { Fits tables.now.built.grammar (symbols_of tokens.now) }
    // The machine of the tables is the one machine of their grammar.
    ensures machine { IsMachineOf tables.now.built.grammar (machine_over tables.now) }
    // The verdict is what its steps come to.
    ensures verdict { IfOk result (IsVerdict (machine_over tables.now) (symbols_of tokens.now)) }
    // By any tables, what is accepted is a sentence, and what stands before a rejected token
    // begins one.
    ensures sound { IfOk result
        (IsSoundOf tables.now.built.grammar.bare (symbols_of tokens.now)) }
    // Where no cell has a choice, a sentence is accepted, and no sentence goes on by a rejected
    // token.
    ensures complete { tables.now.choice ≡ false → IfOk result
        (IsAnswered tables.now.built.grammar.bare (symbols_of tokens.now)) }
    ensures exact { tables.now.choice ≡ false → IfOk result
        (IsExactOf tables.now.built.grammar.bare (symbols_of tokens.now)) }
{
    known(tables);
    verdict_on(alloc, tables, tokens)
}
