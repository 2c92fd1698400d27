//! The tokens of a text, and the verdict on them.

ghost use Rattle.std.specs.Prelude.{◌≡◌, IfOk, IfErr, if◌then◌else◌};
ghost use Rattle.ytokens.specs.Tokens.{symbols_of};
ghost use Rattle.yembed.specs.Refusals.{Refuses};
ghost use Rattle.yembed.specs.Verdicts.{AreTokens, IsJudged, Tells};

use crate::refusal::Refusal;
use crate::sources::tables_of;
use std::alloc::Global;
use ysession::{Verdict, judge};
use ytokens::{Tokens, read_tokens};

/// The verdict on tokens.
#[repr(C)]
#[derive(Clone, Copy)]
pub struct Judged {
    /// 1 where the tokens are accepted, 2 where they are rejected, 3 at the limit of steps.
    pub outcome: u32,
    /// 1 where no cell of the tables has a choice, so that the verdict is exact; else 0.
    pub exact: u32,
    /// How many steps the accepted parse takes, 2 to 1,000,000; else 0.
    pub steps: usize,
    /// The place of the rejected token, counted from 1; that of the end is one more than there are
    /// tokens. 0 where no token is rejected.
    pub token: usize,
}

/// The tokens that a text means.
pub(crate) fn tokens_of(alloc: Global, grammar: &[u8], text: &[u8]) -> Result<Tokens, Refusal>
    ensures tokens { IfOk result (λ found. AreTokens grammar.now text.now (symbols_of found)) }
    ensures refused { IfErr result (Refuses grammar.now text.now) }
{
    let tables = match tables_of(alloc, grammar) {
        Ok(tables) => tables,
        Err(refusal) => return Err(refusal),
    };
    let found = read_tokens(alloc, &tables, text);
    drop(tables);
    match found {
        Ok(tokens) => Ok(tokens),
        Err(fault) => Err(Refusal::Tokens(fault)),
    }
}

/// A verdict in the form in which it is handed over.
fn told(verdict: Verdict, choice_free: bool) -> Judged
    ensures told { Tells verdict result.outcome result.steps result.token }
    ensures exact { result.exact ≡ (if choice_free then 1 else 0) }
{
    let exact = u32::from(choice_free);
    let (outcome, steps, token) = match verdict {
        Verdict::Accepted(steps) => (1, steps, 0),
        Verdict::Rejected(token) => (2, 0, token),
        Verdict::Limit => (3, 0, 0),
    };
    Judged {
        outcome,
        exact,
        steps,
        token,
    }
}

/// The verdict on the tokens of a text.
pub(crate) fn judgement(alloc: Global, grammar: &[u8], text: &[u8]) -> Result<Judged, Refusal>
    ensures judged { IfOk result (IsJudged grammar.now text.now) }
    ensures refused { IfErr result (Refuses grammar.now text.now) }
{
    let tables = match tables_of(alloc, grammar) {
        Ok(tables) => tables,
        Err(refusal) => return Err(refusal),
    };
    let tokens = match read_tokens(alloc, &tables, text) {
        Ok(tokens) => tokens,
        Err(fault) => {
            drop(tables);
            return Err(Refusal::Tokens(fault));
        }
    };
    let verdict = judge(alloc, &tables, &tokens);
    let choice_free = tables.choice_free();
    drop(tokens);
    drop(tables);
    match verdict {
        Ok(verdict) => Ok(told(verdict, choice_free)),
        Err(_) => Err(Refusal::NoRoom),
    }
}
