//! The tables and the session of texts in memory.

ghost use Rattle.std.specs.Prelude.{IfOk, IfErr};
ghost use Rattle.ygenerate.specs.Sources.{AreTablesOf};
ghost use Rattle.ysession.specs.Session.{machine_of, history_of};
ghost use Rattle.ystepper.specs.Headline.{Begins};
ghost use Rattle.yembed.specs.Refusals.{LacksTables, Refuses};

use crate::refusal::Refusal;
use std::alloc::Global;
use ygenerate::source::tables_over;
use ysession::Session;
use ytables::Tables;
use ytokens::read_tokens;

/// The tables of the grammar that the bytes mean.
pub(crate) fn tables_of(alloc: Global, grammar: &[u8]) -> Result<Tables, Refusal>
    ensures tables { IfOk result (λ t. AreTablesOf grammar.now t) }
    ensures refused { IfErr result (LacksTables grammar.now) }
{
    match tables_over(alloc, grammar) {
        Ok(tables) => Ok(tables),
        Err(fault) => Err(Refusal::Source(fault)),
    }
}

/// A session at its start, over a grammar and tokens.
pub(crate) fn session_of(alloc: Global, grammar: &[u8], tokens: &[u8]) -> Result<Session, Refusal>
    ensures begins { IfOk result (λ s.
        Begins grammar.now tokens.now (machine_of s) (history_of s)) }
    ensures refused { IfErr result (Refuses grammar.now tokens.now) }
{
    let tables = match tables_over(alloc, grammar) {
        Ok(tables) => tables,
        Err(fault) => return Err(Refusal::Source(fault)),
    };
    match read_tokens(alloc, &tables, tokens) {
        Ok(tokens) => Ok(Session::new(alloc, tables, tokens)),
        Err(fault) => {
            drop(tables);
            Err(Refusal::Tokens(fault))
        }
    }
}
