//! The gotos: the most usual target of each nonterminal, and the explicit entries of all others.

ghost use Rattle.std.specs.Prelude.{ℕ, ◌≡◌, ◌<◌, ◌+◌, length, IfOk};
ghost use Rattle.ylalr.specs.Collection.{goto_in};
ghost use Rattle.ycode.specs.Cells.{AreSizes, states_of, tokens_of, symbols_of};
ghost use Rattle.ycode.specs.Combs.{AreAtMost};
ghost use Rattle.ycode.specs.Entries.{entry_at, EntriesAtMost};
ghost use Rattle.ycode.specs.Targets.{beside, gotos_over, usual_targets, goto_entries, AreTargets};

use crate::entry::{Entry, push_number};
use crate::sizes::Sizes;
use crate::usual::most_usual;
use std::alloc::{AllocError, Global};
use ybitsets::list::Sequence;
use ytables::Tables;

/// What the arrays have of the gotos of all states.
#[derive(Drop)]
pub struct Targets {
    /// The most usual target of each nonterminal.
    pub usual: Vec<usize>,
    /// The entries of each nonterminal, at the columns of states.
    pub rows: Vec<Sequence<Entry>>,
}

/// For each state its goto over a nonterminal, where it has one.
fn gotos_over(
    alloc: Global,
    tables: &Tables,
    sizes: &Sizes,
    x: usize,
) -> Result<Vec<Option<usize>>, AllocError>
    requires sizes { AreSizes tables.now sizes.now }
    requires nonterminal { tokens_of tables.now + x < symbols_of tables.now }
    ensures { IfOk result (λ v. v.items ≡ gotos_over tables.now x) }
{
    let mut gotos = Vec::with_capacity(alloc, sizes.states)?;
    for q in 0..sizes.states {
        gotos.push(tables.goto(q, sizes.tokens + x))?;
    }
    Ok(gotos)
}

/// The most usual target of each nonterminal, or 0 where it has no goto.
fn usual_targets(alloc: Global, tables: &Tables, sizes: &Sizes) -> Result<Vec<usize>, AllocError>
    requires sizes { AreSizes tables.now sizes.now }
    ensures len { IfOk result (λ v. tokens_of tables.now + length v.items ≡ symbols_of tables.now) }
    ensures most { IfOk result (λ v. AreAtMost (states_of tables.now) v.items) }
    ensures list { IfOk result (λ v. v.items ≡ usual_targets tables.now) }
{
    let nonterminals = sizes.symbols - sizes.tokens;
    let mut usual = Vec::with_capacity(alloc, nonterminals)?;
    for x in 0..nonterminals {
        let gotos = gotos_over(alloc, tables, sizes, x)?;
        usual.push(most_usual(alloc, &gotos, sizes.states)?)?;
    }
    Ok(usual)
}

/// The entry for a goto, where it has one beside this usual target.
fn beside(goto: Option<usize>, usual: usize) -> Option<usize>
    ensures { result ≡ beside usual goto }
{
    match goto {
        Some(n) => { if usual == n { None } else { Some(n) } }
        None => None,
    }
}

/// The entries of a nonterminal beside this usual target.
fn entries_of(
    alloc: Global,
    tables: &Tables,
    sizes: &Sizes,
    usual: usize,
    x: usize,
) -> Result<Sequence<Entry>, AllocError>
    requires sizes { AreSizes tables.now sizes.now }
    requires nonterminal { tokens_of tables.now + x < symbols_of tables.now }
    ensures entries { IfOk result (λ es. (q : ℕ) → q < states_of tables.now → entry_at es q
        ≡ beside usual (goto_in tables.now.built q (tokens_of tables.now + x))) }
    ensures most { IfOk result (EntriesAtMost (states_of tables.now)) }
    ensures list { IfOk result (λ es. es ≡ goto_entries tables.now usual x) }
{
    let mut entries = Sequence::new(alloc);
    for q in 0..sizes.states {
        let goto = tables.goto(q, sizes.tokens + x);
        push_number(&mut entries, q, beside(goto, usual))?;
    }
    Ok(entries)
}

/// The gotos over all nonterminals.
pub fn all_targets(alloc: Global, tables: &Tables, sizes: &Sizes) -> Result<Targets, AllocError>
    requires { AreSizes tables.now sizes.now }
    ensures { IfOk result (λ t. AreTargets tables.now (length t.usual.items) t.usual.items
        t.rows.items) }
{
    let usual = usual_targets(alloc, tables, sizes)?;
    let mut rows = Vec::with_capacity(alloc, usual.len())?;
    for x in 0..usual.len() {
        let entries = entries_of(alloc, tables, sizes, usual[x], x)?;
        rows.push(entries)?;
    }
    Ok(Targets { usual, rows })
}
