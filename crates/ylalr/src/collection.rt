//! All states of a grammar, and their gotos.

ghost use Rattle.std.specs.Prelude.{◌≡◌, ◌<◌, ◌+◌, length, IfOk, IfErr, OnOk};
ghost use Rattle.ylalr.specs.Gotos.{IsAscendingRow, IsRowBelow};
ghost use Rattle.ylalr.specs.States.{AddsOne, AreStates, Extends, Finds, IsFresh, HasKernel};
ghost use Rattle.ylalr.specs.States.{IsNumber, IsSorted, MayJoin, RowIs, AreCollected};
ghost use Rattle.ylalr.specs.Collection.{IsFault};
ghost use Rattle.ylalr.specs.Sets.{AreFirstRules, HasRules};
ghost use Rattle.ylalr.specs.Finder.{FitFinder};

use crate::buckets::Kernels;
use crate::closure::closure;
use crate::fault::BuildFault;
use crate::first_rules::first_rules;
use crate::gotos::{Goto, Gotos};
use crate::items::Item;
use crate::states::{MOST_STATES, States};
use std::alloc::{AllocError, Global};
use ybitsets::list::Sequence;
use ybitsets::rows::Rows;
use ysymbols::Grammar;

/// The states so far, and what finds more.
#[derive(Drop)]
pub struct Finder {
    /// For each symbol, the rules that it leads to.
    pub first_rules: Rows,
    /// A row of rules to work in.
    pub wanted: Rows,
    /// The states, each with its kernel and its items.
    pub states: States,
}

/// Adds the state of a new kernel.
fn join(
    alloc: Global,
    grammar: &Grammar,
    finder: &mut Finder,
    kernel: &[Item],
) -> Result<usize, BuildFault>
    requires fit { FitFinder grammar.now.bare finder.old }
    requires kernel { MayJoin grammar.now.bare kernel.now }
    requires fresh { IsFresh finder.old.states kernel.now }
    ensures fit { OnOk result (FitFinder grammar.now.bare finder.new) }
    ensures extends { OnOk result (Extends finder.old.states finder.new.states) }
    ensures found { IfOk result (λ n. HasKernel finder.new.states kernel.now n) }
    ensures next { IfOk result (λ n. n ≡ length finder.old.states.closures) }
    ensures more { OnOk result
        (length finder.new.states.closures ≡ length finder.old.states.closures + 1) }
    ensures fault { IfErr result (λ e. IsFault grammar.now.bare e) }
{
    let items = closure(
        alloc,
        grammar,
        &finder.first_rules,
        &mut finder.wanted,
        kernel,
    )?;
    let n = finder.states.count();
    if n >= MOST_STATES {
        return Err(BuildFault::TooManySets);
    }
    finder.states.push(alloc, kernel, items)?;
    Ok(n)
}

/// The number of the state with this kernel, which is added where it is new, or `None` for an
/// empty kernel.
fn number(
    alloc: Global,
    grammar: &Grammar,
    finder: &mut Finder,
    kernel: &[Item],
) -> Result<Option<usize>, BuildFault>
    requires fit { FitFinder grammar.now.bare finder.old }
    requires kernel { 0 < length kernel.now → MayJoin grammar.now.bare kernel.now }
    ensures fit { OnOk result (FitFinder grammar.now.bare finder.new) }
    ensures extends { OnOk result (Extends finder.old.states finder.new.states) }
    ensures found { IfOk result (λ o. IsNumber finder.new.states kernel.now o) }
    ensures adds { IfOk result (λ o. AddsOne finder.old.states o finder.new.states) }
    ensures fault { IfErr result (λ e. IsFault grammar.now.bare e) }
{
    if kernel.is_empty() {
        return Ok(None);
    }
    match finder.states.find(kernel) {
        Some(n) => Ok(Some(n)),
        None => {
            let n = join(alloc, grammar, finder, kernel)?;
            Ok(Some(n))
        }
    }
}

/// The gotos of state `q`, with the states to which they lead. `kernels` is room to work in.
fn gotos_of(
    alloc: Global,
    grammar: &Grammar,
    kernels: &mut Kernels,
    finder: &mut Finder,
    q: usize,
) -> Result<Sequence<Goto>, BuildFault>
    requires fit { FitFinder grammar.now.bare finder.old }
    requires sorted { IsSorted grammar.now.bare.symbols kernels.old }
    requires state { q < length finder.old.states.closures }
    ensures fit { OnOk result (FitFinder grammar.now.bare finder.new) }
    ensures sorted { OnOk result (IsSorted grammar.now.bare.symbols kernels.new) }
    ensures extends { OnOk result (Extends finder.old.states finder.new.states) }
    ensures row { IfOk result (λ row. RowIs grammar.now.bare finder.new.states q row) }
    ensures order { IfOk result (λ row. IsAscendingRow row) }
    ensures symbols { IfOk result (λ row. IsRowBelow grammar.now.bare.symbols row) }
    ensures finds { IfOk result (λ row. Finds row (length finder.old.states.closures)
        (length finder.new.states.closures)) }
    ensures fault { IfErr result (λ e. IsFault grammar.now.bare e) }
{
    kernels.fill(grammar, finder.states.items(q))?;
    let mut row = Sequence::new(alloc);
    let symbols = grammar.symbols();
    let mut x = 0;
    while x < symbols {
        if let Some(n) = number(alloc, grammar, finder, kernels.list(x).as_slice())? {
            row.push(Goto {
                symbol: x,
                state: n,
            })?;
            x += 1;
        } else {
            x = kernels.after(x);
        }
    }
    Ok(row)
}

/// The first state alone: the core of the empty prefix.
fn first_state(
    alloc: Global,
    grammar: &Grammar,
    first_rules: &Rows,
    wanted: &mut Rows,
) -> Result<States, AllocError>
    requires first_rules { AreFirstRules grammar.now.bare first_rules.now }
    requires wanted { HasRules grammar.now.bare 1 wanted.old }
    ensures wanted { OnOk result (HasRules grammar.now.bare 1 wanted.new) }
    ensures states { IfOk result (λ s. AreStates grammar.now.bare s) }
    ensures one { IfOk result (λ s. length s.closures ≡ 1) }
{
    let _well_formed = grammar.symbols();
    let start = [Item { rule: 0, dot: 0 }];
    let items = closure(alloc, grammar, first_rules, wanted, &start)?;
    let mut states = States::new(alloc);
    states.push(alloc, &start, items)?;
    Ok(states)
}

/// What finds states, with the first state.
fn start_finder(alloc: Global, grammar: &Grammar) -> Result<Finder, AllocError>
    ensures fit { IfOk result (λ f. FitFinder grammar.now.bare f) }
    ensures one { IfOk result (λ f. length f.states.closures ≡ 1) }
{
    let _well_formed = grammar.symbols();
    let first_rules = first_rules(alloc, grammar)?;
    let mut wanted = Rows::new(alloc, 1, grammar.rules())?;
    let states = first_state(alloc, grammar, &first_rules, &mut wanted)?;
    Ok(Finder {
        first_rules,
        wanted,
        states,
    })
}

/// All states of the grammar, and the gotos of each. States are taken by number, and for each the
/// symbols by number; a kernel that is new gets the next number. The fault is B1 where there are
/// more than 16,384 states, or B2 when memory runs out.
pub fn all_states(alloc: Global, grammar: &Grammar) -> Result<(States, Gotos), BuildFault>
    ensures collected { IfOk result (λ r. AreCollected grammar.now.bare r.0 r.1) }
    ensures fault { IfErr result (λ e. IsFault grammar.now.bare e) }
{
    let mut finder = start_finder(alloc, grammar)?;
    let mut kernels = Kernels::new(alloc, grammar.symbols())?;
    let mut gotos = Gotos::new(alloc);
    while gotos.count() < finder.states.count() {
        let row = gotos_of(alloc, grammar, &mut kernels, &mut finder, gotos.count())?;
        gotos.push(row)?;
    }
    Ok((finder.states, gotos))
}
