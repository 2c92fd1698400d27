//! How many states, tokens, symbols and rules tables have.

ghost use Rattle.ycode.specs.Cells.{AreSizes};

use ylalr::token_count;
use ytables::Tables;

/// How many there are.
#[derive(Drop)]
pub struct Sizes {
    /// The states.
    pub states: usize,
    /// The tokens, which are the first symbols.
    pub tokens: usize,
    /// The symbols.
    pub symbols: usize,
    /// The rules, with `$accept : S $end`.
    pub rules: usize,
}

/// The sizes of tables. This call also says that no action and no goto is beyond them.
pub fn sizes_of(tables: &Tables) -> Sizes
    ensures { AreSizes tables.now result }
{
    let automaton = tables.automaton();
    let grammar = automaton.grammar();
    Sizes {
        states: automaton.states(),
        tokens: token_count(grammar),
        symbols: grammar.symbols(),
        rules: grammar.rules(),
    }
}
