//! What a parse reads in tables: names, rules, gotos and cells; and what it rests on.

ghost use Rattle.std.specs.Prelude.{ℕ, ◌≡◌, false, List};
ghost use Rattle.ysymbols.specs.WellFormed.{WellFormed};
ghost use Rattle.ylalr.specs.Collection.{Guide, HasStates, IsGuide};
ghost use Rattle.ytables.specs.Allowed.{CellsAllow};
ghost use Rattle.ytables.specs.Had.{CellsHave};
ghost use Rattle.ytables.specs.Tables.{AreTables};
ghost use Rattle.ytables.specs.Text.{name_of};
ghost use Rattle.ymachine.specs.Cells.{IsSound};
ghost use Rattle.ymachine.specs.Complete.{IsComplete};
ghost use Rattle.ymachine.specs.Headline.{IsMachineOf};
ghost use Rattle.ymachine.specs.History.{History};
ghost use Rattle.ymachine.specs.Machine.{Machine};
ghost use Rattle.ymachine.specs.MachineOver.{machine_over};
ghost use Rattle.ymachine.specs.Rightmost.{AreInput, UnwindsRight};
ghost use Rattle.ymachine.specs.Sound.{Sound};
ghost use Rattle.ymachine.specs.Tables.{rule_of, goto_at, cell_at};

use ysymbols::{Grammar, Sym};
use ytables::{Action, Tables};

/// The grammar of the tables.
pub fn grammar_of(tables: &Tables) -> &Grammar
    ensures { result.now ≡ tables.now.built.grammar }
{
    tables.automaton().grammar()
}

/// The printed name of a symbol; empty for a number that is no symbol.
pub(crate) fn name_of(grammar: &Grammar, symbol: Sym) -> &[u8]
    ensures { result.now ≡ name_of grammar.now symbol }
{
    if symbol < grammar.symbols() {
        grammar.name(symbol)
    } else {
        &[]
    }
}

/// The left side and the body of a rule; a number that is no rule has the left side 0 and no body.
pub fn rule_of(tables: &Tables, number: usize) -> (Sym, &[Sym])
    ensures left { result.0 ≡ (rule_of tables.now number).left }
    ensures body { result.1.now ≡ (rule_of tables.now number).body }
{
    let grammar = grammar_of(tables);
    if number < grammar.rules() {
        let rule = grammar.rule(number);
        (rule.left(), rule.body())
    } else {
        (0, &[])
    }
}

/// The state to which a symbol leads from a state; `None` for a number of no state or no symbol,
/// and where no item moves over the symbol.
pub fn goto(tables: &Tables, state: usize, symbol: Sym) -> Option<usize>
    ensures { result ≡ goto_at tables.now state symbol }
{
    let automaton = tables.automaton();
    if state < automaton.states() && symbol < automaton.grammar().symbols() {
        automaton.goto(state, symbol)
    } else {
        None
    }
}

/// What the cell of a state and a token says; an error for a number of no state or no token.
pub fn cell(tables: &Tables, state: usize, token: Sym) -> Action
    ensures { result ≡ cell_at tables.now state token }
{
    let automaton = tables.automaton();
    if state < automaton.states() && automaton.grammar().is_token(token) {
        tables.action(state, token)
    } else {
        Action::Error
    }
}

/// What tables, their automaton and their grammar promise.
fn promised(tables: &Tables)
    ensures grammar { WellFormed tables.now.built.grammar.bare }
    ensures states { HasStates tables.now.built }
    ensures guide { (u : Guide) × IsGuide tables.now.built u }
    ensures tables { AreTables tables.now }
    ensures allowed { CellsAllow tables.now }
    ensures have { tables.now.choice ≡ false → CellsHave tables.now }
{
    let _free = tables.choice_free();
    let automaton = tables.automaton();
    let _states = automaton.states();
    let _symbols = automaton.grammar().symbols();
}

/// This call does nothing. It says what a parse by tables rests on. The machine of the tables is
/// the one machine of their grammar. A cell says only what a valid item allows, so each shift has
/// its goto, and each reduction its body on the stack and its goto. Where no cell has a choice, it
/// says whatever a valid item allows. What is accepted without error steps unwinds to a rightmost
/// derivation (Aho, Sethi and Ullman, 4.7).
pub fn known(tables: &Tables)
    ensures grammar { WellFormed tables.now.built.grammar.bare }
    ensures machine { IsMachineOf tables.now.built.grammar (machine_over tables.now) }
    ensures only { (m : Machine) → IsMachineOf tables.now.built.grammar m
        → (stack : List ℕ) (token : ℕ)
        → m.cell stack token ≡ (machine_over tables.now).cell stack token }
    ensures cells { IsSound tables.now.built.grammar.bare (machine_over tables.now) }
    ensures complete { tables.now.choice ≡ false
        → IsComplete tables.now.built.grammar.bare (machine_over tables.now) }
    ensures sound { Sound tables.now }
    ensures unwinds { (tokens : List ℕ) (h : History)
        → AreInput tables.now.built.grammar.bare tokens
        → UnwindsRight tables.now.built.grammar.bare (machine_over tables.now) tokens h }
{
    promised(tables);
}
