//! How what stands after a left side begins.

ghost use Rattle.std.specs.Prelude.{ℕ, ◌≡◌, ◌<◌, ◌⊎◌, ◌∷◌, List, length, drop, All};
ghost use Rattle.ysymbols.specs.Grammar.{left_of, body_of};
ghost use Rattle.ylalr.specs.Collection.{bare_of};
ghost use Rattle.yprovenance.specs.Front.{IsFront};
ghost use Rattle.yprovenance.specs.declared.front.Front.TheVariants.{Neither};

use ylalr::{Automaton, Item};
use ysymbols::Sym;

/// How a form begins, seen from one token.
#[derive(Clone, Copy, Debug, Drop, PartialEq, Eq)]
pub enum Front {
    /// It can begin with the token.
    Begins,
    /// It can't, and it is nullable.
    Vanishes,
    /// Neither.
    Neither,
}

/// How a form begins.
pub fn front_of(automaton: &Automaton, form: &[Sym], token: Sym) -> Front
    requires symbols { All (λ s. s < (bare_of automaton.now).symbols) form.now }
    requires token { token < (bare_of automaton.now).symbols }
    ensures { IsFront (bare_of automaton.now) form.now token result }
{
    for s in form {
        if automaton.in_first(*s, token) {
            return Front::Begins;
        }
        if !automaton.nullable(*s) {
            return Front::Neither;
        }
    }
    Front::Vanishes
}

/// How what stands after the left side of a rule begins, in an item that has its dot before this
/// left side; `Neither` for any other item.
pub fn front_after(automaton: &Automaton, rule: usize, item: Item, token: Sym) -> Front
    requires rule { rule < length (bare_of automaton.now).rules }
    requires item { item.rule < length (bare_of automaton.now).rules }
    requires token { token < (bare_of automaton.now).symbols }
    ensures next { (result ≡ Neither) ⊎ ((y : List ℕ) ×
        (drop item.dot (body_of (bare_of automaton.now) item.rule)
        ≡ left_of (bare_of automaton.now) rule ∷ y)) }
    ensures front { (y : List ℕ) → drop item.dot (body_of (bare_of automaton.now) item.rule)
        ≡ left_of (bare_of automaton.now) rule ∷ y → IsFront (bare_of automaton.now) y token result }
{
    let grammar = automaton.grammar();
    let _well_formed = grammar.symbols();
    let body = grammar.rule(item.rule).body();
    if item.dot < body.len() && body[item.dot] == grammar.rule(rule).left() {
        front_of(automaton, &body[item.dot + 1..], token)
    } else {
        Front::Neither
    }
}
