//! The rules that are candidates in a cell, one after another.

ghost use Rattle.std.specs.Prelude.{ℕ, ◌≡◌, ◌<◌, ◌+◌, [], ◌∷◌, length, MatchOption};
ghost use Rattle.std.specs.Prelude.{slice_index_or};
ghost use Rattle.ylalr.specs.declared.items.Item.{Item};
ghost use Rattle.ylalr.specs.Collection.{Guide, IsGuide, bare_of, state_of};
ghost use Rattle.ytables.specs.Standing.{class_by};
ghost use Rattle.ytables.specs.Tables.{class_in, rules_by, ready_in};
ghost use Rattle.yprovenance.specs.Candidates.{standing_in, candidate_by, candidates_in, rules_of};
ghost use Rattle.yprovenance.specs.Candidates.{IsFurther};

use ysymbols::{Grammar, Sym};
use ytables::{Standing, Tables, is_ready, level_of, standing_between};

/// A rule that could be reduced in a cell.
#[derive(Clone, Copy, Debug, Drop, PartialEq, Eq)]
pub struct Candidate {
    /// Where its complete item stands among the items of the state.
    pub index: usize,
    /// The number of the rule.
    pub rule: usize,
    /// How the rule stands to the token.
    pub standing: Standing,
}

/// How a rule of the grammar stands to a token, below the number of tokens. The end has no
/// precedence. The class of this standing is the one by which cells are settled.
pub fn standing_in(grammar: &Grammar, t: Sym, rule: usize) -> Standing
    requires token { t < grammar.now.bare.tokens }
    requires rule { rule < length grammar.now.bare.rules }
    ensures value { result ≡ standing_in grammar.now t rule }
    ensures class { class_by result ≡ class_in grammar.now t rule }
{
    standing_between(level_of(grammar, t), grammar.rule(rule).precedence())
}

/// The candidate in the cell of state `q` and the token `t` that the item at `index` is: it is
/// complete, and has the token among its lookaheads. `None` where it is none. `q` is below the
/// number of states, `t` is a token, and `index` is below the number of items.
pub fn candidate_at(tables: &Tables, q: usize, t: Sym, index: usize) -> Option<Candidate>
    requires state { q < length tables.now.built.states }
    requires token { t < tables.now.built.grammar.bare.tokens }
    requires index { index < length (state_of tables.now.built q) }
    ensures { (u : Guide) → IsGuide tables.now.built u → (d : Item)
        → result ≡ candidate_by tables.now.built u q t index
        (slice_index_or (state_of tables.now.built q) index d) }
{
    let automaton = tables.automaton();
    let _guide = automaton.states();
    let grammar = automaton.grammar();
    let _well_formed = grammar.symbols();
    let item = automaton.items(q)[index];
    if !is_ready(grammar, item) || !automaton.looks(q, item, t) {
        return None;
    }
    Some(Candidate {
        index,
        rule: item.rule,
        standing: standing_in(grammar, t, item.rule),
    })
}

/// The first rule that is a candidate in the cell of state `q` and the token `t`, of those whose
/// items stand at `index` among the items of the state or after it; `None` where there is none.
/// Asked from 0 on, and then from after each answer, it gives the rules of the cell in their
/// order, each once. `q` is below the number of states, `t` is a token, and `index` is any number.
pub fn next_rule(tables: &Tables, q: usize, t: Sym, index: usize) -> Option<Candidate>
    requires state { q < length tables.now.built.states }
    requires token { t < tables.now.built.grammar.bare.tokens }
    ensures next { (u : Guide) → IsGuide tables.now.built u
        → MatchOption result (candidates_in tables.now.built u q t index ≡ [])
        (λ c. candidates_in tables.now.built u q t index
        ≡ c ∷ candidates_in tables.now.built u q t (c.index + 1)) }
    ensures further { MatchOption result (Unit {0}) (IsFurther tables.now.built q index) }
    ensures rules { (u : Guide) → rules_of (candidates_in tables.now.built u q t 0)
        ≡ rules_by (λ i. u.looks q i t)
        (ready_in (bare_of tables.now.built) (state_of tables.now.built q)) }
{
    let automaton = tables.automaton();
    let _guide = automaton.states();
    for at in index..automaton.items(q).len() {
        if let Some(candidate) = candidate_at(tables, q, t, at) {
            return Some(candidate);
        }
    }
    None
}
