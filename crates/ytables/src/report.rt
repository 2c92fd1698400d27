//! The text of the report.

ghost use Rattle.std.specs.Prelude.{◌≡◌, ◌<◌, ◌≤◌, ◌++◌, All, codes, is_some};
ghost use Rattle.std.specs.Prelude.{is_ok, is_err, length, IfErr, slice_index_or};
ghost use Rattle.ysymbols.specs.Grammar.{body_of};
ghost use Rattle.ylalr.specs.Collection.{Guide, IsGuide, goto_in, state_of};
ghost use Rattle.ytables.specs.declared.fault.TableFault.{TableFault};
ghost use Rattle.ylink.specs.Link.{device_of, has_failed};
ghost use Rattle.ylink.specs.Sends.{Sends, Grows};
ghost use Rattle.ytables.specs.Tables.{action_at, default_at};
ghost use Rattle.ytables.specs.Text.{count_line, name_of, spaced_names};
ghost use Rattle.ytables.specs.Report.{rule_head, rule_text, unreachable_line};
ghost use Rattle.ytables.specs.Report.{token_line, looks_text, on_text, StandsAt};
ghost use Rattle.ytables.specs.Report.{item_front, item_back, item_text_at, line_for, action_line};
ghost use Rattle.ytables.specs.Report.{goto_line, conflict_text_at, conflicts_text};
ghost use Rattle.ytables.specs.Report.{rule_or_actions};
ghost use Rattle.ytables.specs.Report.{cells_text, state_text, counts_text};
ghost use Rattle.ytables.specs.Report.{tokens_part, report_of};

use crate::cell::{Action, Conflict};
use crate::fault::TableFault;
use crate::tables::Tables;
use std::io::Write;
use ylalr::{Item, token_count};
use ylink::lines::{Lines, put_lines, put_list};
use ylink::link::Link;
use ylink::pieces::Piece::{Number, Words};
use ylink::pieces::{END, put_pieces};
use ylink::put::put;
use ysymbols::{Grammar, Sym};

/// A name after a space.
fn put_name<W: Write>(link: &mut Link<W>, grammar: &Grammar, s: Sym) -> Option<()>
    requires { s < grammar.now.bare.symbols }
    ensures { Sends W.contents link.old link.new (is_some result)
        (codes " " ++ name_of grammar.now s) }
{
    put_pieces(link, &[Words(b" "), Words(grammar.name(s))])
}

/// Each name after a space.
fn put_names<W: Write>(link: &mut Link<W>, grammar: &Grammar, symbols: &[Sym]) -> Option<()>
    requires { All (λ s. s < grammar.now.bare.symbols) symbols.now }
    ensures { Sends W.contents link.old link.new (is_some result)
        (spaced_names (name_of grammar.now) symbols.now) }
{
    for s in symbols {
        put_name(link, grammar, *s)?;
    }
    Some(())
}

/// The number of a rule, its left side, and words.
fn put_rule_head<'a, W: Write>(
    link: &mut Link<W>,
    grammar: &'a Grammar,
    r: usize,
    words: &'a [u8],
) -> Option<()>
    requires { r < length grammar.now.bare.rules }
    ensures { Sends W.contents link.old link.new (is_some result)
        (rule_head grammar.now r words.now) }
{
    let _well_formed = grammar.symbols();
    let left = Words(grammar.name(grammar.rule(r).left()));
    put_pieces(link, &[Number(r), Words(b" "), left, Words(words)])
}

/// The lines of the rules.
#[derive(Drop)]
struct Rules<'a>(&'a Grammar);

impl Lines for Rules<'_> {
    ghost has = { λ it r. r < length it.0.now.bare.rules };

    ghost line = { λ it _ r. rule_text it.0.now r };

    fn put_line<W: Write>(&self, link: &mut Link<W>, r: usize) -> Option<()> {
        let Rules(grammar) = *self;
        let _well_formed = grammar.symbols();
        put_rule_head(link, grammar, r, b":")?;
        put_names(link, grammar, grammar.rule(r).body())?;
        put(link, b"\n")
    }
}

/// The lines of the rules whose left side can't be reached; nothing for another rule.
#[derive(Drop)]
struct Unreachable<'a>(&'a Grammar);

impl Lines for Unreachable<'_> {
    ghost has = { λ it r. r < length it.0.now.bare.rules };

    ghost line = { λ it _ r. unreachable_line it.0.now r };

    fn put_line<W: Write>(&self, link: &mut Link<W>, r: usize) -> Option<()> {
        let Unreachable(grammar) = *self;
        let _well_formed = grammar.symbols();
        if grammar.reachable(grammar.rule(r).left()) {
            Some(())
        } else {
            put_rule_head(link, grammar, r, b"\n")
        }
    }
}

/// The lines of the tokens.
#[derive(Drop)]
struct Tokens<'a>(&'a Grammar);

impl Lines for Tokens<'_> {
    ghost has = { λ it t. t < it.0.now.bare.tokens };

    ghost line = { λ it _ t. token_line it.0.now t };

    fn put_line<W: Write>(&self, link: &mut Link<W>, t: usize) -> Option<()> {
        let Tokens(grammar) = *self;
        let _well_formed = grammar.symbols();
        let number = grammar.number(t).unwrap_or(0) as usize;
        let name = Words(grammar.name(t));
        put_pieces(link, &[Number(number), Words(b" "), name, END])
    }
}

/// The lookaheads of the item at `index`, each after a space.
fn put_looks<W: Write>(link: &mut Link<W>, tables: &Tables, q: usize, index: usize) -> Option<()>
    requires state { q < length tables.now.built.states }
    requires index { index < length (state_of tables.now.built q) }
    ensures { (u : Guide) → IsGuide tables.now.built u
        → (d : Item) → Sends W.contents link.old link.new (is_some result)
        (looks_text tables.now u q (slice_index_or (state_of tables.now.built q) index d)) }
{
    let automaton = tables.automaton();
    let grammar = automaton.grammar();
    let _well_formed = grammar.symbols();
    let tokens = token_count(grammar);
    let mut t = automaton.next_look(q, index, 0);
    while t < tokens {
        put_name(link, grammar, t)?;
        t = automaton.next_look(q, index, t + 1);
    }
    Some(())
}

/// What follows an item: for a complete one its lookaheads.
fn put_on<W: Write>(
    link: &mut Link<W>,
    tables: &Tables,
    q: usize,
    index: usize,
    item: Item,
) -> Option<()>
    requires state { q < length tables.now.built.states }
    requires here { StandsAt tables.now q index item }
    requires rule { item.rule < length tables.now.built.grammar.bare.rules }
    ensures { (u : Guide) → IsGuide tables.now.built u
        → Sends W.contents link.old link.new (is_some result) (on_text tables.now u q item) }
{
    if item.dot < tables.grammar().rule(item.rule).body().len() {
        return Some(());
    }
    put(link, b" on")?;
    put_looks(link, tables, q, index)
}

/// An item up to its dot.
fn put_front<W: Write>(link: &mut Link<W>, grammar: &Grammar, item: Item) -> Option<()>
    requires rule { item.rule < length grammar.now.bare.rules }
    requires dot { item.dot ≤ length (body_of grammar.now.bare item.rule) }
    ensures { Sends W.contents link.old link.new (is_some result) (item_front grammar.now item) }
{
    let _well_formed = grammar.symbols();
    let rule = grammar.rule(item.rule);
    let left = Words(grammar.name(rule.left()));
    put_pieces(link, &[Words(b"  "), left, Words(b":")])?;
    put_names(link, grammar, &rule.body()[..item.dot])?;
    put(link, b" .")
}

/// The rest of an item's line.
fn put_back<W: Write>(
    link: &mut Link<W>,
    tables: &Tables,
    q: usize,
    index: usize,
    item: Item,
) -> Option<()>
    requires state { q < length tables.now.built.states }
    requires here { StandsAt tables.now q index item }
    requires rule { item.rule < length tables.now.built.grammar.bare.rules }
    requires dot { item.dot ≤ length (body_of tables.now.built.grammar.bare item.rule) }
    ensures { (u : Guide) → IsGuide tables.now.built u
        → Sends W.contents link.old link.new (is_some result) (item_back tables.now u q item) }
{
    let grammar = tables.grammar();
    let _well_formed = grammar.symbols();
    put_names(link, grammar, &grammar.rule(item.rule).body()[item.dot..])?;
    put_on(link, tables, q, index, item)?;
    put(link, b"\n")
}

/// The lines of the items of a state.
#[derive(Drop)]
struct Items<'a>(&'a Tables, usize);

impl Lines for Items<'_> {
    ghost Context = { λ it. (u : Guide) × IsGuide it.0.now.built u };

    ghost has = { λ it k. (it.1 < length it.0.now.built.states)
        × (k < length (state_of it.0.now.built it.1)) };

    ghost line = { λ it u k. item_text_at it.0.now u.0 it.1 k };

    fn put_line<W: Write>(&self, link: &mut Link<W>, k: usize) -> Option<()> {
        let Items(tables, q) = *self;
        let automaton = tables.automaton();
        let _guide = automaton.states();
        let item = automaton.items(q)[k];
        put_front(link, automaton.grammar(), item)?;
        put_back(link, tables, q, k, item)
    }
}

/// A symbol, words, a number and a newline.
fn put_for<'a, W: Write>(
    link: &mut Link<W>,
    grammar: &'a Grammar,
    s: Sym,
    words: &'a [u8],
    number: usize,
) -> Option<()>
    requires { s < grammar.now.bare.symbols }
    ensures { Sends W.contents link.old link.new (is_some result)
        (line_for grammar.now s (count_line words.now number)) }
{
    let name = Words(grammar.name(s));
    put_pieces(
        link,
        &[Words(b"  "), name, Words(words), Number(number), END],
    )
}

/// The line of an action; nothing for an error.
fn put_action<W: Write>(link: &mut Link<W>, grammar: &Grammar, t: Sym, action: Action) -> Option<()>
    requires { t < grammar.now.bare.symbols }
    ensures { Sends W.contents link.old link.new (is_some result)
        (action_line grammar.now t action) }
{
    match action {
        Action::Shift(n) => put_for(link, grammar, t, b" shift ", n),
        Action::Reduce(r) => put_for(link, grammar, t, b" reduce ", r),
        Action::Accept => {
            let name = Words(grammar.name(t));
            put_pieces(link, &[Words(b"  "), name, Words(b" accept\n")])
        }
        Action::Error => Some(()),
    }
}

/// The lines of the actions of a state.
#[derive(Drop)]
struct Actions<'a>(&'a Tables, usize);

impl Lines for Actions<'_> {
    ghost has = { λ it t. (it.1 < length it.0.now.built.states)
        × (t < it.0.now.built.grammar.bare.tokens) };

    ghost line = { λ it _ t. action_line it.0.now.built.grammar t (action_at it.0.now it.1 t) };

    fn put_line<W: Write>(&self, link: &mut Link<W>, t: usize) -> Option<()> {
        let Actions(tables, q) = *self;
        let grammar = tables.grammar();
        let _well_formed = grammar.symbols();
        put_action(link, grammar, t, tables.action(q, t))
    }
}

/// The default rule of a consistent state, or the actions.
fn put_rule_or_actions<W: Write>(link: &mut Link<W>, tables: &Tables, q: usize) -> Option<()>
    requires { q < length tables.now.built.states }
    ensures { Sends W.contents link.old link.new (is_some result) (rule_or_actions tables.now q
        (default_at tables.now q)) }
{
    match tables.default_rule(q) {
        Some(rule) => put_pieces(link, &[Words(b"  . reduce "), Number(rule), END]),
        None => put_lines(link, &Actions(tables, q), 0, token_count(tables.grammar())),
    }
}

/// The line of a goto, where there is one.
fn put_goto<W: Write>(
    link: &mut Link<W>,
    grammar: &Grammar,
    x: Sym,
    to: Option<usize>,
) -> Option<()>
    requires { x < grammar.now.bare.symbols }
    ensures { Sends W.contents link.old link.new (is_some result) (goto_line grammar.now x to) }
{
    match to {
        Some(n) => put_for(link, grammar, x, b" goto ", n),
        None => Some(()),
    }
}

/// The lines of the gotos of a state.
#[derive(Drop)]
struct Gotos<'a>(&'a Tables, usize);

impl Lines for Gotos<'_> {
    ghost has = { λ it x. (it.1 < length it.0.now.built.states)
        × (it.0.now.built.grammar.bare.tokens ≤ x) × (x < it.0.now.built.grammar.bare.symbols) };

    ghost line = { λ it _ x. goto_line it.0.now.built.grammar x (goto_in it.0.now.built it.1 x) };

    fn put_line<W: Write>(&self, link: &mut Link<W>, x: usize) -> Option<()> {
        let Gotos(tables, q) = *self;
        put_goto(link, tables.grammar(), x, tables.goto(q, x))
    }
}

/// The lines of conflicts.
#[derive(Drop)]
struct Conflicts<'a>(&'a Grammar, &'a [Conflict]);

impl Lines for Conflicts<'_> {
    ghost use Rattle.ytables.specs.declared.cell.Conflict.{Conflict};

    ghost has = { λ it k. (k < length it.1.now)
        × ((d : Conflict) → (slice_index_or it.1.now k d).token < it.0.now.bare.symbols) };

    ghost line = { λ it _ k. conflict_text_at it.0.now it.1.now k };

    fn put_line<W: Write>(&self, link: &mut Link<W>, k: usize) -> Option<()> {
        let Conflicts(grammar, conflicts) = *self;
        let conflict = conflicts[k];
        let name = Words(grammar.name(conflict.token));
        let first = Number(conflict.shift_reduce);
        let second = Number(conflict.reduce_reduce);
        put_pieces(
            link,
            &[
                Words(b"  "),
                name,
                Words(b" conflicts "),
                first,
                Words(b" "),
                second,
                END,
            ],
        )
    }
}

fn put_conflicts<W: Write>(link: &mut Link<W>, tables: &Tables, q: usize) -> Option<()>
    requires { q < length tables.now.built.states }
    ensures { (u : Guide) → IsGuide tables.now.built u
        → Sends W.contents link.old link.new (is_some result) (conflicts_text tables.now u q) }
{
    let _guide = tables.automaton().states();
    let grammar = tables.grammar();
    let _well_formed = grammar.symbols();
    let conflicts = tables.conflicts_in(q);
    put_lines(link, &Conflicts(grammar, conflicts), 0, conflicts.len())
}

/// The actions of a state, its gotos, its conflicts.
fn put_cells<W: Write>(link: &mut Link<W>, tables: &Tables, q: usize) -> Option<()>
    requires { q < length tables.now.built.states }
    ensures { (u : Guide) → IsGuide tables.now.built u
        → Sends W.contents link.old link.new (is_some result) (cells_text tables.now u q) }
{
    let grammar = tables.grammar();
    put_rule_or_actions(link, tables, q)?;
    put_lines(
        link,
        &Gotos(tables, q),
        token_count(grammar),
        grammar.symbols(),
    )?;
    put_conflicts(link, tables, q)
}

/// The states: their numbers, items and cells.
#[derive(Drop)]
struct States<'a>(&'a Tables);

impl Lines for States<'_> {
    ghost Context = { λ it. (u : Guide) × IsGuide it.0.now.built u };

    ghost has = { λ it q. q < length it.0.now.built.states };

    ghost line = { λ it u q. state_text it.0.now u.0 q };

    fn put_line<W: Write>(&self, link: &mut Link<W>, q: usize) -> Option<()> {
        let States(tables) = *self;
        let items = tables.automaton().items(q).len();
        let title = [Words(b"State "), Number(q), END];
        put_list(link, &title, &Items(tables, q), items)?;
        put_cells(link, tables, q)
    }
}

/// How many states there are, and how many conflicts.
fn put_counts<W: Write>(link: &mut Link<W>, tables: &Tables) -> Option<()>
    ensures { Sends W.contents link.old link.new (is_some result) (counts_text tables.now) }
{
    let counts = tables.conflicts();
    let states = Number(tables.automaton().states());
    let first = Number(counts.shift_reduce as usize);
    let second = Number(counts.reduce_reduce as usize);
    let words = Words(b"\nConflicts ");
    put_pieces(
        link,
        &[
            Words(b"States "),
            states,
            words,
            first,
            Words(b" "),
            second,
            END,
        ],
    )
}

/// The tokens, the states, and their counts.
fn put_tokens_part<W: Write>(link: &mut Link<W>, tables: &Tables) -> Option<()>
    ensures { (u : Guide) → IsGuide tables.now.built u
        → Sends W.contents link.old link.new (is_some result) (tokens_part tables.now u) }
{
    let grammar = tables.grammar();
    let tokens = token_count(grammar);
    let states = tables.automaton().states();
    put_list(link, &[Words(b"Tokens\n")], &Tokens(grammar), tokens)?;
    put_lines(link, &States(tables), 0, states)?;
    put_counts(link, tables)
}

fn put_report<W: Write>(link: &mut Link<W>, tables: &Tables) -> Option<()>
    ensures { (u : Guide) → IsGuide tables.now.built u
        → Sends W.contents link.old link.new (is_some result) (report_of tables.now u) }
{
    let grammar = tables.grammar();
    let rules = grammar.rules();
    put_list(link, &[Words(b"Rules\n")], &Rules(grammar), rules)?;
    put_list(
        link,
        &[Words(b"Unreachable\n")],
        &Unreachable(grammar),
        rules,
    )?;
    put_tokens_part(link, tables)
}

impl Tables {
    /// Writes the report, whose text docs/FORMATS.md describes. The fault T2 comes exactly where
    /// the link failed: then only a beginning of the text was written.
    pub fn write_report<W: Write>(&self, link: &mut Link<W>) -> Result<(), TableFault>
        ensures text { (u : Guide) → IsGuide self.now.built u
            → Grows (W.contents (device_of link.old)) (W.contents (device_of link.new))
            (is_ok result) (report_of self.now u) }
        ensures failed { has_failed link.new ≡ is_err result }
        ensures fault { IfErr result (λ e. e ≡ TableFault.Write) }
    {
        let _guide = self.automaton().states();
        link.clear();
        match put_report(link, self) {
            Some(()) => Ok(()),
            None => Err(TableFault::Write),
        }
    }
}
