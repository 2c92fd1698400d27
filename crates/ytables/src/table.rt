//! The text of the table.

ghost use Rattle.std.specs.Prelude.{◌≡◌, ◌<◌, ◌≤◌, ◌++◌, length, is_some, is_ok, is_err, IfErr};
ghost use Rattle.ylalr.specs.Collection.{goto_in};
ghost use Rattle.ylink.specs.Link.{device_of, has_failed};
ghost use Rattle.ylink.specs.Sends.{Sends, Grows};
ghost use Rattle.ytables.specs.Text.{count_line};
ghost use Rattle.ytables.specs.Table.{symbol_line, rule_line, place_text, action_line, goto_line};
ghost use Rattle.ytables.specs.Table.{rule_or_actions, state_lines, table_of};
ghost use Rattle.ytables.specs.Tables.{action_at, default_at};
ghost use Rattle.ytables.specs.declared.fault.TableFault.{TableFault};

use crate::cell::Action;
use crate::fault::TableFault;
use crate::tables::Tables;
use std::io::Write;
use ylalr::token_count;
use ylink::lines::{Lines, put_lines, put_list};
use ylink::link::Link;
use ylink::pieces::Piece::{Number, Words};
use ylink::pieces::{END, put_pieces};
use ylink::put::put;
use ysymbols::{Grammar, Sym};

/// The lines of the symbols.
#[derive(Drop)]
struct Symbols<'a>(&'a Grammar);

impl Lines for Symbols<'_> {
    ghost has = { λ it s. s < it.0.now.bare.symbols };

    ghost line = { λ it _ s. symbol_line it.0.now s };

    fn put_line<W: Write>(&self, link: &mut Link<W>, s: usize) -> Option<()> {
        let name = Words(self.0.name(s));
        match self.0.number(s) {
            Some(n) => put_pieces(
                link,
                &[
                    Number(s),
                    Words(b" t "),
                    Number(n as usize),
                    Words(b" "),
                    name,
                    END,
                ],
            ),
            None => put_pieces(link, &[Number(s), Words(b" n - "), name, END]),
        }
    }
}

/// The lines of the rules.
#[derive(Drop)]
struct Rules<'a>(&'a Grammar);

impl Lines for Rules<'_> {
    ghost has = { λ it r. r < length it.0.now.bare.rules };

    ghost line = { λ it _ r. rule_line it.0.now r };

    fn put_line<W: Write>(&self, link: &mut Link<W>, r: usize) -> Option<()> {
        let rule = self.0.rule(r);
        let left = Number(rule.left());
        let len = Number(rule.body().len());
        put_pieces(link, &[Number(r), Words(b" "), left, Words(b" "), len, END])
    }
}

/// The line of an entry: what its place begins with, its place, words and a number.
fn put_entry<'a, W: Write>(
    link: &mut Link<W>,
    front: &'a [u8],
    place: (usize, Sym),
    words: &'a [u8],
    number: usize,
) -> Option<()>
    ensures { Sends W.contents link.old link.new (is_some result)
        (place_text front.now place.0 place.1 ++ count_line words.now number) }
{
    let (state, symbol) = (Number(place.0), Number(place.1));
    let number = Number(number);
    put_pieces(
        link,
        &[
            Words(front),
            state,
            Words(b" "),
            symbol,
            Words(words),
            number,
            END,
        ],
    )
}

/// The line of an action; nothing for an error.
fn put_action<W: Write>(link: &mut Link<W>, q: usize, t: Sym, action: Action) -> Option<()>
    ensures { Sends W.contents link.old link.new (is_some result) (action_line q t action) }
{
    match action {
        Action::Shift(n) => put_entry(link, b"a ", (q, t), b" s ", n),
        Action::Reduce(r) => put_entry(link, b"a ", (q, t), b" r ", r),
        Action::Accept => {
            let (state, token) = (Number(q), Number(t));
            put_pieces(
                link,
                &[Words(b"a "), state, Words(b" "), token, Words(b" acc\n")],
            )
        }
        Action::Error => Some(()),
    }
}

/// The lines of the actions of a state.
#[derive(Drop)]
struct Actions<'a>(&'a Tables, usize);

impl Lines for Actions<'_> {
    ghost has = { λ it t. (it.1 < length it.0.now.built.states)
        × (t < it.0.now.built.grammar.bare.tokens) };

    ghost line = { λ it _ t. action_line it.1 t (action_at it.0.now it.1 t) };

    fn put_line<W: Write>(&self, link: &mut Link<W>, t: usize) -> Option<()> {
        let Actions(tables, q) = *self;
        put_action(link, q, t, tables.action(q, t))
    }
}

/// The default rule of a consistent state, or the actions.
fn put_rule_or_actions<W: Write>(link: &mut Link<W>, tables: &Tables, q: usize) -> Option<()>
    requires { q < length tables.now.built.states }
    ensures { Sends W.contents link.old link.new (is_some result) (rule_or_actions tables.now q
        (default_at tables.now q)) }
{
    match tables.default_rule(q) {
        Some(rule) => put_pieces(
            link,
            &[Words(b"d "), Number(q), Words(b" "), Number(rule), END],
        ),
        None => put_lines(link, &Actions(tables, q), 0, token_count(tables.grammar())),
    }
}

/// The line of a goto, where there is one.
fn put_goto<W: Write>(link: &mut Link<W>, q: usize, x: Sym, to: Option<usize>) -> Option<()>
    ensures { Sends W.contents link.old link.new (is_some result) (goto_line q x to) }
{
    match to {
        Some(n) => put_entry(link, b"g ", (q, x), b" ", n),
        None => Some(()),
    }
}

/// The lines of the gotos of a state.
#[derive(Drop)]
struct Gotos<'a>(&'a Tables, usize);

impl Lines for Gotos<'_> {
    ghost has = { λ it x. (it.1 < length it.0.now.built.states)
        × (it.0.now.built.grammar.bare.tokens ≤ x) × (x < it.0.now.built.grammar.bare.symbols) };

    ghost line = { λ it _ x. goto_line it.1 x (goto_in it.0.now.built it.1 x) };

    fn put_line<W: Write>(&self, link: &mut Link<W>, x: usize) -> Option<()> {
        let Gotos(tables, q) = *self;
        put_goto(link, q, x, tables.goto(q, x))
    }
}

/// The lines of the states.
#[derive(Drop)]
struct States<'a>(&'a Tables);

impl Lines for States<'_> {
    ghost has = { λ it q. q < length it.0.now.built.states };

    ghost line = { λ it _ q. state_lines it.0.now q };

    fn put_line<W: Write>(&self, link: &mut Link<W>, q: usize) -> Option<()> {
        let States(tables) = *self;
        let grammar = tables.grammar();
        put_rule_or_actions(link, tables, q)?;
        put_lines(
            link,
            &Gotos(tables, q),
            token_count(grammar),
            grammar.symbols(),
        )
    }
}

fn put_table<W: Write>(link: &mut Link<W>, tables: &Tables) -> Option<()>
    ensures { Sends W.contents link.old link.new (is_some result) (table_of tables.now) }
{
    let grammar = tables.grammar();
    let (symbols, rules) = (grammar.symbols(), grammar.rules());
    let states = tables.automaton().states();
    let title = [Words(b"table 2\nsymbols "), Number(symbols), END];
    put_list(link, &title, &Symbols(grammar), symbols)?;
    let title = [Words(b"rules "), Number(rules), END];
    put_list(link, &title, &Rules(grammar), rules)?;
    let title = [Words(b"states "), Number(states), END];
    put_list(link, &title, &States(tables), states)?;
    put(link, b"end\n")
}

impl Tables {
    /// Writes the table, whose text docs/FORMATS.md describes. The fault T2 comes exactly where
    /// the link failed: then only a beginning of the text was written.
    pub fn write_table<W: Write>(&self, link: &mut Link<W>) -> Result<(), TableFault>
        ensures text { Grows (W.contents (device_of link.old)) (W.contents (device_of link.new))
            (is_ok result) (table_of self.now) }
        ensures failed { has_failed link.new ≡ is_err result }
        ensures fault { IfErr result (λ e. e ≡ TableFault.Write) }
    {
        link.clear();
        match put_table(link, self) {
            Some(()) => Ok(()),
            None => Err(TableFault::Write),
        }
    }
}
