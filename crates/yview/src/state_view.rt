//! A state: its items, its actions by token, its gotos.

use crate::page::{Page, Paint};
use crate::reading::name_of;
use std::io::{Sink, Write, sink};
use yexplain::reads::{
    action_of, candidates_of, conflict_of, default_of, goto_of, grammar_of, is_complete, is_kernel,
    items_of, looks_at, next_of,
};
use yexplain::text::ItemText;
use ylalr::{END, Item, token_count};
use ysymbols::{Grammar, Sym};
use ytables::{Action, Tables};

/// How many items `where` shows.
const FEW: usize = 12;
/// How many lookaheads stand beside an item in a short list.
const SOME_LOOKS: usize = 6;
/// The widest item that the notes of the others are aligned with.
const WIDEST: usize = 64;

/// How much an item matters in a short list.
#[derive(Clone, Copy, PartialEq, Eq)]
enum Rank {
    /// It is complete, or about the token ahead.
    First,
    /// It is of the kernel.
    Second,
    /// It isn't.
    Third,
}

/// How much an item matters.
fn rank_of(grammar: &Grammar, item: Item, ahead: Sym) -> Rank {
    if is_complete(grammar, item) || next_of(grammar, item) == Some(ahead) {
        Rank::First
    } else if is_kernel(item) {
        Rank::Second
    } else {
        Rank::Third
    }
}

/// How many items of one rank are wanted, and how wide they are at most.
#[derive(Clone, Copy)]
struct Listed {
    rank: Rank,
    most: usize,
    width: usize,
}

/// A state of tables.
#[derive(Clone, Copy)]
struct Shown<'a> {
    tables: &'a Tables,
    state: usize,
}

impl<'a> Shown<'a> {
    fn grammar(self) -> &'a Grammar {
        grammar_of(self.tables)
    }

    fn items(self) -> &'a [Item] {
        items_of(self.tables.automaton(), self.state)
    }

    /// The lookaheads of an item, at most so many.
    fn put_looks<W: Write>(self, page: &mut Page<W>, item: Item, most: usize) {
        let mut count = 0usize;
        for token in 0..token_count(self.grammar()) {
            if looks_at(self.tables.automaton(), self.state, item, token) {
                count = count.saturating_add(1);
                if count > most {
                    page.put(" ..");
                    return;
                }
                page.word(6, name_of(self.grammar(), token));
            }
        }
    }

    /// An item and what it lets the state do: reduce, shift a token, or nothing by itself.
    fn put_noted<W: Write>(self, page: &mut Page<W>, item: Item, width: usize, most: usize) {
        let grammar = self.grammar();
        let column = width.saturating_add(5);
        page.put("   ");
        page.show(ItemText(grammar, item));
        let next = next_of(grammar, item);
        if next.map_or(true, |symbol| grammar.is_token(symbol)) {
            page.tab(column);
            match next {
                None => {
                    page.put("reduce on");
                    self.put_looks(page, item, most);
                }
                Some(END) => page.put("accept"),
                Some(token) => {
                    let _ = write!(page, "shift {}", name_of(grammar, token));
                }
            }
        }
        page.end();
    }

    /// The greatest width of the items that are wanted, at most 64.
    fn widest<F: Fn(Item) -> bool + Drop>(self, wanted: F) -> usize
        requires { F.IsAlwaysCallable wanted }
    {
        let mut width = 0;
        for item in self.items() {
            if wanted(*item) {
                let mut nowhere: Page<Sink> = Page::new(sink(), false);
                nowhere.show(ItemText(self.grammar(), *item));
                width = nowhere.column.min(WIDEST).max(width);
            }
        }
        width
    }

    /// The items that matter so much; the answer is how many there are.
    fn put_rank<W: Write>(self, page: &mut Page<W>, ahead: Sym, listed: Listed) -> usize {
        let mut count = 0usize;
        for item in self.items() {
            if rank_of(self.grammar(), *item, ahead) == listed.rank {
                count = count.saturating_add(1);
                if count <= listed.most {
                    self.put_noted(page, *item, listed.width, SOME_LOOKS);
                }
            }
        }
        count
    }

    /// Whether a cell has a line of its own: what isn't a reduction, and what was settled.
    fn is_apart(self, token: Sym, action: Action) -> bool {
        match action {
            Action::Shift(_) | Action::Accept => true,
            Action::Error => candidates_of(self.tables, self.state, token)
                .next()
                .is_some(),
            Action::Reduce(_) => conflict_of(self.tables, self.state, token).is_some(),
        }
    }

    /// The actions that have lines of their own, by token.
    fn put_cells<W: Write>(self, page: &mut Page<W>) {
        for token in 0..token_count(self.grammar()) {
            let action = action_of(self.tables, self.state, token);
            if self.is_apart(token, action) {
                page.put("   ");
                page.put(name_of(self.grammar(), token));
                page.tab(20);
                let _ = match action {
                    Action::Shift(next) => write!(page, "shift, to state {next}"),
                    Action::Reduce(rule) => write!(page, "reduce by rule {rule}"),
                    Action::Accept => write!(page, "accept"),
                    Action::Error => write!(page, "error"),
                };
                if conflict_of(self.tables, self.state, token).is_some() {
                    page.painted(Paint::Bad, "  (conflict)");
                }
                page.end();
            }
        }
    }

    /// The actions: shifts and what was settled by token, and then by rule the tokens at which that
    /// is reduced without a conflict, where there are any; one line where the state reduces at every
    /// token.
    fn put_actions<W: Write>(self, page: &mut Page<W>) {
        if let Some(rule) = default_of(self.tables, self.state) {
            let _ = writeln!(page, "   any token         reduce by rule {rule}");
            return;
        }
        self.put_cells(page);
        for item in self.items() {
            if !is_complete(self.grammar(), *item) {
                continue;
            }
            let (rule, mut begun) = (item.rule, false);
            let reduction = Action::Reduce(rule);
            for token in 0..token_count(self.grammar()) {
                let action = action_of(self.tables, self.state, token);
                if action == reduction && !self.is_apart(token, reduction) {
                    if !begun {
                        begun = true;
                        let _ = write!(page, "   reduce by rule {rule} on");
                    }
                    page.word(6, name_of(self.grammar(), token));
                }
            }
            if begun {
                page.end();
            }
        }
    }
}

/// The items of a state that are complete or about the token ahead, and then those that have
/// begun: 12 of them.
pub fn put_kernel<W: Write>(page: &mut Page<W>, tables: &Tables, state: usize, ahead: Sym) {
    let shown = Shown { tables, state };
    let grammar = shown.grammar();
    let first = Listed {
        rank: Rank::First,
        most: FEW,
        width: shown.widest(|item| rank_of(grammar, item, ahead) != Rank::Third),
    };
    let begun = shown.put_rank(page, ahead, first);
    let second = Listed {
        rank: Rank::Second,
        most: FEW.saturating_sub(begun),
        ..first
    };
    let count = shown.put_rank(page, ahead, second);
    let more = begun.saturating_add(count).saturating_sub(FEW);
    if more > 0 {
        let _ = writeln!(page, "   .. {more} more; state shows them");
    }
}

/// A state: its items, its actions, its gotos. A number that is no state has none.
pub fn put_state<W: Write>(page: &mut Page<W>, tables: &Tables, state: usize) {
    let _ = writeln!(page, "state {state}");
    let shown = Shown { tables, state };
    let width = shown.widest(|_| true);
    for item in shown.items() {
        shown.put_noted(page, *item, width, usize::MAX);
    }
    shown.put_actions(page);
    let grammar = shown.grammar();
    for symbol in token_count(grammar)..grammar.symbols() {
        if let Some(next) = goto_of(tables.automaton(), state, symbol) {
            page.put("   ");
            page.put(name_of(grammar, symbol));
            page.tab(20);
            let _ = writeln!(page, "to state {next}");
        }
    }
}
