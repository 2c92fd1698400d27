//! Commands that show something.

use crate::condition::{WORDS, is_digits, number_in, symbol_named, symbol_near, token_named};
use crate::explain::put_position;
use crate::history::{SOME_STEPS, put_history};
use crate::refusal::{Refusal, misused, put_refusal};
use crate::text::words_of;
use crate::travel::LAST;
use crate::verb::Verb;
use crate::words::{first_word, near_in};
use std::alloc::Global;
use std::io::Write;
use yexplain::reads::{Made, grammar_of};
use yexplain::sources::sources_of;
use yexplain::why::{Question, explain};
use yinput::Parse;
use yinput::expected::{Wanted, expected};
use yparse::machine::Mode;
use yparse::states::stack_states;
use yprovenance::Reasons;
use yreports::brief::put_brief;
use ysymbols::{Grammar, Sym};
use yview::derivation::{SOME_FORMS, put_derivation, size_of_derivation};
use yview::grammar_view::Rules;
use yview::page::Page;
use yview::reading::{last_rule, last_state, name_of, token_ahead};
use yview::state_view::put_state;
use yview::symbol_view::put_symbol;
use yview::tree_text::{SOME_LINES, put_tree, put_trees};

/// The most bytes of a derivation that is written whole without a sign that this is meant.
const LARGE: u64 = 100_000_000;

/// A parse that is looked at, and the page on which it is shown.
#[derive(Drop)]
pub struct View<'a, W> {
    /// The allocator.
    pub alloc: Global,
    /// The parse.
    pub parse: &'a Parse,
    /// The page.
    pub page: &'a mut Page<W>,
}

/// Why a cell says what it says, and where the token of a reduction comes from.
fn put_why<W: Write>(alloc: Global, page: &mut Page<W>, asked: Question<'_>) -> Made<()> {
    // The page remembers a fault.
    let _ = explain(page, asked);
    let reasons = Reasons::of(alloc, asked.tables.automaton())?;
    let _ = asked.put_sources(page, &sources_of(alloc, &reasons, asked)?);
    Ok(())
}

/// Tokens by name, as a list that ends its last line.
fn put_names<W: Write>(page: &mut Page<W>, grammar: &Grammar, tokens: &[Sym]) {
    for token in tokens {
        page.word(0, name_of(grammar, *token));
    }
    page.end();
}

/// How many lines or forms are wanted: so many, all, or as many as usual.
fn amount(text: &str, usual: usize) -> Result<usize, Refusal> {
    match text {
        "" => Ok(usual),
        "all" => Ok(usize::MAX),
        _ => number_in(text, "counts", 1, LAST),
    }
}

impl<W: Write> View<'_, W> {
    /// Writes a refusal; how the command is used, where a word was no number.
    fn refuse(&mut self, verb: Verb, refusal: Refusal) {
        match refusal {
            Refusal::NoNumber => put_refusal(self.page, misused(verb)),
            refusal => put_refusal(self.page, refusal),
        }
    }

    /// Writes a refusal, and the word that is near to the one at fault.
    pub fn refuse_name(&mut self, name: &str, refusal: Refusal) -> Made<()> {
        let parse = self.parse;
        let near = match refusal {
            Refusal::NoCondition => near_in(self.alloc, &WORDS, name)?,
            Refusal::NoToken | Refusal::NoInput | Refusal::NoNonterminal | Refusal::NoSymbol => {
                symbol_near(
                    self.alloc,
                    grammar_of(parse.session.tables()),
                    name,
                    refusal,
                )?
            }
            _ => None,
        };
        put_refusal(self.page, refusal);
        if let Some(best) = near {
            let _ = writeln!(self.page, "Did you mean {best}?");
        }
        Ok(())
    }

    /// A state, that of the stack where none is named.
    pub fn show_state(&mut self, text: &str) {
        let parse = self.parse;
        let (tables, state) = (parse.session.tables(), parse.session.state());
        match number_in(text, "states", 0, last_state(tables)) {
            _ if text.is_empty() => put_state(self.page, tables, state),
            Ok(state) => put_state(self.page, tables, state),
            Err(refusal) => self.refuse(Verb::State, refusal),
        }
    }

    /// Why the cell of the state and the token ahead says what it says, or that of another state or
    /// another token, whose number comes before its name.
    pub fn show_why(&mut self, text: &str) -> Made<()> {
        let parse = self.parse;
        let (first, name) = first_word(text);
        if !is_digits(first) {
            return self.show_cell(parse.session.state(), text);
        }
        match number_in(first, "states", 0, last_state(parse.session.tables())) {
            Ok(state) => self.show_cell(state, name),
            Err(refusal) => {
                self.refuse(Verb::Why, refusal);
                Ok(())
            }
        }
    }

    /// Why the cell of a state and a token says what it says; of the token ahead, where none is
    /// named.
    fn show_cell(&mut self, state: usize, name: &str) -> Made<()> {
        let parse = self.parse;
        let session = &parse.session;
        let asked = Question {
            tables: session.tables(),
            lines: &parse.lines,
            state,
            token: token_ahead(session),
        };
        if name.is_empty() {
            put_why(self.alloc, self.page, asked)?;
            self.put_halt("  ");
            return Ok(());
        }
        let Some(token) = token_named(session, name) else {
            return self.refuse_name(name, Refusal::NoToken);
        };
        put_why(self.alloc, self.page, Question { token, ..asked })
    }

    /// Why no step goes by the tables, where none does; whether that is so.
    fn put_halt(&mut self, front: &str) -> bool {
        let words = match self.parse.session.view().mode() {
            Mode::Running => return false,
            Mode::Popping => "Error recovery: entries are popped until a state can shift error.",
            Mode::Accepted => "The input is accepted: there is no further step.",
            Mode::Failed => "The parse has given up: there is no further step.",
        };
        self.page.put(front);
        self.page.line(words);
        true
    }

    /// The position in a few lines, and what could be done otherwise.
    pub fn show_position(&mut self) -> Made<()> {
        if self.put_halt("") {
            return Ok(());
        }
        put_position(self.alloc, self.page, self.parse)
    }

    /// The tokens that can come here, and those that take too many reductions to say; none where the
    /// parse isn't running.
    pub fn show_expected(&mut self) -> Made<()> {
        let parse = self.parse;
        let (session, tables) = (&parse.session, parse.session.tables());
        let none = match session.view().mode() {
            Mode::Running => {
                let states = stack_states(self.alloc, session)?;
                let found = expected(self.alloc, tables, &states)?;
                let Wanted { can, unknown } = &found;
                if !can.is_empty() {
                    put_names(self.page, grammar_of(tables), can);
                }
                if !unknown.is_empty() {
                    self.page
                        .put("can't tell, since too many reductions come first:");
                    put_names(self.page, grammar_of(tables), unknown);
                }
                if can.is_empty() && unknown.is_empty() {
                    self.page.line("No token can come here.");
                }
                return Ok(());
            }
            Mode::Popping => " while symbols are popped; go back and ask again.",
            Mode::Accepted => ": the input is accepted.",
            Mode::Failed => ": the parse has given up.",
        };
        let _ = writeln!(self.page, "No token can come{none}");
        Ok(())
    }

    /// The conflicts of the tables by their causes, the first 20 explained.
    pub fn show_conflicts(&mut self) -> Made<()> {
        let parse = self.parse;
        put_brief(self.alloc, self.page, parse.session.tables(), &parse.lines)
    }

    /// A rule.
    pub fn show_rule(&mut self, text: &str) {
        let parse = self.parse;
        let (grammar, lines) = (grammar_of(parse.session.tables()), &parse.lines);
        match number_in(text, "rules", 0, last_rule(grammar)) {
            Ok(rule) => Rules { grammar, lines }.put_one(self.page, rule),
            Err(refusal) => self.refuse(Verb::Rule, refusal),
        }
    }

    /// A symbol.
    pub fn show_symbol(&mut self, text: &str) -> Made<()> {
        let parse = self.parse;
        match symbol_named(&parse.session, text) {
            _ if text.is_empty() => put_refusal(self.page, misused(Verb::Symbol)),
            Some(symbol) => put_symbol(self.page, parse.session.tables(), &parse.lines, symbol),
            None => return self.refuse_name(text, Refusal::NoSymbol),
        }
        Ok(())
    }

    /// The tree of an entry of the stack.
    fn show_entry(&mut self, entry: &str, most: usize) -> Made<()> {
        let parse = self.parse;
        let entries = parse.session.view().stack_len();
        match number_in(entry, "entries", 1, entries) {
            _ if entries == 0 => self.page.line("The stack is empty: there is no tree."),
            Ok(entry) => {
                let by = (&parse.session, words_of(parse));
                return put_tree(self.alloc, self.page, by, entry, most);
            }
            Err(refusal) => self.refuse(Verb::Tree, refusal),
        }
        Ok(())
    }

    /// The trees of the stack, or that of one entry.
    pub fn show_tree(&mut self, text: &str) -> Made<()> {
        let (parse, words) = (self.parse, words_of(self.parse));
        match first_word(text) {
            ("", _) => put_trees(self.alloc, self.page, &parse.session, words, SOME_LINES),
            ("all", "") => put_trees(self.alloc, self.page, &parse.session, words, usize::MAX),
            (entry, "") => self.show_entry(entry, SOME_LINES),
            (entry, "all") => self.show_entry(entry, usize::MAX),
            _ => {
                put_refusal(self.page, misused(Verb::Tree));
                Ok(())
            }
        }
    }

    /// The rightmost derivation up to here; how many bytes all of it would take, where that is much
    /// and all of it is wanted.
    pub fn show_derivation(&mut self, text: &str) -> Made<()> {
        let parse = self.parse;
        let most = match amount(text, SOME_FORMS) {
            _ if text == "all!" => usize::MAX,
            Ok(most) => most,
            Err(refusal) => {
                self.refuse(Verb::Derivation, refusal);
                return Ok(());
            }
        };
        if text == "all" {
            let size = size_of_derivation(self.alloc, &parse.session)?;
            if size > LARGE {
                let words = "bytes; derivation all! writes them.";
                let _ = writeln!(self.page, "That would be {size} {words}");
                return Ok(());
            }
        }
        put_derivation(self.alloc, self.page, &parse.session, most)
    }

    /// The last steps and edits.
    pub fn show_history(&mut self, text: &str) {
        match amount(text, SOME_STEPS) {
            Ok(most) => put_history(self.page, self.parse, most),
            Err(refusal) => self.refuse(Verb::History, refusal),
        }
    }
}
