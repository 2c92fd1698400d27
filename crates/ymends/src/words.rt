//! What is said of idioms, of changes that were tried, and of the second token of lookahead.

use crate::changed_text::Change;
use crate::idioms::{Form, Idiom};
use crate::mending::{Apart, Mended, Tried};
use crate::rewriting::Rewriting;
use std::io::{self, Write};
use yexplain::lines::Lines;
use yexplain::reads::left_of;
use yexplain::text::{Name, Numbered};
use ysymbols::{Grammar, Sym};
use yview::page::Page;

/// The most tokens that are named, and the most rules.
const MOST_TOKENS: usize = 8;

const MOST_RULES: usize = 5;

/// The words between how many conflicts there are and `left`.
pub fn are_left(left: usize, all: usize) -> &'static str {
    match (left, all) {
        (_, 1) => "conflict is",
        (1, _) => "conflicts is",
        _ => "conflicts are",
    }
}

/// What is said with: the grammar, and where rules stand in its file.
#[derive(Clone, Copy)]
pub struct MendText<'a> {
    /// The grammar.
    pub grammar: &'a Grammar,
    /// Where rules stand.
    pub lines: &'a Lines,
}

impl MendText<'_> {
    /// Writes a text, and a rule with its line.
    fn put_rule<W: Write>(self, page: &mut Page<W>, front: &str, rule: usize) {
        page.put(front);
        page.show(Numbered(self.lines, rule));
    }

    /// Writes a text and a symbol.
    fn put_name<W: Write>(self, page: &mut Page<W>, front: &str, symbol: Sym) {
        page.put(front);
        page.show(Name(self.grammar, symbol));
    }

    /// Writes rules: `rule 3 (line 4), then rule 5 (line 6)`.
    fn put_rules<W: Write>(self, page: &mut Page<W>, rules: &[usize], front: &str) {
        for (place, rule) in rules.iter().take(MOST_RULES).enumerate() {
            self.put_rule(page, if place == 0 { "" } else { front }, *rule);
        }
        if rules.len() > MOST_RULES {
            page.put(" ..");
        }
    }

    /// Writes what an idiom is, with its rules where they make it together.
    fn put_idiom<W: Write>(self, page: &mut Page<W>, idiom: &Idiom) {
        let name = idiom.symbol;
        match idiom.form {
            Form::Cycle => {
                self.put_name(page, "  A cycle: ", name);
                page.put(" derives itself alone, by ");
                self.put_rules(page, &idiom.rules, ", then ");
                page.line(", so each of its sentences has trees without end.");
            }
            Form::TwoEmpty => {
                self.put_name(page, "  ", name);
                page.put(" is empty in several ways: by ");
                self.put_rules(page, &idiom.rules, " and by ");
                page.line(".");
            }
            Form::Twice => {
                let (first, again) = (idiom.rules.first(), idiom.rules.last());
                self.put_rule(page, "  A rule twice: ", first.copied().unwrap_or(0));
                self.put_rule(page, " is the same as ", again.copied().unwrap_or(0));
                page.line(".");
            }
            form => {
                let rule = idiom.rules.first().copied().unwrap_or(0);
                self.put_form(page, form, rule, (name, idiom.other.unwrap_or(name)));
            }
        }
    }

    /// Writes what an idiom of one rule, or of none, is.
    fn put_form<W: Write>(
        self,
        page: &mut Page<W>,
        form: Form,
        rule: usize,
        (name, other): (Sym, Sym),
    ) {
        match form {
            Form::EmptyInList => {
                self.put_name(page, "  A cycle: where ", other);
                self.put_rule(page, " is empty in ", rule);
                self.put_name(page, ", ", name);
                page.put(" derives itself alone, so each of its sentences has trees without end.");
            }
            Form::HiddenLeft => {
                self.put_rule(page, "  Hidden left recursion: in ", rule);
                self.put_name(page, " ", name);
                self.put_name(page, " comes after ", other);
                page.put(", which can be empty, so a parse must know before the first token ");
                page.put("how many of these come.");
            }
            Form::ListOfLists => {
                self.put_name(page, "  A list of lists: ", name);
                self.put_rule(page, " stands at both ends of ", rule);
                page.put(", so three of them in a row are put together in two ways.");
            }
            _ => {
                self.put_name(page, "  The same twice: ", name);
                self.put_name(page, " and ", other);
                page.put(" have the same rules, so they derive the same.");
            }
        }
        page.end();
    }

    /// Writes which nonterminals stand elsewhere.
    fn put_moved<W: Write>(self, page: &mut Page<W>, rewriting: Rewriting) {
        match rewriting {
            Rewriting::Inlined { symbol, rule } => {
                self.put_name(page, "With the rules of ", symbol);
                self.put_rule(page, " written out in its place in ", rule);
            }
            Rewriting::Merged { symbol, by } => {
                self.put_name(page, "With ", by);
                self.put_name(page, " in place of ", symbol);
                page.put(" everywhere, and each rule once,");
            }
            Rewriting::Replaced { symbol, by, rule } => {
                self.put_name(page, "With ", by);
                self.put_name(page, " in place of ", symbol);
                self.put_rule(page, " in ", rule);
            }
            Rewriting::Opened { one, two } => {
                self.put_name(page, "With the rules of ", one);
                if one != two {
                    self.put_name(page, " and of ", two);
                }
                page.put(" written out where they are used,");
            }
            _ => {}
        }
    }

    /// Writes how rules are written otherwise.
    fn put_rewriting<W: Write>(self, page: &mut Page<W>, rewriting: Rewriting) {
        match rewriting {
            Rewriting::Separated { symbol, rule } => {
                self.put_name(page, "Without ", symbol);
                self.put_rule(page, " in the list's rules but ", rule);
                page.put(", and there with one that isn't empty,");
            }
            Rewriting::First { rule, before } => {
                self.put_rule(page, "With ", rule);
                self.put_rule(page, " before ", before);
            }
            Rewriting::Listed { rule } => {
                let name = left_of(self.grammar, rule).unwrap_or(0);
                page.put("With a new nonterminal for the elements, which has the other rules ");
                self.put_name(page, "of ", name);
                self.put_rule(page, ", at the end of ", rule);
                self.put_name(page, " and alone as a rule of ", name);
                page.put(",");
            }
            Rewriting::Token { token, next } => {
                self.put_name(page, "With another token than ", token);
                self.put_name(page, " before ", next);
                page.put(", by the lexer,");
            }
            moved => self.put_moved(page, moved),
        }
    }

    /// Writes what comes of a change.
    fn put_tried<W: Write>(self, page: &mut Page<W>, tried: &Tried) {
        page.put("  ");
        match tried.change {
            Change::Without(rule) => self.put_rule(page, "Without ", rule),
            Change::Rewritten(rewriting) => self.put_rewriting(page, rewriting),
            _ => {}
        }
        page.put(" ");
        page.number(tried.left);
        page.put(" of ");
        page.number(tried.all);
        page.put(" ");
        page.put(are_left(tried.left, tried.all));
        page.put(" left");
        if let Change::Rewritten(Rewriting::Token { .. }) = tried.change {
            page.line(".");
            return;
        }
        match tried.same {
            Some((most, count)) => {
                page.put("; the language is the same on all sentences of up to ");
                page.number(most);
                page.put(" tokens (");
                page.number(count);
                page.line(").");
            }
            None => page.line("; the language stays the same."),
        }
    }

    /// Writes tokens: `A, B or C`.
    fn put_tokens<W: Write>(self, page: &mut Page<W>, tokens: &[Sym]) {
        let more = tokens.len().saturating_sub(MOST_TOKENS);
        let shown = tokens.len().min(MOST_TOKENS);
        for (place, token) in tokens.iter().take(shown).enumerate() {
            let is_last = more == 0 && place.saturating_add(1) == shown;
            let front = match place {
                0 => "",
                _ if is_last => " or ",
                _ => ", ",
            };
            self.put_name(page, front, *token);
        }
        if more > 0 {
            page.put(" or one of ");
            page.number(more);
            page.put(" more");
        }
    }

    /// Writes what the second token tells.
    fn put_apart<W: Write>(self, page: &mut Page<W>, apart: &Apart) {
        let front = "  Two tokens of lookahead decide: after ";
        self.put_name(page, front, apart.token);
        page.put(" comes ");
        self.put_tokens(page, &apart.other);
        self.put_rule(page, " where ", apart.rule);
        page.put(" is right, and ");
        self.put_tokens(page, &apart.taken);
        page.line(" where it isn't.");
    }

    /// Writes what is known of a conflict beside its rivals.
    pub fn put<W: Write>(self, out: &mut W, idioms: &[Idiom], mended: &Mended) -> io::Result<()> {
        let mut page = Page::new(&mut *out, false);
        if let Some(idiom) = idioms.get(mended.idiom.unwrap_or(usize::MAX)) {
            self.put_idiom(&mut page, idiom);
        }
        if let Some(apart) = &mended.apart {
            self.put_apart(&mut page, apart);
        }
        if let Some(tried) = &mended.tried {
            self.put_tried(&mut page, tried);
        }
        page.checked()
    }
}
