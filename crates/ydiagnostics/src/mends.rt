//! Idioms, changes that were tried and the second token of lookahead, as data.

use crate::events::Events;
use crate::kinds::{named, names_of};
use crate::scene::Scene;
use yexplain::reads::{Made, grammar_of};
use ymends::changed_text::Change;
use ymends::idioms::{Form, Idiom};
use ymends::mending::{Apart, Mended, Tried};
use ymends::rewriting::Rewriting;
use yreports::splitting::Split;
use ysymbols::{Sym, let_go};

/// An idiom: its form, the nonterminal, a second symbol, and the rules.
#[derive(Drop)]
struct IdiomSheet {
    form: &'static str,
    symbol: String,
    other: Option<String>,
    rules: Vec<usize>,
}

impl IdiomSheet {
    /// Adds it to a document.
    fn add_to(&self, events: &mut Events) {
        events.begin();
        events.word("form", self.form);
        events.text("symbol", &self.symbol);
        events.text_if("other", &self.other);
        events.numbers("rules", &self.rules);
        events.end();
    }
}

/// A change that was tried.
#[derive(Drop)]
struct TriedSheet {
    /// What is done, in which rule, with which symbol, and what comes in its place or after it.
    change: &'static str,
    rule: Option<usize>,
    symbol: Option<String>,
    by: Option<String>,
    /// How many conflicts are left.
    left: usize,
    /// The language was found to be the same on all sentences of up to so many tokens, and how many
    /// these are; none where it is the same by what the change is.
    most: Option<usize>,
    sentences: Option<usize>,
}

impl TriedSheet {
    /// Adds it to a document.
    fn add_to(&self, events: &mut Events) {
        events.begin();
        events.word("change", self.change);
        events.number_if("rule", self.rule);
        events.text_if("symbol", &self.symbol);
        events.text_if("by", &self.by);
        events.number("left", self.left);
        events.number_if("most", self.most);
        events.number_if("sentences", self.sentences);
        events.end();
    }
}

/// The tokens after that of the conflict where what is taken is right, and where the rule is.
#[derive(Drop)]
struct ApartSheet {
    rule: usize,
    taken: Vec<String>,
    other: Vec<String>,
}

impl ApartSheet {
    /// Adds it to a document.
    fn add_to(&self, events: &mut Events) {
        events.begin();
        events.number("rule", self.rule);
        events.texts("taken", &self.taken);
        events.texts("other", &self.other);
        events.end();
    }
}

/// What is known of a cause beside its rivals.
pub struct MendSheet {
    idiom: Option<IdiomSheet>,
    tried: Option<TriedSheet>,
    apart: Option<ApartSheet>,
}

impl Drop for MendSheet {
    // A call in each owner, which keeps their proofs short.
    fn drop(self) {
        let_go!(self: MendSheet { idiom, tried, apart });
    }
}

impl MendSheet {
    /// Adds it to a document.
    pub fn add_to(&self, events: &mut Events) {
        events.begin();
        match &self.idiom {
            Some(idiom) => {
                events.key("idiom");
                idiom.add_to(events);
            }
            None => events.nothing("idiom"),
        }
        match &self.tried {
            Some(tried) => {
                events.key("tried");
                tried.add_to(events);
            }
            None => events.nothing("tried"),
        }
        match &self.apart {
            Some(apart) => {
                events.key("apart");
                apart.add_to(events);
            }
            None => events.nothing("apart"),
        }
        events.end();
    }
}

/// A copy of a nonterminal for the body of a rule, which splits states that were merged.
#[derive(Drop)]
pub struct SplitSheet {
    /// The nonterminal, and the rule.
    pub symbol: String,
    rule: usize,
    /// Where the rule begins.
    pub line: Option<usize>,
    pub column: Option<usize>,
    /// How many conflicts are left with it, and how many there are.
    pub left: usize,
    pub all: usize,
}

impl SplitSheet {
    /// Adds it to a document.
    pub fn add_to(&self, events: &mut Events) {
        events.begin();
        events.text("symbol", &self.symbol);
        events.number("rule", self.rule);
        events.number_if("line", self.line);
        events.number_if("column", self.column);
        events.number("left", self.left);
        events.number("all", self.all);
        events.end();
    }
}

/// A change: what is done, in which rule, with which symbol, and what comes in its place.
type Parts = (&'static str, Option<usize>, Option<Sym>, Option<Sym>);

/// The name of a form.
fn form_name(form: Form) -> &'static str {
    match form {
        Form::Cycle => "cycle",
        Form::EmptyInList => "empty-in-list",
        Form::HiddenLeft => "hidden-left-recursion",
        Form::TwoEmpty => "empty-twice",
        Form::ListOfLists => "list-of-lists",
        Form::Twice => "rule-twice",
        Form::Alike => "same-rules",
    }
}

/// The parts of a change.
fn parts_of(change: Change) -> Parts {
    match change {
        Change::Without(rule) => ("without", Some(rule), None, None),
        Change::Rewritten(Rewriting::Inlined { symbol, rule }) => {
            ("inline", Some(rule), Some(symbol), None)
        }
        Change::Rewritten(Rewriting::Merged { symbol, by }) => {
            ("merge", None, Some(symbol), Some(by))
        }
        Change::Rewritten(Rewriting::Replaced { symbol, by, rule }) => {
            ("replace", Some(rule), Some(symbol), Some(by))
        }
        Change::Rewritten(Rewriting::Opened { one, two }) => {
            let other = if two == one { None } else { Some(two) };
            ("open", None, Some(one), other)
        }
        Change::Rewritten(Rewriting::Separated { symbol, rule }) => {
            ("separate", Some(rule), Some(symbol), None)
        }
        Change::Rewritten(Rewriting::Listed { rule }) => ("list", Some(rule), None, None),
        Change::Rewritten(Rewriting::Token { token, next }) => {
            ("token", None, Some(token), Some(next))
        }
        _ => ("other", None, None, None),
    }
}

impl Scene<'_> {
    /// The name of a symbol, where there is one.
    fn name_if(self, symbol: Option<Sym>) -> Made<Option<String>> {
        match symbol {
            Some(symbol) => Ok(Some(named(self.alloc, grammar_of(self.tables), symbol)?)),
            None => Ok(None),
        }
    }

    /// An idiom.
    fn idiom_sheet(self, idiom: &Idiom) -> Made<IdiomSheet> {
        Ok(IdiomSheet {
            form: form_name(idiom.form),
            symbol: named(self.alloc, grammar_of(self.tables), idiom.symbol)?,
            other: self.name_if(idiom.other)?,
            rules: Vec::from_slice(self.alloc, &idiom.rules)?,
        })
    }

    /// A change that was tried.
    fn tried_sheet(self, tried: Tried) -> Made<TriedSheet> {
        let (change, rule, symbol, by) = parts_of(tried.change);
        let (most, sentences) = match tried.same {
            Some((most, sentences)) => (Some(most), Some(sentences)),
            None => (None, None),
        };
        let symbol = self.name_if(symbol)?;
        let by = self.name_if(by)?;
        Ok(TriedSheet {
            change,
            rule,
            symbol,
            by,
            left: tried.left,
            most,
            sentences,
        })
    }

    /// What the second token tells.
    fn apart_sheet(self, apart: &Apart) -> Made<ApartSheet> {
        let grammar = grammar_of(self.tables);
        Ok(ApartSheet {
            rule: apart.rule,
            taken: names_of(self.alloc, grammar, &apart.taken)?,
            other: names_of(self.alloc, grammar, &apart.other)?,
        })
    }

    /// A copy that was tried.
    pub fn split_sheet(self, split: Split) -> Made<SplitSheet> {
        let (line, column) = match self.shown.lines.spot(split.rule) {
            Some(spot) => (Some(spot.line), spot.column),
            None => (None, None),
        };
        let symbol = named(self.alloc, grammar_of(self.tables), split.symbol)?;
        Ok(SplitSheet {
            symbol,
            rule: split.rule,
            line,
            column,
            left: split.left,
            all: split.all,
        })
    }

    /// What is known of a cause beside its rivals.
    pub fn mend_sheet(self, mended: &Mended) -> Made<MendSheet> {
        let mut sheet = MendSheet {
            idiom: None,
            tried: None,
            apart: None,
        };
        let place = mended.idiom.unwrap_or(usize::MAX);
        if let Some(idiom) = self.sought.idioms.get(place) {
            sheet.idiom = Some(self.idiom_sheet(idiom)?);
        }
        if let Some(tried) = mended.tried {
            sheet.tried = Some(self.tried_sheet(tried)?);
        }
        if let Some(apart) = &mended.apart {
            sheet.apart = Some(self.apart_sheet(apart)?);
        }
        Ok(sheet)
    }
}
