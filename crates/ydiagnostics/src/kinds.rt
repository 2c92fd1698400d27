//! Conflicts, each kind with its rules and with lists of tokens that get there.

use crate::events::Events;
use crate::sheet::place_of;
use std::alloc::Global;
use yexplain::lines::Lines;
use yexplain::reads::Made;
use yexplain::text::{Name, RuleText};
use yfiles::diagnostic::Severity;
use ysearch::finding::{Allows, Finding};
use ysearch::groups::{Conflicts, Group, Kind};
use ysearch::trial::Trial;
use ysymbols::{Grammar, Sym, let_go};

/// A rule: its number, its place and its text.
pub struct RuleSheet {
    rule: usize,
    line: Option<usize>,
    column: Option<usize>,
    text: String,
}

impl Drop for RuleSheet {
    // A call in each owner, which keeps their proofs short.
    fn drop(self) {
        let_go!(self: RuleSheet { rule, line, column, text });
    }
}

impl RuleSheet {
    /// Adds it to a document.
    fn add_to(&self, events: &mut Events) {
        events.begin();
        events.number("rule", self.rule);
        events.number_if("line", self.line);
        events.number_if("column", self.column);
        events.text("text", &self.text);
        events.end();
    }
}

/// A list of tokens that gets to a conflict.
pub struct ListSheet {
    /// The rules that it is for.
    rules: Vec<usize>,
    /// Whether it allows what is taken, too.
    both: bool,
    /// The tokens before that of the conflict.
    tokens: Vec<String>,
    /// What a parse over it comes to.
    parse: &'static str,
}

impl Drop for ListSheet {
    // A call in each owner, which keeps their proofs short.
    fn drop(self) {
        let_go!(self: ListSheet { rules, both, tokens, parse });
    }
}

impl ListSheet {
    /// Adds it to a document.
    fn add_to(&self, events: &mut Events) {
        events.begin();
        events.numbers("rules", &self.rules);
        events.flag("both", self.both);
        events.texts("tokens", &self.tokens);
        events.word("parse", self.parse);
        events.end();
    }
}

/// A kind of conflict.
pub struct KindSheet {
    /// The first state that has it, how many have it, and the last one.
    state: usize,
    states: usize,
    last: usize,
    token: String,
    /// `shift` or `reduce`.
    taken: &'static str,
    /// The rules: first the one that is taken, where that is no shift.
    rules: Vec<RuleSheet>,
    /// How many rules there are more.
    more: usize,
    /// Lists of tokens, where they were sought.
    lists: Option<Vec<ListSheet>>,
}

impl Drop for KindSheet {
    // A call in each owner, which keeps their proofs short.
    fn drop(self) {
        let_go!(self: KindSheet { state, states, last, token, taken, rules, more, lists });
    }
}

impl KindSheet {
    /// Adds it to a document.
    pub fn add_to(&self, events: &mut Events) {
        events.begin();
        events.number("state", self.state);
        events.number("states", self.states);
        events.number("last", self.last);
        events.text("token", &self.token);
        events.word("taken", self.taken);
        events.begin_list("rules");
        for rule in &self.rules {
            rule.add_to(events);
        }
        events.end_list();
        events.number("more", self.more);
        match &self.lists {
            Some(lists) => {
                events.begin_list("lists");
                for list in lists {
                    list.add_to(events);
                }
                events.end_list();
            }
            None => events.nothing("lists"),
        }
        events.end();
    }
}

/// What rules are shown with: where they stand in the file.
#[derive(Clone, Copy)]
pub struct Shown<'a> {
    /// The places.
    pub lines: &'a Lines,
    /// The path of the file.
    pub path: &'a str,
    /// How bad a conflict is.
    pub severity: Severity,
    /// Whether the text that was read is that of the file.
    pub is_plain: bool,
}

/// The name of a symbol.
pub fn named(alloc: Global, grammar: &Grammar, symbol: Sym) -> Made<String> {
    let name = Name(grammar, symbol);
    format!(in alloc; "{name}")
}

/// The names of symbols.
pub fn names_of(alloc: Global, grammar: &Grammar, symbols: &[Sym]) -> Made<Vec<String>> {
    let mut names = Vec::new(alloc);
    for symbol in symbols {
        names.push(named(alloc, grammar, *symbol)?)?;
    }
    Ok(names)
}

/// The lists that were found, each with what a parse comes to.
fn list_sheets(alloc: Global, grammar: &Grammar, finding: &Finding) -> Made<Vec<ListSheet>> {
    let mut lists = Vec::new(alloc);
    for list in &finding.lists {
        let parse = match list.trial {
            Trial::Reached(_) => "reached",
            Trial::Recovered(_) => "recovered",
            Trial::Missed => "missed",
            Trial::Late(_) => "late",
            Trial::HasError => "untried",
        };
        lists.push(ListSheet {
            rules: Vec::from_slice(alloc, &list.rules)?,
            both: list.allows == Allows::Both,
            tokens: names_of(alloc, grammar, &list.tokens)?,
            parse,
        })?;
    }
    Ok(lists)
}

impl Shown<'_> {
    /// The rules of a kind.
    fn rule_sheets(self, alloc: Global, grammar: &Grammar, kind: &Kind) -> Made<Vec<RuleSheet>> {
        let mut rules = Vec::new(alloc);
        for rule in kind.rules() {
            let (line, column) = place_of(self.lines.spot(*rule));
            let text = RuleText(grammar, *rule);
            let text = format!(in alloc; "{text}")?;
            rules.push(RuleSheet {
                rule: *rule,
                line,
                column,
                text,
            })?;
        }
        Ok(rules)
    }

    /// A kind with its lists, where they were sought.
    fn kind_sheet(
        self,
        alloc: Global,
        grammar: &Grammar,
        (kind, group): (&Kind, Group),
        lists: Option<Vec<ListSheet>>,
    ) -> Made<KindSheet> {
        let rules = self.rule_sheets(alloc, grammar, kind)?;
        let all = kind.rivals.saturating_add(usize::from(!kind.shift));
        Ok(KindSheet {
            state: group.state,
            states: group.states,
            last: group.last,
            token: named(alloc, grammar, kind.token)?,
            taken: if kind.shift { "shift" } else { "reduce" },
            more: all.saturating_sub(rules.len()),
            rules,
            lists,
        })
    }

    /// Kinds of conflicts in the order of their states, with the lists that were found for each of
    /// the first ones.
    pub fn kind_sheets(
        self,
        alloc: Global,
        grammar: &Grammar,
        found: &Conflicts,
        findings: &[Finding],
    ) -> Made<Vec<KindSheet>> {
        let mut sheets = Vec::new(alloc);
        for (kind, group) in &found.groups {
            let lists = match findings.get(sheets.len()) {
                Some(finding) => Some(list_sheets(alloc, grammar, finding)?),
                None => None,
            };
            sheets.push(self.kind_sheet(alloc, grammar, (kind, *group), lists)?)?;
        }
        Ok(sheets)
    }
}
