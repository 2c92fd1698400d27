//! How lists of tokens are written: which rivals a list allows, its tokens, what a parse comes to.

use std::io::Write;
use yexplain::lines::Lines;
use yexplain::reads::grammar_of;
use yexplain::text::{Name, Names, Numbered};
use ysearch::finding::{Allows, Finding, List};
use ysearch::groups::{Group, Kind};
use ysearch::trial::Trial;
use ysymbols::Sym;
use ytables::Tables;
use yview::page::Page;

/// The lists of a kind of conflict.
#[derive(Clone, Copy)]
pub struct ListText<'a> {
    /// The tables.
    pub tables: &'a Tables,
    /// Where rules stand in the file.
    pub lines: &'a Lines,
    /// The kind of conflict.
    pub kind: &'a Kind,
    /// Its cells.
    pub group: Group,
    /// How many lists there are.
    pub lists: usize,
}

/// Writes that lists are missing, where that is so.
pub fn put_unfound<W: Write>(page: &mut Page<W>, finding: &Finding) {
    if finding.long {
        page.line("  The shortest list of tokens is too long to be shown.");
    }
    if finding.late {
        page.line("  The search for a list of tokens took too long.");
    }
}

/// Whether no list allows both rivals: then states were merged.
pub fn is_merged(finding: &Finding) -> bool {
    let mut lists = finding.lists.iter().map(|list| list.allows);
    lists.find(|allows| *allows != Allows::Both) == Some(Allows::One)
}

impl<'a> ListText<'a> {
    fn name(&self) -> Name<'a> {
        Name(grammar_of(self.tables), self.kind.token)
    }

    /// Writes that no list allows both rivals, where that is so.
    pub fn put_merged<W: Write>(&self, page: &mut Page<W>, finding: &Finding) {
        if !is_merged(finding) {
            for list in &finding.lists {
                if list.allows != Allows::Both {
                    page.line("  The search for a list of tokens that allows both took too long.");
                    return;
                }
            }
            return;
        }
        if self.kind.others().len() > 1 {
            page.line(
                "  What is taken is never possible together with a rule that stands alone or \
                 without it below: an artifact of LALR state merging; canonical LR(1) would not have \
                 that part of the conflict.",
            );
        } else if self.group.states > 1 {
            let state = self.group.state;
            let _ = writeln!(
                page,
                "  No list of tokens allows both in state {state}: an artifact of LALR state \
                 merging; canonical LR(1) would not have this conflict there."
            );
        } else {
            page.line(
                "  No list of tokens allows both: an artifact of LALR state merging; canonical \
                 LR(1) would not have this conflict.",
            );
        }
    }

    /// Writes a list, with the rules that it is for, and what a parse over it comes to.
    pub fn put_list<W: Write>(&self, page: &mut Page<W>, list: &List) {
        if self.lists > 1 || list.allows != Allows::Both {
            page.put("  for");
            for (place, rule) in list.rules.iter().enumerate() {
                page.put(if place > 0 { ", " } else { " " });
                page.show(Numbered(self.lines, *rule));
            }
            page.line(match list.allows {
                Allows::Both => ":",
                _ if list.rules.len() > 1 => ", without what is taken:",
                Allows::One | Allows::Found => " alone:",
            });
        }
        self.put_tokens(page, &list.tokens);
        self.put_trial(page, list);
    }

    /// Writes the tokens of a list, a period, and the token after them.
    fn put_tokens<W: Write>(&self, page: &mut Page<W>, tokens: &[Sym]) {
        let (names, name) = (Names(grammar_of(self.tables), tokens), self.name());
        let _ = writeln!(page, "  tokens {names} . {name}");
    }

    /// Writes that a parse does something in the state of the conflict, with its token ahead.
    fn put_parse<W: Write>(&self, page: &mut Page<W>, does: &str) {
        let name = self.name();
        let _ = write!(page, "  A parse {does} the state with {name} ahead");
    }

    /// Writes what a parse over a list comes to.
    fn put_trial<W: Write>(&self, page: &mut Page<W>, list: &List) {
        match list.trial {
            Trial::Reached(steps) => self.put_reached(page, steps),
            Trial::HasError => page.line(
                "  Not tried: error comes from recovery alone, and stands in no tokens file.",
            ),
            Trial::Late(steps) => {
                page.put("  A parse was given up after ");
                page.count(steps, "step", "steps");
                page.line(".");
                self.put_other(page, list);
            }
            Trial::Recovered(steps) => {
                self.put_parse(page, "comes to");
                page.put(" only after an error, in ");
                page.count(steps, "step", "steps");
                page.line(": an earlier choice is settled otherwise.");
                self.put_other(page, list);
            }
            Trial::Missed => {
                self.put_parse(page, "doesn't come to");
                page.line(": an earlier choice is settled otherwise.");
                self.put_other(page, list);
            }
        }
    }

    /// Writes that a parse comes to the state, in so many steps.
    fn put_reached<W: Write>(&self, page: &mut Page<W>, steps: usize) {
        if steps == 0 {
            self.put_parse(page, "begins in");
        } else {
            self.put_parse(page, "comes to");
            page.put(" in ");
            page.count(steps, "step", "steps");
        }
        page.line(".");
    }

    /// Writes the next list with which a parse comes to the state.
    fn put_other<W: Write>(&self, page: &mut Page<W>, list: &List) {
        match &list.other {
            Some((tokens, steps)) => {
                page.put(match list.trial {
                    Trial::Recovered(_) => "  Over these it comes to the state without one, in ",
                    _ => "  Over these it comes to the state, in ",
                });
                page.count(*steps, "step", "steps");
                page.line(":");
                self.put_tokens(page, tokens);
            }
            None if list.tried == 0 => page.line("  No other list was found."),
            None => {
                page.put("  Nor does one over ");
                page.count(list.tried, "other list", "other lists");
                page.line(match list.trial {
                    Trial::Missed if !list.recovered => " come to the state.",
                    _ => " come to the state without an error.",
                });
            }
        }
    }
}
