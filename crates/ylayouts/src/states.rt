//! The part of a report on states.

use crate::report::Report;
use crate::sheet::{Mark, Sheet};
use yexplain::reads::{
    Made, action_of, body_of, candidates_of, goto_of, is_kernel, items_of, level_of, rule_of,
    shift_of,
};
use ylalr::Item;
use yprovenance::Candidate;
use ysymbols::{Associativity, Sym};
use ytables::{Action, Class, Standing};

/// What stands for all tokens that are left.
const DEFAULT: &str = "$default";

/// A reduction of a state: at a token, or at all that are left; by which rule; and whether it is
/// done.
#[derive(Clone, Copy, Drop)]
struct Reduction {
    token: Option<Sym>,
    rule: usize,
    is_done: bool,
}

/// What stands in a row of a list of symbols.
#[derive(Clone, Copy, PartialEq, Eq)]
enum Row {
    /// A shift.
    Shift,
    /// An error that comes of precedences.
    Error,
    /// A goto.
    Goto,
}

impl Report<'_> {
    /// Writes an item, with the tokens at which its rule may be reduced, where they are wanted and
    /// it is complete.
    fn put_item(&self, sheet: &mut Sheet, item: Item, before: Option<usize>) {
        self.put_left(sheet, Mark::ToRule, item.rule, before);
        let signs = self.layout.manner.signs;
        let body = body_of(self.layout.grammar, item.rule);
        if body.is_empty() {
            sheet.put(" ");
            sheet.put(signs.empty.0);
        }
        for (place, symbol) in body.iter().enumerate() {
            if place == item.dot {
                sheet.put(" ");
                sheet.put(signs.dot);
            }
            sheet.put(" ");
            self.put_name(sheet, *symbol);
        }
        if body.len() <= item.dot {
            sheet.put(" ");
            sheet.put(signs.dot);
        }
    }

    /// Writes the tokens at which the rule of a complete item is left.
    fn put_lookaheads(&self, sheet: &mut Sheet, state: usize, rule: usize) {
        let (layout, mut any) = (self.layout, false);
        sheet.put("  [");
        for token in layout.tokens {
            if layout.is_left(state, *token, rule) {
                sheet.put(if any { ", " } else { "" });
                self.put_name(sheet, *token);
                any = true;
            }
        }
        sheet.put("]");
    }

    /// Writes the items of a state, of which these are complete.
    fn put_items(&self, sheet: &mut Sheet, state: usize, ready: &[Item]) {
        let layout = self.layout;
        let shows = self.things.lookaheads && layout.looks_ahead(state, ready);
        let mut before = None;
        sheet.put("\n");
        for item in items_of(layout.tables.automaton(), state) {
            if !self.things.items && !is_kernel(*item) {
                continue;
            }
            self.put_item(sheet, *item, before);
            let length = body_of(layout.grammar, item.rule).len();
            if shows && item.rule > 0 && item.dot >= length {
                self.put_lookaheads(sheet, state, item.rule);
            }
            sheet.put("\n");
            before = Some(item.rule);
        }
    }

    /// Writes the name of a symbol, or that of all tokens that are left, in a column.
    fn put_column(&self, sheet: &mut Sheet, symbol: Option<Sym>, width: usize) {
        sheet.put("    ");
        let own = self.width_of(symbol);
        match symbol {
            Some(symbol) => self.put_name(sheet, symbol),
            None => sheet.put(DEFAULT),
        }
        sheet.spaces(width.saturating_sub(own));
    }

    /// How many columns the name of a symbol takes, or that of all tokens that are left.
    fn width_of(&self, symbol: Option<Sym>) -> usize {
        symbol.map_or(DEFAULT.len(), |symbol| self.layout.manner.width(symbol))
    }

    /// Whether a symbol has a row in a list.
    fn has_row(&self, state: usize, symbol: Sym, row: Row) -> bool {
        let tables = self.layout.tables;
        match row {
            Row::Goto => goto_of(tables.automaton(), state, symbol).is_some(),
            Row::Shift => self.layout.way(state, symbol).is_some(),
            Row::Error => {
                let is_error = matches!(action_of(tables, state, symbol), Action::Error);
                is_error && shift_of(tables, state, symbol).is_some()
            }
        }
    }

    /// Writes a list of symbols of a state, where it has rows.
    fn put_rows(&self, sheet: &mut Sheet, state: usize, row: Row) {
        let layout = self.layout;
        let symbols = match row {
            Row::Goto => layout.nonterminals,
            _ => layout.tokens,
        };
        let mut width = 0usize;
        for symbol in symbols {
            if self.has_row(state, *symbol, row) {
                width = width.max(self.width_of(Some(*symbol)));
            }
        }
        sheet.put(if width > 0 { "\n" } else { "" });
        for symbol in symbols {
            if !self.has_row(state, *symbol, row) {
                continue;
            }
            self.put_column(sheet, Some(*symbol), width.saturating_add(2));
            match (row, layout.way(state, *symbol)) {
                (Row::Error, _) | (_, None) => {
                    sheet.put("error (nonassociative)\n");
                    continue;
                }
                (_, Some(next)) => {
                    let is_shift = row == Row::Shift;
                    sheet.put(if is_shift { "shift, and " } else { "" });
                    sheet.put("go to ");
                    sheet.mark("state ", Mark::ToState, layout.number(next));
                    sheet.put("\n");
                }
            }
        }
    }

    /// The reductions of a state that are written: one that is done by default at a token where no
    /// other rule is left isn't.
    fn reductions_of(&self, state: usize, ready: &[Item]) -> Made<Vec<Reduction>> {
        let layout = self.layout;
        let (default, mut found) = (layout.default_rule(state), Vec::new(layout.alloc));
        if layout.looks_ahead(state, ready) {
            for token in layout.tokens {
                let action = action_of(layout.tables, state, *token);
                let mut rules = Vec::new(layout.alloc);
                for item in ready {
                    if layout.is_left(state, *token, item.rule) {
                        rules.push(item.rule)?;
                    }
                }
                for rule in &rules {
                    let (rule, token) = (*rule, Some(*token));
                    let is_done = action == Action::Reduce(rule);
                    if !is_done || default != Some(rule) || rules.len() > 1 {
                        found.push(Reduction {
                            token,
                            rule,
                            is_done,
                        })?;
                    }
                }
            }
        }
        if let Some(rule) = default {
            found.push(Reduction {
                token: None,
                rule,
                is_done: true,
            })?;
        }
        Ok(found)
    }

    /// Writes the reductions of a state.
    fn put_reductions(&self, sheet: &mut Sheet, state: usize, ready: &[Item]) -> Made<()> {
        let layout = self.layout;
        let (found, mut width) = (self.reductions_of(state, ready)?, 0usize);
        for it in &found {
            width = width.max(self.width_of(it.token));
        }
        sheet.put(if width > 0 { "\n" } else { "" });
        for it in &found {
            self.put_column(sheet, it.token, width.saturating_add(2));
            sheet.put(if it.is_done { "" } else { "[" });
            sheet.put("reduce using ");
            sheet.mark("rule ", Mark::ToRule, layout.rule(it.rule));
            sheet.put(" (");
            let left = rule_of(layout.grammar, it.rule).map_or(0, |rule| rule.left());
            self.put_name(sheet, left);
            sheet.put(if it.is_done { ")\n" } else { ")]\n" });
        }
        Ok(())
    }

    /// Writes how precedences settle a rule beside a shift, where they do; the empty line before all
    /// of these comes before the first one.
    fn put_settled(&self, sheet: &mut Sheet, token: Sym, it: Candidate, any: &mut bool) {
        let level = level_of(self.layout.grammar, token).map_or(0, |level| level.level);
        let has_direction = match self.seen {
            Some(seen) => !seen.has_no_direction(level),
            None => true,
        };
        let giver = self.givers.get(it.rule).copied().flatten().unwrap_or(token);
        let (deed, lower, sign, upper) = match it.standing {
            Standing::Higher => ("reduce", Some(token), "< ", giver),
            Standing::Lower => ("shift", Some(giver), "< ", token),
            Standing::Level(kind) if has_direction => match kind {
                Associativity::Left => ("reduce", None, "%left ", token),
                Associativity::Right => ("shift", None, "%right ", token),
                Associativity::Nonassoc => ("an error", None, "%nonassoc ", token),
            },
            _ => return,
        };
        sheet.put(if *any { "" } else { "\n" });
        *any = true;
        sheet.put("    Conflict between ");
        sheet.mark("rule ", Mark::ToRule, self.layout.rule(it.rule));
        sheet.put(" and token ");
        self.put_name(sheet, token);
        sheet.put(" resolved as ");
        sheet.put(deed);
        sheet.put(" (");
        if let Some(lower) = lower {
            self.put_name(sheet, lower);
            sheet.put(" ");
        }
        sheet.put_bytes(sign.as_bytes());
        self.put_name(sheet, upper);
        sheet.put(").\n");
    }

    /// Writes how precedences settle the cells of a state: the rules of each are compared with its
    /// shift one after another, as long as it is there.
    fn put_all_settled(&self, sheet: &mut Sheet, state: usize, ready: &[Item]) {
        let (tables, mut any) = (self.layout.tables, false);
        for item in ready {
            for token in self.layout.tokens {
                if shift_of(tables, state, *token).is_none() {
                    continue;
                }
                for candidate in candidates_of(tables, state, *token) {
                    if candidate.rule == item.rule {
                        self.put_settled(sheet, *token, candidate, &mut any);
                        break;
                    }
                    if matches!(candidate.standing.class(), Class::Beat | Class::Ban) {
                        break;
                    }
                }
            }
        }
    }

    /// Writes a state.
    pub fn put_state(&self, sheet: &mut Sheet, number: usize, state: usize) -> Made<()> {
        sheet.put("\n\n");
        sheet.mark("State ", Mark::State, number);
        sheet.put("\n");
        if state == self.layout.code.states {
            let dot = body_of(self.layout.grammar, 0).len();
            sheet.put("\n");
            self.put_item(sheet, Item { rule: 0, dot }, None);
            sheet.put("\n\n    $default  accept\n");
            return Ok(());
        }
        let ready = self.layout.ready(state)?;
        self.put_items(sheet, state, &ready);
        for row in [Row::Shift, Row::Error] {
            self.put_rows(sheet, state, row);
        }
        self.put_reductions(sheet, state, &ready)?;
        self.put_rows(sheet, state, Row::Goto);
        if self.things.settled {
            self.put_all_settled(sheet, state, &ready);
        }
        Ok(())
    }
}
