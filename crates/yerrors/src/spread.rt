//! The search: which tokens can be ahead in each state, and after how few tokens.
//!
//! A row of a rest is known from those of the rest after its next symbol: where that is a token, it
//! has to be ahead, and is shifted; where it is a nonterminal, the rows of its goto say which token
//! is ahead once it has come. The rows of a goto are those of the bodies of its nonterminal. The
//! rows of states go from the first state over tokens and gotos. All of them are found together,
//! the fewest tokens first, so each is found with as few tokens as there can be.

use crate::rows::{Key, Level, Part, Spot, Taken};
use crate::search::{Search, state_key};
use crate::sets::Source;
use yexplain::reads::{Made, action_of, grammar_of, is_complete};
use ylalr::{Item, token_count};
use ysymbols::Sym;
use ytables::Action;

impl Search<'_> {
    /// Finds all that there is, and says whether it was found within the steps.
    pub fn run(&mut self) -> Made<bool> {
        self.begin()?;
        // ends: each row gets each token once
        for _ in 0..usize::MAX {
            if !self.rows.has_steps() {
                return Ok(false);
            }
            let Some((row, level)) = self.rows.take()? else {
                break;
            };
            let Some(Key { spot, first }) = self.rows.key(row) else {
                break;
            };
            match (spot, first) {
                (Spot::State(state), _) => self.leave_state((row, level), state)?,
                (Spot::Goto(number), Some(first)) => {
                    self.leave_goto((row, level), number, first)?;
                }
                (Spot::Goto(_), None) => {}
                (Spot::Rest(state, item), _) => {
                    self.leave_rest((row, level), (state, item), first)?;
                }
            }
        }
        Ok(true)
    }

    /// Goes on from a rest to those with their dots further to the left: before a token, which has
    /// to be shifted, or before a nonterminal.
    fn leave_rest(
        &mut self,
        (row, level): (usize, Level),
        (state, item): (usize, Item),
        first: Option<Sym>,
    ) -> Made<()> {
        let symbol = self.ways.moves.symbol(state);
        let is_token = grammar_of(self.ways.tables).is_token(symbol);
        let rest = Item {
            rule: item.rule,
            dot: item.dot.saturating_sub(1),
        };
        for place in 0..self.ways.moves.before.of(state).len() {
            let Some(before) = self.ways.moves.before.of(state).get(place).copied() else {
                break;
            };
            if is_token && self.ways.action(before, symbol) == Action::Shift(state) {
                let key = self.key_of(before, rest, symbol);
                let taken = Taken {
                    first: Part::Token(symbol),
                    second: Part::Last(row),
                };
                let cost = level.cost.saturating_add(1);
                self.give(key, cost, Source::all(level.at), taken)?;
            }
            match first {
                Some(first) if !is_token => {
                    self.leave_over((row, level), (before, rest), (symbol, first))?;
                }
                _ => {}
            }
        }
        Ok(())
    }

    /// Goes on to a rest before a nonterminal, which leaves the first token of the rest ahead.
    fn leave_over(
        &mut self,
        (row, level): (usize, Level),
        (before, item): (usize, Item),
        (symbol, first): (Sym, Sym),
    ) -> Made<()> {
        let Some(number) = self.ways.gotos.number(before, symbol) else {
            return Ok(());
        };
        let Some(spot) = self.rows.spots.number(Spot::Goto(number)) else {
            return Ok(());
        };
        for index in 0..self.rows.count(spot) {
            if let Some((over, ahead)) = self.rows.row_at(spot, index) {
                if let Some((cost, taken)) = self.joined((over, first), (row, level)) {
                    let key = self.key_of(before, item, ahead);
                    self.give(key, cost, Source::all(level.at), taken)?;
                }
            }
        }
        Ok(())
    }

    /// A row that leaves a token ahead before the level of another that has it ahead: how many
    /// tokens both take, and what; none where the row leaves another one ahead.
    fn joined(
        &mut self,
        (over, first): (usize, Sym),
        (row, level): (usize, Level),
    ) -> Option<(u64, Taken)> {
        self.rows.spend(1);
        let found = self.rows.level(over, first)?;
        let taken = Taken {
            first: Part::Row(over, first),
            second: Part::Last(row),
        };
        Some((found.cost.saturating_add(level.cost), taken))
    }

    /// Goes on from a goto to the items before its nonterminal, and from all ways to its state to
    /// the one that it leads to.
    fn leave_goto(&mut self, (row, level): (usize, Level), number: usize, first: Sym) -> Made<()> {
        let Some((state, to)) = self.ways.gotos.ends(number) else {
            return Ok(());
        };
        for index in 0..self.ways.gotos.items(number).len() {
            if let Some(item) = self.ways.gotos.items(number).get(index).copied() {
                let key = self.key_of(state, item, first);
                self.leave_goto_in((row, level), key, (to, item))?;
            }
        }
        let Some(way) = self.rows.keys.number(state_key(state)) else {
            return Ok(());
        };
        match self.joined((way, first), (row, level)) {
            Some((cost, taken)) => {
                self.give(Some(state_key(to)), cost, Source::all(level.at), taken)
            }
            None => Ok(()),
        }
    }

    /// Goes on to an item before the nonterminal: after that comes its rest in the other state, or
    /// its rule is reduced there.
    fn leave_goto_in(
        &mut self,
        (row, level): (usize, Level),
        key: Option<Key>,
        (to, item): (usize, Item),
    ) -> Made<()> {
        let rest = Item {
            rule: item.rule,
            dot: item.dot.saturating_add(1),
        };
        if !is_complete(grammar_of(self.ways.tables), rest) {
            return self.join_all(key, (row, level), Spot::Rest(to, rest));
        }
        let mask = self.masks.get(&(to, rest.rule)).copied();
        if mask.is_none() {
            return Ok(());
        }
        let taken = Taken {
            first: Part::Last(row),
            second: Part::Nothing,
        };
        let at = level.at;
        self.give(key, level.cost, Source { at, mask }, taken)
    }

    /// Joins a level and each row of a spot, where the level has the token that is ahead before
    /// that.
    fn join_all(&mut self, key: Option<Key>, (row, level): (usize, Level), spot: Spot) -> Made<()> {
        let Some(spot) = self.rows.spots.number(spot) else {
            return Ok(());
        };
        for index in 0..self.rows.count(spot) {
            let Some((other, ahead)) = self.rows.row_at(spot, index) else {
                continue;
            };
            self.rows.spend(1);
            if !self.rows.sets.has(level.at, ahead) {
                continue;
            }
            let taken = Taken {
                first: Part::Row(row, ahead),
                second: Part::Last(other),
            };
            for place in 0..self.rows.levels(other).len() {
                if let Some(found) = self.rows.levels(other).get(place).copied() {
                    let cost = level.cost.saturating_add(found.cost);
                    self.give(key, cost, Source::all(found.at), taken)?;
                }
            }
        }
        Ok(())
    }

    /// Goes on from a state: over the tokens ahead, where they aren't errors, which are noted, and
    /// over its nonterminals.
    fn leave_state(&mut self, (row, level): (usize, Level), state: usize) -> Made<()> {
        let (tables, inputs, cost) = (self.ways.tables, self.inputs, level.cost);
        let tokens = token_count(grammar_of(tables));
        self.rows.spend(tokens);
        for token in 0..tokens {
            if !self.rows.sets.has(level.at, token) {
                continue;
            }
            match action_of(tables, state, token) {
                Action::Shift(to) => {
                    let taken = Taken {
                        first: Part::Row(row, token),
                        second: Part::Token(token),
                    };
                    let next = cost.saturating_add(1);
                    self.give(Some(state_key(to)), next, Source::all(inputs), taken)?;
                }
                Action::Error => self.note(state, cost, token)?,
                Action::Reduce(_) | Action::Accept => {}
            }
        }
        let (start, end) = self.ways.gotos.of_state(state);
        for number in start..end {
            if let Some((_, to)) = self.ways.gotos.ends(number) {
                self.join_all(Some(state_key(to)), (row, level), Spot::Goto(number))?;
            }
        }
        Ok(())
    }
}
