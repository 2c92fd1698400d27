//! Sentences that are parsed in all ways: where both rivals of a conflict can go on from one stack
//! to the end of a sentence, it has two trees.

use crate::choice::{Cell, Choice};
use crate::stacks::Deed;
use std::alloc::Global;
use yexplain::reads::{Made, body_of, candidates_of, goto_of, left_of, shift_of};
use ylalr::END;
use ysymbols::Sym;
use ytables::{Action, Tables};

/// The most steps over one sentence: each takes one stack on in all ways.
const MOST_STEPS: usize = 1_000;

/// The most states of a stack beside those for the tokens before it.
const MOST_DEEPER: usize = 20;

/// The most parses of one sentence that come to a cell.
const MOST_MET: usize = 10;

/// A parse on its way over a sentence.
#[derive(Drop)]
struct Parse {
    states: Vec<usize>,
    /// How many tokens were shifted.
    place: usize,
    /// What it did.
    deeds: Vec<Deed>,
}

/// A sentence with two trees, by two parses that part at a cell.
#[derive(Drop)]
pub struct Fork {
    /// What both do before the cell.
    pub before: Vec<Deed>,
    /// What each does in all.
    pub first: Vec<Deed>,
    pub second: Vec<Deed>,
    /// How many tokens stand before the cell.
    pub dot: usize,
}

/// What parses a sentence in all ways, in so many steps.
#[derive(Drop)]
struct Parser<'a> {
    alloc: Global,
    tables: &'a Tables,
    tokens: &'a [Sym],
    /// The parses that wait.
    open: Vec<Parse>,
    steps: usize,
}

impl Parse {
    /// The same parse once more.
    fn again(&self, alloc: Global) -> Made<Parse> {
        Ok(Parse {
            states: Vec::from_slice(alloc, &self.states)?,
            place: self.place,
            deeds: Vec::from_slice(alloc, &self.deeds)?,
        })
    }

    /// The state on top.
    fn top(&self) -> usize {
        self.states.last().copied().unwrap_or(0)
    }

    /// The parse after a reduction, where that can be.
    fn reduced(&self, alloc: Global, tables: &Tables, rule: usize) -> Made<Option<Parse>> {
        let automaton = tables.automaton();
        let (left, body) = (
            left_of(automaton.grammar(), rule),
            body_of(automaton.grammar(), rule),
        );
        let mut next = self.again(alloc)?;
        let kept = next.states.len().saturating_sub(body.len());
        next.states.truncate(kept);
        match goto_of(automaton, next.top(), left.unwrap_or(0)) {
            Some(state) if next.states.len() < self.place.saturating_add(MOST_DEEPER) => {
                next.states.push(state)?;
                next.deeds.push(Deed::Reduce(rule))?;
                Ok(Some(next))
            }
            _ => Ok(None),
        }
    }
}

impl Parser<'_> {
    /// The token that comes next in a parse.
    fn next_token(&self, parse: &Parse) -> Sym {
        self.tokens.get(parse.place).copied().unwrap_or(END)
    }

    /// The parse after a choice, where that can be made; after the end was accepted none goes on.
    fn chosen(&self, parse: &Parse, choice: Choice) -> Made<Option<Parse>> {
        if let Choice::Reduce(rule) = choice {
            return parse.reduced(self.alloc, self.tables, rule);
        }
        let token = self.next_token(parse);
        match shift_of(self.tables, parse.top(), token) {
            Some(Action::Shift(to)) => {
                let mut next = parse.again(self.alloc)?;
                next.states.push(to)?;
                next.deeds.push(Deed::Shift(token))?;
                next.place = next.place.saturating_add(1);
                Ok(Some(next))
            }
            _ => Ok(None),
        }
    }

    /// A parse waits, where there is one.
    fn put(&mut self, parse: Option<Parse>) -> Made<()> {
        if let Some(parse) = parse {
            self.open.push(parse)?;
        }
        Ok(())
    }

    /// Takes a parse on in all ways, and says whether it can accept here.
    fn go_on(&mut self, parse: &Parse) -> Made<bool> {
        let (tables, token) = (self.tables, self.next_token(parse));
        for candidate in candidates_of(tables, parse.top(), token) {
            let next = parse.reduced(self.alloc, tables, candidate.rule)?;
            self.put(next)?;
        }
        let next = self.chosen(parse, Choice::Shift)?;
        self.put(next)?;
        Ok(shift_of(tables, parse.top(), token) == Some(Action::Accept))
    }

    /// What a parse does that goes on from one by a choice and comes to the end; `None` where there
    /// is none within the steps.
    fn ending(&mut self, parse: &Parse, choice: Choice) -> Made<Option<Vec<Deed>>> {
        self.open.clear();
        let is_end = self.next_token(parse) == END;
        if choice == Choice::Shift && is_end {
            let accepts = shift_of(self.tables, parse.top(), END) == Some(Action::Accept);
            let Parse { deeds, .. } = parse.again(self.alloc)?;
            return Ok(accepts.then_some(deeds));
        }
        let next = self.chosen(parse, choice)?;
        self.put(next)?;
        for _ in 0..self.steps {
            let Some(next) = self.open.pop() else {
                break;
            };
            self.steps = self.steps.saturating_sub(1);
            if self.go_on(&next)? {
                let Parse { deeds, .. } = next;
                return Ok(Some(deeds));
            }
        }
        Ok(None)
    }

    /// The parses over the sentence that come to a cell.
    fn met(&mut self, cell: Cell) -> Made<Vec<Parse>> {
        let mut met = Vec::new(self.alloc);
        self.open.push(Parse {
            states: Vec::from_slice(self.alloc, &[0])?,
            place: 0,
            deeds: Vec::new(self.alloc),
        })?;
        for _ in 0..self.steps {
            let Some(next) = self.open.pop() else {
                break;
            };
            self.steps = self.steps.saturating_sub(1);
            let is_there = next.top() == cell.state && self.next_token(&next) == cell.token;
            if is_there && met.len() < MOST_MET {
                met.push(next.again(self.alloc)?)?;
            }
            self.go_on(&next)?;
        }
        Ok(met)
    }
}

/// A parser of a sentence.
fn parser_of<'a>(alloc: Global, tables: &'a Tables, tokens: &'a [Sym]) -> Parser<'a> {
    Parser {
        alloc,
        tables,
        tokens,
        open: Vec::new(alloc),
        steps: MOST_STEPS,
    }
}

/// Two parses of a sentence that part at a cell by two choices, where there are such, and in how
/// many steps they were sought; as many as may be taken, where not all ways were gone.
pub fn fork_of(
    alloc: Global,
    tables: &Tables,
    tokens: &[Sym],
    cell: Cell,
    choices: (Choice, Choice),
) -> Made<(Option<Fork>, usize)> {
    let mut parser = parser_of(alloc, tables, tokens);
    for parse in &parser.met(cell)? {
        let Some(first) = parser.ending(parse, choices.0)? else {
            continue;
        };
        if let Some(second) = parser.ending(parse, choices.1)? {
            let fork = Fork {
                before: Vec::from_slice(alloc, &parse.deeds)?,
                first,
                second,
                dot: parse.place,
            };
            return Ok((Some(fork), MOST_STEPS.saturating_sub(parser.steps)));
        }
    }
    Ok((None, MOST_STEPS.saturating_sub(parser.steps)))
}

/// Whether a grammar derives a sentence: whether it can be parsed in some way, whatever precedences
/// say; `None` where not all ways were gone.
pub fn derives<'a>(alloc: Global, tables: &'a Tables, tokens: &'a [Sym]) -> Made<Option<bool>> {
    let mut parser = parser_of(alloc, tables, tokens);
    parser.open.push(Parse {
        states: Vec::from_slice(alloc, &[0])?,
        place: 0,
        deeds: Vec::new(alloc),
    })?;
    for _ in 0..MOST_STEPS {
        let Some(parse) = parser.open.pop() else {
            return Ok(Some(false));
        };
        if parser.go_on(&parse)? {
            return Ok(Some(true));
        }
    }
    Ok(None)
}

/// Whether so many steps over one sentence are all that may be taken.
pub fn is_late(steps: usize) -> bool {
    steps >= MOST_STEPS
}
