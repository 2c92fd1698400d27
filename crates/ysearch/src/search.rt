//! The shortest ways to a state on which complete items have a token as their lookahead, by the
//! canonical LR(1) items: sought backward from the state, the least possible length first.

use crate::budget::Share;
use crate::moves::Moves;
use crate::needs::{Need, Needs};
use crate::queue::Queue;
use crate::shortest::{Digest, NO_TOKENS, Shortest};
use std::alloc::Global;
use std::collections::{HashMap, HashSet};
use yexplain::reads::Made;
use ylalr::{Automaton, Item};
use ysymbols::{Sym, let_go};

/// The most spots that the search for one way meets, and that for several ways.
const MOST_SPOTS: usize = 200_000;

const MOST_FOR_SEVERAL: usize = 30_000;

/// How many spots any search may meet, as long as there are steps.
const LEAST_SPOTS: usize = 2_000;

/// How many spots all searches for one way of a run may meet together, and all those for several,
/// beside those that each of them may meet in any case.
const ALL_FOR_ONE: usize = 2_000_000;

const ALL_FOR_SEVERAL: usize = 1_000_000;

/// How many steps of all kinds a run may take: spots that are met, states and items that are looked
/// at for them, symbols of forms, steps of trials.
pub const ALL_STEPS: usize = 16_000_000;

/// With so few steps left no further search is begun.
const TOO_FEW_STEPS: usize = 1_000_000;

/// A cell, and the rules that are all to be possible there; one that is left out is no condition.
#[derive(Clone, Copy, Drop)]
pub struct Target {
    /// The state.
    pub state: usize,
    /// The token.
    pub token: Sym,
    /// A rule that has to be possible.
    pub first: Option<usize>,
    /// Another rule that has to be possible.
    pub second: Option<usize>,
}

/// What a search comes to.
#[derive(Drop)]
pub enum Found {
    /// The symbols of a shortest way, from the first state on.
    Way(Vec<Sym>),
    /// There is no way.
    Nothing,
    /// The search took too long.
    Late,
}

/// A state on a way, and what has to hold there for each of two rules.
#[derive(Clone, Copy, Drop, PartialEq, Eq, Hash)]
struct Spot {
    state: usize,
    first: Need,
    second: Need,
}

/// A spot that was met, the length and the digest of the way from it, and the spot after it.
#[derive(Clone, Copy, Drop)]
struct Node {
    spot: Spot,
    length: u64,
    digest: Digest,
    next: Option<usize>,
}

/// A search for the ways to a cell.
pub struct Search {
    token: Sym,
    /// How often a spot may be left: as many ways are found.
    tries: usize,
    /// How many spots it may still meet.
    left: usize,
    /// With so few steps left of all of a run, it ends.
    end: usize,
    nodes: Vec<Node>,
    queue: Queue,
    /// How often each spot was left; where several ways are wanted, with which lists of tokens.
    met: HashMap<Spot, usize>,
    seen: HashSet<(Spot, Digest)>,
    /// What has to hold for each item of a state with its dot at 0, once that was looked for: the
    /// needs from one place to another.
    opened: HashMap<(usize, Item), (usize, usize)>,
    needs: Vec<Need>,
}

impl Drop for Search {
    // A call in each owner, which keeps their proofs short.
    fn drop(self) {
        let_go!(self: Search { token, tries, left, end, nodes, queue, met, seen, opened, needs });
    }
}

/// What searches in one automaton share.
pub struct Finder {
    alloc: Global,
    /// The shortest sentences of symbols.
    pub shortest: Shortest,
    moves: Moves,
    needs: Needs,
    /// How many spots searches for one way may meet, and those for several.
    one: Share,
    several: Share,
    /// How many steps of all kinds may be taken.
    pub steps: Share,
}

impl Drop for Finder {
    // A call in each owner, which keeps their proofs short.
    fn drop(self) {
        let_go!(self: Finder { alloc, shortest, moves, needs, one, several, steps });
    }
}

impl Search {
    /// The next spot that may be left, and is.
    fn take(&mut self) -> Made<Option<(usize, Node)>> {
        for _ in 0..self.nodes.len() {
            let Some((_, number)) = self.queue.take() else {
                break;
            };
            let Some(node) = self.nodes.get(number).copied() else {
                break;
            };
            let times = self.met.get(&node.spot).copied().unwrap_or(0);
            let may_be_left = times < self.tries
                && (self.tries == 1 || self.seen.insert((node.spot, node.digest))?);
            if may_be_left {
                self.met.insert(node.spot, times.saturating_add(1))?;
                return Ok(Some((number, node)));
            }
        }
        Ok(None)
    }
}

impl Finder {
    /// What searches in this automaton share.
    pub fn new(alloc: Global, automaton: &Automaton) -> Made<Finder> {
        let grammar = automaton.grammar();
        let shortest = Shortest::new(alloc, grammar)?;
        let moves = Moves::new(alloc, automaton, &shortest)?;
        Ok(Finder {
            alloc,
            shortest,
            moves,
            needs: Needs::new(alloc, grammar.symbols())?,
            one: Share::new(ALL_FOR_ONE, 8, (LEAST_SPOTS, MOST_SPOTS)),
            several: Share::new(ALL_FOR_SEVERAL, 8, (LEAST_SPOTS, MOST_FOR_SEVERAL)),
            steps: Share::new(ALL_STEPS, 4, (0, ALL_STEPS)),
        })
    }

    /// Whether there are steps left for further searches.
    pub fn has_steps(&self) -> bool {
        self.steps.left > TOO_FEW_STEPS
    }

    /// Whether what a search allows isn't spent yet, of the steps of all kinds.
    pub fn may_go_on(&self, search: &Search) -> bool {
        self.steps.left > search.end
    }

    /// The shortest way to a cell on which its rules are possible.
    pub fn find(&mut self, automaton: &Automaton, target: Target) -> Made<Found> {
        let mut search = self.search(automaton, target, 1)?;
        self.next(automaton, &mut search)
    }

    /// A search for so many ways, of which no two have the same tokens.
    pub fn search(&mut self, automaton: &Automaton, target: Target, ways: usize) -> Made<Search> {
        let (alloc, grammar) = (self.alloc, automaton.grammar());
        let share = if ways == 1 { self.one } else { self.several };
        let mut search = Search {
            token: target.token,
            tries: ways,
            left: share.part(),
            end: self.steps.left.saturating_sub(self.steps.part()),
            nodes: Vec::new(alloc),
            queue: Queue::new(alloc),
            met: HashMap::new(alloc),
            seen: HashSet::new(alloc),
            opened: HashMap::new(alloc),
            needs: Vec::from_slice(alloc, &[Need::Free])?,
        };
        let spot = Spot {
            state: target.state,
            first: Need::complete(grammar, target.first),
            second: Need::complete(grammar, target.second),
        };
        let node = Node {
            spot,
            length: 0,
            digest: NO_TOKENS,
            next: None,
        };
        self.put(&mut search, node)?;
        Ok(search)
    }

    /// The next way of a search, none of them shorter than those before.
    pub fn next(&mut self, automaton: &Automaton, search: &mut Search) -> Made<Found> {
        for _ in 0..MOST_SPOTS {
            if search.left == 0 || !self.may_go_on(search) {
                break;
            }
            let Some((number, node)) = search.take()? else {
                return Ok(Found::Nothing);
            };
            let spot = node.spot;
            let is_free = spot.first == Need::Free && spot.second == Need::Free;
            // where several ways are wanted, each is whole
            if is_free && (search.tries == 1 || spot.state == 0) {
                return Ok(Found::Way(self.way(search, node)?));
            }
            if spot.first.is_closed() || spot.second.is_closed() {
                self.open(automaton, search, node)?;
            } else {
                self.go_back(automaton, search, number, node)?;
            }
        }
        Ok(Found::Late)
    }

    /// A spot waits with the length of the shortest way that goes over it.
    fn put(&mut self, search: &mut Search, node: Node) -> Made<()> {
        let rest = self.moves.lengths.length(node.spot.state);
        self.steps.spend(1);
        if search.tries == 1 {
            self.one.spend(1);
        } else {
            self.several.spend(1);
        }
        search.left = search.left.saturating_sub(1);
        let number = search.nodes.len();
        search.nodes.push(node)?;
        search.queue.put(node.length.saturating_add(rest), number)
    }

    /// What has to hold in a state, so that a need of it is fulfilled: any one of these.
    fn opened(
        &mut self,
        automaton: &Automaton,
        search: &mut Search,
        state: usize,
        need: Need,
    ) -> Made<(usize, usize)> {
        let Need::Item(item) = need else {
            return Ok((0, 1));
        };
        if let Some(stretch) = search.opened.get(&(state, item)) {
            return Ok(*stretch);
        }
        let (shortest, token) = (&self.shortest, search.token);
        let needs = self
            .needs
            .of(self.alloc, automaton, shortest, (state, item), token)?;
        let looked = self.needs.looked;
        self.steps.spend(looked);
        let start = search.needs.len();
        search.needs.extend_from_slice(&needs)?;
        let stretch = (start, search.needs.len());
        search.opened.insert((state, item), stretch)?;
        Ok(stretch)
    }

    /// Goes on from a spot with an item with its dot at 0 to what has to hold in the state itself.
    fn open(&mut self, automaton: &Automaton, search: &mut Search, node: Node) -> Made<()> {
        let state = node.spot.state;
        let firsts = self.opened(automaton, search, state, node.spot.first)?;
        let seconds = self.opened(automaton, search, state, node.spot.second)?;
        for place in firsts.0..firsts.1 {
            if search.left == 0 {
                break;
            }
            let first = search.needs.get(place).copied().unwrap_or(Need::Free);
            for other in seconds.0..seconds.1 {
                let second = search.needs.get(other).copied().unwrap_or(Need::Free);
                let spot = Spot {
                    state,
                    first,
                    second,
                };
                self.put(search, Node { spot, ..node })?;
            }
        }
        Ok(())
    }

    /// Goes on to the states before the state.
    fn go_back(
        &mut self,
        automaton: &Automaton,
        search: &mut Search,
        number: usize,
        node: Node,
    ) -> Made<()> {
        let (spot, token, next) = (node.spot, search.token, Some(number));
        let symbol = self.moves.symbol(spot.state);
        let length = node.length.saturating_add(self.shortest.length(symbol));
        let digest = self.shortest.digest(symbol).before(node.digest);
        let count = self.moves.before.of(spot.state).len();
        self.steps.spend(count);
        for place in 0..count {
            let Some(state) = self.moves.before.of(spot.state).get(place).copied() else {
                break;
            };
            let firsts = spot.first.before(automaton, state, token);
            let seconds = spot.second.before(automaton, state, token);
            if let (Some(first), Some(second)) = (firsts, seconds) {
                let spot = Spot {
                    state,
                    first,
                    second,
                };
                let node = Node {
                    spot,
                    length,
                    digest,
                    next,
                };
                self.put(search, node)?;
            }
        }
        Ok(())
    }

    /// The symbols of a way: the shortest to the spot, and then those of the spots after it.
    fn way(&self, search: &Search, node: Node) -> Made<Vec<Sym>> {
        let mut symbols = self.moves.way(self.alloc, node.spot.state)?;
        let mut next = node.next;
        for _ in 0..search.nodes.len() {
            let Some(node) = search.nodes.get(next.unwrap_or(usize::MAX)) else {
                break;
            };
            symbols.push(self.moves.symbol(node.spot.state))?;
            next = node.next;
        }
        Ok(symbols)
    }
}
