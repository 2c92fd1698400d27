//! The numbers of tokens in a parser: those that the file gives, and for other tokens those that
//! byacc or bison would give; and by which array or search they are translated.

use crate::arrays::put_array;
use std::alloc::Global;
use ycode::Code;
use yexplain::lines::is_inner;
use yexplain::reads::{Made, is_reachable, is_set, left_of, name_of, set};
use yfiles::output::Output;
use ylalr::{ERROR, token_count};
use yparts::parts::{By, Parts};
use ysymbols::{Grammar, Sym, let_go};

/// The most that an array of tokens by their numbers goes up to.
const MOST: usize = 65_535;

/// The number of `error` where no other token has it.
const ERROR_NUMBER: usize = 256;

/// The number of what is no token in byacc's order.
const NO_TOKEN: usize = 2_147_483_647;

/// The token for what is no token, where a file names it.
const UNDEFINED: &[u8] = b"YYUNDEF";

/// The numbers of tokens in a parser.
pub struct Numbering {
    /// The number of each token, where it has one.
    pub numbers: Vec<Option<usize>>,
    /// The number of what is no token.
    pub undefined: usize,
    /// The token of each number up to a greatest; how many tokens there are for none.
    pub array: Vec<usize>,
    /// The tokens with numbers above, in the order of these.
    pub above: Vec<(usize, Sym)>,
    /// Whether the array is another one than that of the grammar.
    pub is_changed: bool,
    /// The symbols in the order in which bison numbers them, the tokens first.
    pub order: Vec<Sym>,
    /// Whether that of the tokens is another one than that of the grammar.
    pub is_reordered: bool,
    /// The numbers that bison gives the rules, which are counted among those that can be reached.
    pub rules: Vec<usize>,
    /// The numbers of tokens in a report, which bison gives also where a parser has those of
    /// symbols.
    pub told: Vec<Option<usize>>,
    /// The token for what is no token, where the file names it.
    pub none: Option<Sym>,
}

impl Drop for Numbering {
    // A call in each owner, which keeps their proofs short.
    fn drop(self) {
        let_go!(self: Numbering {
            numbers, undefined, array, above, is_changed, order, is_reordered, rules, told,
            none
        });
    }
}

/// The number that a grammar gives a token.
pub fn number_of(grammar: &Grammar, token: Sym) -> Option<u32> {
    if token < grammar.symbols() {
        grammar.number(token)
    } else {
        None
    }
}

/// Numbers from 257 on that no token has.
struct Free {
    /// The numbers that tokens have, sorted.
    taken: Vec<usize>,
    /// How many of these are below the next one.
    passed: usize,
    /// The next one, unless a token has it.
    next: usize,
}

impl Drop for Free {
    // A call in each owner, which keeps their proofs short.
    fn drop(self) {
        let_go!(self: Free { taken, passed, next });
    }
}

impl Free {
    /// All that are free beside these.
    fn beside(alloc: Global, numbers: &[Option<usize>]) -> Made<Free> {
        let mut taken = Vec::new(alloc);
        for number in numbers {
            if let Some(number) = number {
                taken.push(*number)?;
            }
        }
        taken.sort()?;
        Ok(Free {
            taken,
            passed: 0,
            next: ERROR_NUMBER.saturating_add(1),
        })
    }

    /// Takes the least.
    fn take(&mut self) -> usize {
        // each number that is taken is passed once
        for _ in 0..self.taken.len() {
            match self.taken.get(self.passed).copied() {
                Some(taken) if taken <= self.next => {
                    if taken == self.next {
                        self.next = self.next.saturating_add(1);
                    }
                    self.passed = self.passed.saturating_add(1);
                }
                _ => break,
            }
        }
        let number = self.next;
        self.next = number.saturating_add(1);
        number
    }
}

/// The numbers that tokens have whoever gives the others: the end, literals, and what the file
/// gives numbers; `error`, unless it or another token was given one.
fn own_numbers(alloc: Global, grammar: &Grammar, parts: &Parts<'_>) -> Made<Vec<Option<usize>>> {
    let mut numbers = Vec::new(alloc);
    for token in 0..token_count(grammar) {
        let is_own = token == 0 || name_of(grammar, token).starts_with(b"'");
        let number = number_of(grammar, token).map(|number| number as usize);
        numbers.push(if is_own { number } else { None })?;
    }
    let mut is_free = true;
    for given in &parts.numbers {
        is_free = is_free && given.number != ERROR_NUMBER;
        if let Some(number) = numbers.get_mut(given.token) {
            *number = Some(given.number);
        }
    }
    if let (true, Some(number)) = (is_free, numbers.get_mut(ERROR)) {
        *number = number.or(Some(ERROR_NUMBER));
    }
    Ok(numbers)
}

/// Gives numbers to the tokens that have none as byacc does, the least that are free in the order
/// in which the file mentions them; `error` comes last, with one above all that the file gives.
fn fill_by_byacc(alloc: Global, numbers: &mut Vec<Option<usize>>, parts: &Parts<'_>) -> Made<()> {
    let mut free = Free::beside(alloc, numbers)?;
    let mut order = Vec::new(alloc);
    for mention in &parts.mentioned {
        order.push(mention.symbol)?;
    }
    for token in 0..numbers.len() {
        order.push(token)?;
    }
    for token in &order {
        if *token != ERROR {
            if let Some(number) = numbers.get_mut(*token) {
                if number.is_none() {
                    *number = Some(free.take());
                }
            }
        }
    }
    if numbers.get(ERROR).copied().flatten().is_none() {
        for given in &parts.numbers {
            free.next = free.next.max(given.number.saturating_add(1));
        }
        if let Some(number) = numbers.get_mut(ERROR) {
            *number = Some(free.take());
        }
    }
    Ok(())
}

/// The nonterminals in the order of bison: each where it is a left side first, and those of the
/// inner actions of a rule after its left side.
fn lefts_of(alloc: Global, grammar: &Grammar) -> Made<Vec<Sym>> {
    let mut is_placed = vec![in alloc; false; grammar.symbols()]?;
    let (mut lefts, mut inner) = (Vec::new(alloc), Vec::new(alloc));
    for rule in 0..grammar.rules() {
        let Some(left) = left_of(grammar, rule) else {
            continue;
        };
        if is_inner(grammar, rule) {
            inner.push(left)?;
            continue;
        }
        if !is_set(&is_placed, left) {
            set(&mut is_placed, left, true);
            lefts.push(left)?;
        }
        lefts.extend_from_slice(inner.as_slice())?;
        inner.clear();
    }
    Ok(lefts)
}

/// The symbols in the order of bison: after its own each token where `%token` lists it first, or a
/// string that stands for it is before that; one that no `%token` lists where it is mentioned first;
/// then the nonterminals.
fn order_of(alloc: Global, grammar: &Grammar, parts: &Parts<'_>) -> Made<Vec<Sym>> {
    let count = token_count(grammar);
    let mut is_listed = vec![in alloc; false; count]?;
    for mention in &parts.mentioned {
        if mention.by == By::Token {
            set(&mut is_listed, mention.symbol, true);
        }
    }
    let mut all = Vec::from_slice(alloc, &[0, ERROR])?;
    all.push(grammar.find(UNDEFINED).unwrap_or(0))?;
    for mention in &parts.mentioned {
        let waits = mention.by == By::Name && is_set(&is_listed, mention.symbol);
        all.push(if waits { 0 } else { mention.symbol })?;
    }
    for token in 0..count {
        all.push(token)?;
    }
    let mut is_placed = vec![in alloc; false; count]?;
    let mut order = Vec::with_capacity(alloc, count)?;
    for token in &all {
        if is_placed.get(*token) == Some(&false) {
            set(&mut is_placed, *token, true);
            order.push(*token)?;
        }
    }
    let lefts = lefts_of(alloc, grammar)?;
    order.extend_from_slice(lefts.as_slice())?;
    Ok(order)
}

/// The numbers that bison gives the rules.
fn rules_of(alloc: Global, grammar: &Grammar) -> Made<Vec<usize>> {
    let (mut numbers, mut number) = (Vec::new(alloc), 0usize);
    for rule in 0..grammar.rules() {
        numbers.push(number)?;
        let left = left_of(grammar, rule).unwrap_or(0);
        if rule == 0 || is_reachable(grammar, left) {
            number = number.saturating_add(1);
        }
    }
    Ok(numbers)
}

/// Gives numbers to the tokens that have none as bison does, above all others in their order, of
/// which what is no token is the third. Gives the number of that.
fn fill_by_bison(numbers: &mut Vec<Option<usize>>, grammar: &Grammar, order: &[Sym]) -> usize {
    let mut greatest = ERROR_NUMBER;
    for number in numbers.iter() {
        greatest = greatest.max(number.unwrap_or(0));
    }
    let (named, mut undefined) = (grammar.find(UNDEFINED), None);
    if let Some(token) = named {
        undefined = numbers.get(token).copied().flatten();
    }
    if numbers.get(ERROR).copied().flatten().is_none() {
        greatest = greatest.saturating_add(1);
        if let Some(number) = numbers.get_mut(ERROR) {
            *number = Some(greatest);
        }
    }
    if undefined.is_none() {
        greatest = greatest.saturating_add(1);
    }
    let undefined = undefined.unwrap_or(greatest);
    for token in order {
        let Some(number) = numbers.get_mut(*token) else {
            continue;
        };
        if number.is_none() && named == Some(*token) {
            *number = Some(undefined);
        } else if number.is_none() {
            greatest = greatest.saturating_add(1);
            *number = Some(greatest);
        }
    }
    undefined
}

impl Numbering {
    /// The numbers of a grammar's tokens in a parser with this code and these parts, as bison gives
    /// them or as byacc does.
    pub fn of(
        alloc: Global,
        grammar: &Grammar,
        parts: &Parts<'_>,
        code: &Code,
        is_bison: bool,
    ) -> Made<Numbering> {
        let mut numbers = own_numbers(alloc, grammar, parts)?;
        let order = order_of(alloc, grammar, parts)?;
        let mut undefined = NO_TOKEN;
        if is_bison {
            undefined = fill_by_bison(&mut numbers, grammar, &order);
        } else {
            fill_by_byacc(alloc, &mut numbers, parts)?;
        }
        let told = Vec::from_slice(alloc, &numbers)?;
        if is_bison && parts.options.raw {
            undefined = code.tokens;
            for (token, number) in numbers.iter_mut().enumerate() {
                *number = Some(token);
            }
        }
        let (mut is_changed, mut is_reordered) = (false, false);
        for (token, number) in numbers.iter().enumerate() {
            let own = number_of(grammar, token).map(|number| number as usize);
            is_changed = is_changed || *number != own;
            is_reordered = is_reordered || order.get(token) != Some(&token);
        }
        let mut numbering = Numbering {
            numbers,
            undefined,
            array: Vec::from_slice(alloc, code.numbers.as_slice())?,
            above: Vec::new(alloc),
            is_changed,
            order,
            is_reordered,
            rules: rules_of(alloc, grammar)?,
            told,
            none: grammar.find(UNDEFINED),
        };
        if is_changed {
            numbering.place_all(alloc, code.tokens)?;
        }
        Ok(numbering)
    }

    /// Puts each token at its number.
    fn place_all(&mut self, alloc: Global, none: usize) -> Made<()> {
        let mut greatest = ERROR_NUMBER;
        for number in self.numbers.iter() {
            let number = number.unwrap_or(0);
            if number <= MOST {
                greatest = greatest.max(number);
            }
        }
        self.array = vec![in alloc; none; greatest.saturating_add(1)]?;
        for token in 0..self.numbers.len() {
            let Some(number) = self.number(token) else {
                continue;
            };
            match self.array.get_mut(number) {
                Some(place) => *place = token,
                None => self.above.push((number, token))?,
            }
        }
        self.above.sort()?;
        Ok(())
    }

    /// The number of a token, where it has one.
    pub fn number(&self, token: Sym) -> Option<usize> {
        self.numbers.get(token).copied().flatten()
    }

    /// Writes the tokens above the array, and how one is sought.
    pub fn put_above(&self, alloc: Global, out: &mut Output, none: usize) -> Made<()> {
        let Some((greatest, _)) = self.above.last().copied() else {
            return Ok(());
        };
        let (mut numbers, mut tokens) = (Vec::new(alloc), Vec::new(alloc));
        for (number, token) in &self.above {
            numbers.push(*number)?;
            tokens.push(*token)?;
        }
        put_array(out, "yyabove", &numbers, greatest);
        put_array(out, "yyabovetoken", &tokens, none);
        out.put("#define YYNABOVE ");
        out.number(self.above.len());
        out.put("\n");
        out.put(SOUGHT);
        Ok(())
    }
}

/// How a token above the array is sought.
const SOUGHT: &str = r##"
/* The token of a number above those of the array. */
static int
yysought (int yynumber)
{
  int yyfrom = 0;
  int yyto = YYNABOVE;
  while (yyfrom < yyto)
    {
      int yymiddle = (yyfrom + yyto) / 2;
      if (yyabove[yymiddle] < yynumber)
        yyfrom = yymiddle + 1;
      else
        yyto = yymiddle;
    }
  return yyfrom < YYNABOVE && yyabove[yyfrom] == yynumber ? yyabovetoken[yyfrom] : YYNTOKENS;
}
#define YYSOUGHT(c) yysought (c)
"##;
