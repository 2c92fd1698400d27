//! Rows of bits, in words of 64: sets of numbers that are united word by word.

ghost use Rattle.std.specs.Prelude.{ℕ, ◌≡◌, ◌+◌, ◌*◌, ◌<◌, ◌≤◌, ◌↔◌, ◌⊎◌, true, false, length};
ghost use Rattle.std.specs.Prelude.{IfOk, IsTrue};
ghost use Rattle.ysymbols.specs.Grammar.{most_rules};
ghost use Rattle.ybitsets.specs.Rows.{BitRows, Holds, IsSized, AddsFrom, GrowsIf, room, unite};
ghost use Rattle.ybitsets.specs.Limits.{most_rows};

use std::alloc::{AllocError, Global};
use std::marker::Model;

/// Bits in each word.
const BITS: usize = 64;

/// Rows of bits. Bits are only ever set; `clear` alone unsets them.
#[derive(Drop)]
pub struct Rows {
    height: usize,
    width: usize,
    span: usize,
    words: Vec<u64>,
}

impl Model for Rows {
    ghost use Rattle.ybitsets.specs.Rows.{BitRows, IsBitRows};

    ghost Value = { BitRows };

    ghost view = { λ m.
        record { height = m.height; width = m.width; span = m.span; words = m.words.items } };

    ghost invariant = { λ m. IsBitRows (
        record { height = m.height; width = m.width; span = m.span; words = m.words.items }) };
}

impl Rows {
    /// Rows with no bit set. It fails only when memory runs out.
    pub fn new(alloc: Global, height: usize, width: usize) -> Result<Rows, AllocError>
        requires tall { height ≤ most_rows }
        requires wide { width ≤ most_rules }
        ensures sized { IfOk result (λ m. IsSized height width m) }
        ensures empty { IfOk result (λ m. (r c : ℕ) → Holds m r c → ⊥) }
    {
        let span = width / BITS + 1;
        let words = vec![in alloc; 0; height * span]?;
        Ok(Rows {
            height,
            width,
            span,
            words,
        })
    }

    /// How many rows there are.
    pub fn height(&self) -> usize
        ensures { result ≡ self.now.height }
    {
        self.height
    }

    /// Whether row `r` has column `c`.
    pub fn has(&self, r: usize, c: usize) -> bool
        requires row { r < self.now.height }
        requires column { c < self.now.width }
        ensures { IsTrue result ↔ Holds self.now r c }
    {
        let word = self.words[r * self.span + c / BITS];
        (word >> (c % BITS)) & 1 == 1
    }

    /// A column after `c`, a column that row `r` lacks. The row has no column between them: it is
    /// the next one that the row has in the same word, or else where the word ends.
    pub fn after(&self, r: usize, c: usize) -> usize
        requires row { r < self.now.height }
        requires column { c < self.now.width }
        requires absent { Holds self.now r c → ⊥ }
        ensures further { c < result }
        ensures within { result ≤ self.now.width }
        ensures none { (k : ℕ) → c ≤ k → k < result → Holds self.now r k → ⊥ }
    {
        let rest = self.words[r * self.span + c / BITS] >> (c % BITS);
        let step = (rest.trailing_zeros() as usize).min(BITS - c % BITS);
        c + step.min(self.width - c)
    }

    /// The first column from `c` on that row `r` has, or the width where it has no more.
    pub fn next(&self, r: usize, c: usize) -> usize
        requires row { r < self.now.height }
        requires column { c ≤ self.now.width }
        ensures further { c ≤ result }
        ensures within { result ≤ self.now.width }
        ensures none { (k : ℕ) → c ≤ k → k < result → Holds self.now r k → ⊥ }
        ensures has { result < self.now.width → Holds self.now r result }
    {
        let mut at = c;
        while at < self.width && !self.has(r, at) {
            at = self.after(r, at);
        }
        at
    }

    /// Unsets all bits.
    pub fn clear(&mut self)
        ensures rows { self.new.height ≡ self.old.height }
        ensures columns { self.new.width ≡ self.old.width }
        ensures empty { (r c : ℕ) → Holds self.new r c → ⊥ }
    {
        self.words.fill(0);
    }

    /// Unites one word with `more`, and says whether it grew.
    fn unite(&mut self, at: usize, more: u64) -> bool
        requires { at < length self.old.words }
        ensures words { self.new ≡ unite self.old at more }
        ensures fewer { room self.new ≤ room self.old }
        ensures fewer_if { result ≡ true → room self.new < room self.old }
        ensures unchanged { result ≡ false → self.new ≡ self.old }
    {
        let before = self.words[at];
        let after = before | more;
        self.words[at] = after;
        after != before
    }

    /// Sets a bit, and says whether it was unset.
    pub fn mark(&mut self, r: usize, c: usize) -> bool
        requires row { r < self.old.height }
        requires column { c < self.old.width }
        ensures exact { (i k : ℕ) →
            Holds self.new i k ↔ (Holds self.old i k ⊎ ((i ≡ r) × (k ≡ c))) }
        ensures grown { GrowsIf self.old self.new result }
    {
        let at = r * self.span + c / BITS;
        self.unite(at, 1 << (c % BITS))
    }

    /// Adds to row `to` what row `from` has, and says whether it grew.
    pub fn add_row(&mut self, to: usize, from: usize) -> bool
        requires to_in { to < self.old.height }
        requires from_in { from < self.old.height }
        ensures adds { AddsFrom self.old self.new to self.old from }
        ensures grown { GrowsIf self.old self.new result }
    {
        let mut grew = false;
        for k in 0..self.span {
            let more = self.words[from * self.span + k];
            let at = to * self.span + k;
            grew |= self.unite(at, more);
        }
        grew
    }

    /// Adds to row `to` what row `from` of other rows has, and says whether it grew.
    pub fn add_from(&mut self, to: usize, other: &Rows, from: usize) -> bool
        requires to_in { to < self.old.height }
        requires from_in { from < other.now.height }
        requires same { other.now.width ≡ self.old.width }
        ensures adds { AddsFrom self.old self.new to other.now from }
        ensures grown { GrowsIf self.old self.new result }
    {
        let mut grew = false;
        for k in 0..self.span {
            let more = other.words[from * self.span + k];
            let at = to * self.span + k;
            grew |= self.unite(at, more);
        }
        grew
    }
}
