//! Sets of tokens as bits, each set once.

ghost use Rattle.std.specs.Prelude.{ℕ, ◌≡◌, ◌+◌, ◌*◌, ◌/◌, ◌<◌, ◌≤◌, ◌^◌, [], true, false, length};
ghost use Rattle.std.specs.Prelude.{All, IfOk, OnOk, replicate, nat_eq, slice_index_or};
ghost use Rattle.std.specs.Int.{bit_at};
ghost use Rattle.ysymbols.specs.Grammar.{most_symbols};
ghost use Rattle.ysymbols.specs.Names.{is_among};
ghost use Rattle.ycode.specs.Bits.{AreBits, HasSet, IsSets, KeepsSets, AreListed, byte_for};
ghost use Rattle.ycode.specs.Bits.{bytes_for, and_set, with_set, number_of};

use crate::lists::Lists;
use std::alloc::{AllocError, Global};
use std::marker::Model;
use ysymbols::let_go;

/// Bits in each byte.
const BITS: usize = 8;

/// Sets of tokens, as bits in bytes. Set 0 has all tokens, and stands for no other set.
pub struct Sets {
    /// How many bytes a set has.
    span: usize,
    /// How many sets there are.
    count: usize,
    bytes: Vec<usize>,
    /// The bytes of each set but the first.
    others: Lists,
}

impl Drop for Sets {
    // A call in each owner, which keeps their proofs short.
    fn drop(self) {
        let_go!(self: Sets { span, count, bytes, others });
    }
}

impl Model for Sets {
    ghost use Rattle.ycode.specs.Bits.{SetsValue, IsSets};

    ghost Value = { SetsValue };

    ghost view = { λ s. record {
      span = s.span;
      count = s.count;
      bytes = s.bytes.items;
      others = s.others;
    } };

    ghost invariant = { λ s. IsSets (record {
      span = s.span;
      count = s.count;
      bytes = s.bytes.items;
      others = s.others;
    }) };
}

/// Whether a token is a member.
fn is_member(members: &[bool], t: usize) -> bool
    ensures { result ≡ slice_index_or members.now t false }
{
    t < members.len() && members[t]
}

/// The byte with the members from `at` on, the first in its lowest bit.
fn byte_of(members: &[bool], at: usize) -> usize
    requires { at < 2 ^ 63 }
    ensures bits { (k : ℕ) → k < 8 → nat_eq (bit_at result k) 1
        ≡ slice_index_or members.now (at + k) false }
    ensures small { result < 256 }
    ensures value { result ≡ byte_for members.now at }
{
    let mut byte = 0;
    for k in 0..BITS {
        if is_member(members, at + k) {
            byte |= 1 << k;
        }
    }
    byte
}

/// The bytes of a set.
fn bytes_of(alloc: Global, members: &[bool], span: usize) -> Result<Vec<usize>, AllocError>
    requires { span < 2 ^ 32 }
    ensures len { IfOk result (λ v. length v.items ≡ span) }
    ensures bits { IfOk result (λ v. AreBits v.items 0 span members.now) }
    ensures small { IfOk result (λ v. All (λ b. b < 256) v.items) }
    ensures value { IfOk result (λ v. v.items ≡ bytes_for span members.now) }
{
    let mut bytes = Vec::with_capacity(alloc, span)?;
    for k in 0..span {
        bytes.push(byte_of(members, BITS * k))?;
    }
    Ok(bytes)
}

impl Sets {
    /// One set, that of all of so many tokens. It fails only when memory runs out.
    pub fn new(alloc: Global, tokens: usize) -> Result<Sets, AllocError>
        requires some { 0 < tokens }
        requires few { tokens ≤ most_symbols }
        ensures all { IfOk result (λ s. HasSet s 0 (replicate tokens true)) }
        ensures count { IfOk result (λ s. s.count ≡ 1) }
        ensures span { IfOk result (λ s. s.span ≡ (tokens + 7) / 8) }
        ensures bytes { IfOk result (λ s. s.bytes
            ≡ bytes_for ((tokens + 7) / 8) (replicate tokens true)) }
        ensures others { IfOk result (λ s. s.others ≡ []) }
    {
        let span = tokens.div_ceil(BITS);
        let all = vec![in alloc; true; tokens]?;
        let bytes = bytes_of(alloc, &all, span)?;
        Ok(Sets {
            span,
            count: 1,
            bytes,
            others: Lists::new(alloc),
        })
    }

    /// Adds a set. It fails only when memory runs out; what the sets are then is not said.
    fn add(&mut self, alloc: Global, set: &[usize]) -> Result<usize, AllocError>
        requires fresh { is_among self.old.others set.now ≡ false }
        requires len { length set.now ≡ self.old.span }
        requires small { All (λ b. b < 256) set.now }
        ensures number { IfOk result (λ n. n ≡ self.old.count) }
        ensures exact { OnOk result (self.new ≡ and_set self.old set.now) }
        ensures sets { IsSets self.old }
    {
        let n = self.count;
        self.others.push(alloc, set)?;
        self.bytes.extend_from_slice(set)?;
        self.count += 1;
        Ok(n)
    }

    /// The number of this set, now that it is among the sets: another than 0. It fails only when
    /// memory runs out; what the sets are then is not said.
    pub fn put(&mut self, alloc: Global, members: &[bool]) -> Result<usize, AllocError>
        requires { AreListed self.old }
        ensures set { IfOk result (λ n. HasSet self.new n members.now) }
        ensures other { IfOk result (λ n. 0 < n) }
        ensures keeps { OnOk result (KeepsSets self.old self.new) }
        ensures listed { OnOk result (AreListed self.new) }
        ensures exact { OnOk result (self.new
            ≡ with_set self.old (bytes_for self.old.span members.now)) }
        ensures number { IfOk result (λ n. n
            ≡ number_of self.new (bytes_for self.old.span members.now)) }
    {
        let set = bytes_of(alloc, members, self.span)?;
        if let Some(n) = self.others.find(&set) {
            return Ok(n + 1);
        }
        let n = self.add(alloc, &set)?;
        Ok(n)
    }

    /// How many bytes a set has. This call also says that the sets have all of their bytes.
    pub fn span(&self) -> usize
        ensures value { result ≡ self.now.span }
        ensures valid { IsSets self.now }
    {
        self.span
    }

    /// The bytes of all sets.
    pub fn into_bytes(self) -> Vec<usize>
        ensures { result.items ≡ self.bytes }
    {
        let Sets {
            span: _,
            count: _,
            bytes,
            others: _,
        } = self;
        bytes
    }
}
