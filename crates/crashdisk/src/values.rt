//! What a modelled disk keeps of one sector.
ghost use Rattle.std.specs.Prelude.{◌≡◌, ◌<◌, ◌≤◌, ◌+◌, ◌-◌, ℕ, List, [], ◌∷◌, ◌++◌, length, take, drop, replicate};
ghost use Rattle.std.specs.Prelude.{slice_index, slice_index_or, OnOk, OnErr, IfOk, cond, nat_lt};

use std::alloc::{AllocError, Global};
use std::marker::Model;

/// The bytes of one sector.
#[derive(Drop)]
pub(crate) struct Bytes {
    bytes: Vec<u8>,
}

impl Model for Bytes {
    ghost Value = { List ℕ };

    ghost view = { λ b. b.bytes.items };
}

impl Bytes {
    /// So many zeros.
    pub(crate) fn zeros(alloc: Global, count: usize) -> Result<Bytes, AllocError>
        ensures { IfOk result (λ b. b ≡ replicate count 0) }
    {
        let mut bytes = Vec::new(alloc);
        bytes.resize(count, 0)?;
        Ok(Bytes { bytes })
    }

    pub(crate) fn new(bytes: Vec<u8>) -> Bytes
        ensures { result ≡ bytes.items }
    {
        Bytes { bytes }
    }

    /// Zeros from a place on.
    fn cut(&mut self, end: usize)
        ensures long { length self.new ≡ length self.old }
        ensures each { (j : ℕ) → slice_index self.new j ≡ cond (nat_lt j end) (slice_index self.old j) 0 }
        ensures are_bytes { (j : ℕ) → slice_index self.new j < 256 }
    {
        let from = end.min(self.bytes.len());
        self.bytes[from..].fill(0);
    }

    /// Takes these bytes, cut or filled with zeros to as many as there are.
    fn replace(&mut self, bytes: &[u8])
        ensures long { length self.new ≡ length self.old }
        ensures each { (j : ℕ) → j < length self.old → slice_index self.new j ≡ slice_index bytes.now j }
    {
        fill_with(&mut self.bytes, bytes);
    }

    pub(crate) fn as_slice(&self) -> &[u8]
        ensures { result.now ≡ self.now }
    {
        self.bytes.as_slice()
    }

    fn copy(&self, alloc: Global) -> Result<Bytes, AllocError>
        ensures { IfOk result (λ b. b ≡ self.now) }
    {
        let bytes = Vec::from_slice(alloc, self.as_slice())?;
        Ok(Bytes { bytes })
    }
}

/// Puts these bytes there, cut or filled with zeros.
pub(crate) fn fill_with(out: &mut [u8], bytes: &[u8])
    ensures { (j : ℕ) → j < length out.old → slice_index out.new j ≡ slice_index bytes.now j }
{
    let count = bytes.len().min(out.len());
    let (front, back) = out.split_at_mut(count);
    front.copy_from_slice(&bytes[..count]);
    back.fill(0);
}

/// The values of a sector, the oldest first and the present one last.
#[derive(Drop)]
pub(crate) struct Values {
    list: Vec<Bytes>,
}

impl Model for Values {
    ghost Value = { List (List ℕ) };

    ghost view = { λ v. v.list.items };
}

impl Values {
    /// A sector with one value.
    pub(crate) fn new(alloc: Global, present: Bytes) -> Result<Values, AllocError>
        ensures { IfOk result (λ v. v ≡ present ∷ []) }
    {
        let mut list = Vec::new(alloc);
        list.push(present)?;
        Ok(Values { list })
    }

    pub(crate) fn count(&self) -> usize
        ensures { result ≡ length self.now }
    {
        self.list.len()
    }

    pub(crate) fn present(&self) -> &[u8]
        requires { 0 < length self.now }
        ensures { result.now ≡ slice_index_or self.now (length self.now - 1) [] }
    {
        self.list[self.list.len() - 1].as_slice()
    }

    /// Value number n, counted from the oldest.
    pub(crate) fn value(&self, n: usize) -> &[u8]
        requires { n < length self.now }
        ensures { result.now ≡ slice_index_or self.now n [] }
    {
        self.list[n].as_slice()
    }

    pub(crate) fn copy(&self, alloc: Global) -> Result<Values, AllocError>
        ensures { IfOk result (λ v. v ≡ self.now) }
    {
        let mut list = Vec::new(alloc);
        for value in self.list.iter() {
            list.push(value.copy(alloc)?)?;
        }
        Ok(Values { list })
    }

    /// One value more, which is the present one now.
    pub(crate) fn push(&mut self, value: Bytes) -> Result<(), AllocError>
        ensures ok { OnOk result (self.new ≡ self.old ++ value ∷ []) }
        ensures err { OnErr result (self.new ≡ self.old) }
    {
        self.list.push(value)?;
        Ok(())
    }

    /// Takes back the value that was pushed last.
    pub(crate) fn pop(&mut self)
        ensures { self.new ≡ take (length self.old - 1) self.old }
    {
        let _ = self.list.pop();
    }

    /// Makes value number n the present one, and keeps the order of the others.
    pub(crate) fn turn(&mut self, n: usize)
        requires { n < length self.old }
        ensures { self.new ≡ take n self.old ++ drop (n + 1) self.old ++ slice_index_or self.old n [] ∷ [] }
    {
        self.list[n..].rotate_left(1);
    }

    /// Keeps value number n alone.
    pub(crate) fn keep(&mut self, n: usize)
        requires { n < length self.old }
        ensures { self.new ≡ slice_index_or self.old n [] ∷ [] }
    {
        self.list.swap(0, n);
        self.list.truncate(1);
    }

    /// Keeps the present value alone, with zeros from a place on.
    pub(crate) fn settle(&mut self, end: usize)
        requires { 0 < length self.old }
        ensures one { length self.new ≡ 1 }
        ensures long { length (slice_index_or self.new 0 [])
            ≡ length (slice_index_or self.old (length self.old - 1) []) }
        ensures each { (j : ℕ) → slice_index (slice_index_or self.new 0 []) j ≡ cond (nat_lt j end)
            (slice_index (slice_index_or self.old (length self.old - 1) []) j) 0 }
        ensures are_bytes { (j : ℕ) → slice_index (slice_index_or self.new 0 []) j < 256 }
    {
        self.keep(self.count() - 1);
        let present = &mut self.list[0];
        present.cut(end);
    }

    /// Has each value end at a place, with zeros from there on.
    pub(crate) fn end(&mut self, end: usize)
        ensures count { length self.new ≡ length self.old }
        ensures long { (n : ℕ) → n < length self.old
            → length (slice_index_or self.new n []) ≡ length (slice_index_or self.old n []) }
        ensures each { (n j : ℕ) → n < length self.old → slice_index (slice_index_or self.new n []) j ≡
            cond (nat_lt j end) (slice_index (slice_index_or self.old n []) j) 0 }
    {
        for k in 0..self.list.len() {
            let value = &mut self.list[k];
            value.cut(end);
        }
    }

    /// Puts these bytes in place of the present value.
    pub(crate) fn replace(&mut self, bytes: &[u8])
        requires { 0 < length self.old }
        ensures count { length self.new ≡ length self.old }
        ensures long { length (slice_index_or self.new (length self.old - 1) []) ≡ length
            (slice_index_or self.old (length self.old - 1) []) }
        ensures each { (j : ℕ) → j < length (slice_index_or self.old (length self.old - 1) [])
            → slice_index (slice_index_or self.new (length self.old - 1) []) j ≡ slice_index bytes.now j }
    {
        let last = self.list.len() - 1;
        self.list[last].replace(bytes);
    }
}
