//! The checksum of a log (fileformat2, 4.2).
ghost use Rattle.std.specs.Prelude.{◌≡◌, ◌+◌, ◌/◌, ◌%◌, ◌^◌, List, ℕ, [], length, take};
ghost use Rattle.std.specs.Simd.Lanes.{zip2};
ghost use Rattle.sqwal.specs.Sums.{number, words};
ghost use Rattle.sqwal.specs.declared.sum.Order.{Order};
ghost use Rattle.sqwal.specs.internal.Lanes.{column, wrapping_sum};

use crate::leap::Leap;
use byteorder::{BigEndian, ByteOrder, LittleEndian};
use std::simd::prelude::*;

/// The order of the bytes in a word that a sum is over; the header's magic names it.
#[derive(Clone, Copy, Debug, PartialEq, Eq)]
pub enum Order {
    /// The highest byte first: magic 0x377f0683.
    Big,
    /// The lowest byte first: magic 0x377f0682.
    Little,
}

const MAGIC_LITTLE: u32 = 0x377f0682;

const MAGIC_BIG: u32 = 0x377f0683;

/// The bytes of the shortest page: sums over fewer aren't worth lanes.
const SHORTEST_PAGE: usize = 512;

impl Order {
    ghost use Rattle.std.specs.Prelude.{MatchOption};
    ghost use Rattle.sqwal.specs.declared.sum.Order.{Order};
    ghost use Rattle.sqwal.specs.internal.Magic.{NamesOrder};

    /// The order that a log's magic names.
    pub(crate) fn named(magic: u32) -> Option<Order>
        ensures { MatchOption result ((order : Order) → NamesOrder magic order → ⊥) (λ order. NamesOrder magic order) }
    {
        match magic {
            MAGIC_LITTLE => Some(Order::Little),
            MAGIC_BIG => Some(Order::Big),
            _ => None,
        }
    }

    /// The magic of a log in this order.
    pub(crate) fn magic(self) -> u32
        ensures { NamesOrder result self }
    {
        match self {
            Order::Little => MAGIC_LITTLE,
            Order::Big => MAGIC_BIG,
        }
    }
}

/// The running checksum of a log (fileformat2, 4.2).
#[derive(Clone, Copy, Debug, PartialEq, Eq)]
pub struct Sum {
    /// The first of the two sums.
    pub s0: u32,
    /// The second.
    pub s1: u32,
}

impl Sum {
    ghost use Rattle.sqwal.specs.declared.sum.Order.{Order};
    ghost use Rattle.sqwal.specs.Sums.{number, IsSumOf, GoesOn};
    ghost use Rattle.sqwal.specs.internal.Lanes.{AreLanes};
    ghost use Rattle.sqwal.specs.internal.Leaps.{IsLeap};

    /// The sum of no bytes.
    pub fn zero() -> Sum
        ensures { (order : Order) → IsSumOf order [] result }
    {
        Sum { s0: 0, s1: 0 }
    }

    /// The sum that goes on over these bytes, pairs of 32-bit words in the order.
    #[tactic(auto, using(crate::proofs::checksum::Sums::number_big, crate::proofs::checksum::Sums::number_little))]
    pub fn add(self, bytes: &[u8], order: Order) -> Sum
        requires { length bytes.now % 8 ≡ 0 }
        ensures { GoesOn order bytes.now self result }
    {
        match order {
            Order::Big => self.over::<BigEndian>(bytes),
            Order::Little => self.over::<LittleEndian>(bytes),
        }
    }

    /// The same, the bytes' quarters side by side where they are as long as those of a page.
    fn over<T: ByteOrder>(self, bytes: &[u8]) -> Sum
        requires { length bytes.now % 8 ≡ 0 }
        ensures { (order : Order) → ((x : List ℕ) → number order (take 4 x) ≡ T.number_of 4 x)
            → GoesOn order bytes.now self result }
    {
        if bytes.len() < SHORTEST_PAGE || bytes.len() % 64 != 0 {
            return self.pairs::<T>(bytes);
        }
        match Leap::over(bytes.len() / 16) {
            Some(leap) => self.quarters::<T>(bytes, leap),
            None => self.pairs::<T>(bytes),
        }
    }

    /// The same, one pair of words after the other.
    fn pairs<T: ByteOrder>(self, bytes: &[u8]) -> Sum
        requires { length bytes.now % 8 ≡ 0 }
        ensures { (order : Order) → ((x : List ℕ) → number order (take 4 x) ≡ T.number_of 4 x)
            → GoesOn order bytes.now self result }
    {
        let mut sum = self;
        let (pairs, _) = bytes.as_chunks::<8>();
        for pair in pairs {
            sum = sum.next(T::read_u32(pair), T::read_u32(&pair[4..]));
        }
        sum
    }

    /// The same, the later quarters summed from zero beside the first.
    fn quarters<T: ByteOrder>(self, bytes: &[u8], leap: Leap) -> Sum
        requires whole { length bytes.now % 64 ≡ 0 }
        requires leap { IsLeap (length bytes.now / 16) leap }
        ensures { (order : Order) → ((x : List ℕ) → number order (take 4 x) ≡ T.number_of 4 x)
            → GoesOn order bytes.now self result }
    {
        let (first, second) = self.lanes::<T>(bytes);
        let (s0, s1) = (first.to_array(), second.to_array());
        let a = Sum {
            s0: s0[0],
            s1: s1[0],
        };
        let b = Sum {
            s0: s0[1],
            s1: s1[1],
        };
        let c = Sum {
            s0: s0[2],
            s1: s1[2],
        };
        let d = Sum {
            s0: s0[3],
            s1: s1[3],
        };
        a.joined(b, leap).joined(c, leap).joined(d, leap)
    }

    /// The sum that goes on over the bytes' first quarter, and those of the others from zero, as lanes.
    fn lanes<T: ByteOrder>(self, bytes: &[u8]) -> (u32x4, u32x4)
        requires { length bytes.now % 64 ≡ 0 }
        ensures { (order : Order) → ((x : List ℕ) → number order (take 4 x) ≡ T.number_of 4 x)
            → AreLanes order bytes.now (length bytes.now / 64) (length bytes.now / 64) self result.0 result.1 }
    {
        let (pieces, _) = bytes.as_chunks::<16>();
        let count = pieces.len() / 4;
        let mut first = u32x4::from_array([self.s0, 0, 0, 0]);
        let mut second = u32x4::from_array([self.s1, 0, 0, 0]);
        for i in 0..count {
            let a = four_words::<T>(&pieces[i]);
            let b = four_words::<T>(&pieces[count + i]);
            let c = four_words::<T>(&pieces[2 * count + i]);
            let d = four_words::<T>(&pieces[3 * count + i]);
            let (x, y, z, w) = turned(a, b, c, d);
            (first, second) = lanes_next(first, second, x, y);
            (first, second) = lanes_next(first, second, z, w);
        }
        (first, second)
    }

    /// The sum over more words, whose own sum from zero is `later`.
    fn joined(self, later: Sum, leap: Leap) -> Sum
        ensures { (order : Order) (bytes : List ℕ) → length bytes % 8 ≡ 0 → IsLeap (length bytes / 4) leap
            → IsSumOf order bytes later → GoesOn order bytes self result }
    {
        let s0 = leap
            .before
            .wrapping_mul(self.s0)
            .wrapping_add(leap.here.wrapping_mul(self.s1));
        let s1 = leap
            .here
            .wrapping_mul(self.s0)
            .wrapping_add(leap.behind.wrapping_mul(self.s1));
        Sum {
            s0: s0.wrapping_add(later.s0),
            s1: s1.wrapping_add(later.s1),
        }
    }

    fn next(self, x: u32, y: u32) -> Sum
        ensures first { result.s0 ≡ (self.s0 + x + self.s1) % 2 ^ 32 }
        ensures second { result.s1 ≡ (self.s1 + y + result.s0) % 2 ^ 32 }
    {
        let s0 = self.s0.wrapping_add(x).wrapping_add(self.s1);
        Sum {
            s0,
            s1: self.s1.wrapping_add(y).wrapping_add(s0),
        }
    }
}

/// The words of 16 bytes.
fn four_words<T: ByteOrder>(piece: &[u8; 16]) -> u32x4
    ensures { (order : Order) → ((x : List ℕ) → number order (take 4 x) ≡ T.number_of 4 x)
        → result ≡ words order piece.now }
{
    u32x4::from_array([
        T::read_u32(piece),
        T::read_u32(&piece[4..]),
        T::read_u32(&piece[8..]),
        T::read_u32(&piece[12..]),
    ])
}

/// The first words of four lists, their second ones, their third and their fourth.
fn turned(a: u32x4, b: u32x4, c: u32x4, d: u32x4) -> (u32x4, u32x4, u32x4, u32x4)
    requires { (length a ≡ 4) × (length b ≡ 4) × (length c ≡ 4) × (length d ≡ 4) }
    ensures first { result.0 ≡ column 0 a b c d }
    ensures second { result.1 ≡ column 1 a b c d }
    ensures third { result.2 ≡ column 2 a b c d }
    ensures fourth { result.3 ≡ column 3 a b c d }
{
    let (ac, ac_later) = a.interleave(c);
    let (bd, bd_later) = b.interleave(d);
    let (x, y) = ac.interleave(bd);
    let (z, w) = ac_later.interleave(bd_later);
    (x, y, z, w)
}

/// Each lane's sum with two words more.
fn lanes_next(first: u32x4, second: u32x4, x: u32x4, y: u32x4) -> (u32x4, u32x4)
    requires { (length first ≡ 4) × (length second ≡ 4) × (length x ≡ 4) × (length y ≡ 4) }
    ensures first { result.0 ≡ zip2 wrapping_sum (zip2 wrapping_sum first x) second }
    ensures second { result.1 ≡ zip2 wrapping_sum (zip2 wrapping_sum second y) result.0 }
{
    let first = first + x + second;
    (first, second + y + first)
}
