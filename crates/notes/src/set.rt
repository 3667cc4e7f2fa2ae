// Sets of the numbers below a width.
ghost use Rattle.std.specs.Prelude.{◌≡◌, ℕ, ◌-◌, ◌^◌, ◌<◌, ◌≤◌, nat_eq};
ghost use Rattle.bits.specs.Digits.{digits};
ghost use Rattle.bits.specs.Writer.{Wrote};
ghost use Rattle.notes.specs.Told.{ReadAs, Fits};
ghost use Rattle.notes.specs.Sets.{spelt, member, contains as contains_of, set_reads};

use super::fault::NoteFault;
use super::writing::put;
use bits::{BitReader, BitWriter};

// An unsigned integer as the place of a set's digits: rows of tables hold many sets, and most are narrow.
pub(crate) trait Digits: Copy {
    ghost number: { Self → ℕ };

    // The first number that has no place.
    ghost end: { ℕ };

    fn from_u128(n: u128) -> Self
        requires { n < end }
        ensures { number result ≡ n };

    fn to_u128(self) -> u128
        ensures { result ≡ number self };
}

// A set of the numbers below `W`: of its `W` binary digits, which `D` holds, the first stands for 0. That `W` is at most 128 is
// asked for by the methods and is no invariant, since rows of tables are plain records.
#[derive(Clone, Copy, Default)]
pub struct Set<D, const W: usize> {
    bits: D,
}

impl<D: Digits, const W: usize> Set<D, W> {
    pub(super) fn of(bits: u128) -> Set<D, W>
        requires { bits < D.end }
        ensures { D.number result.bits ≡ bits }
    {
        Set {
            bits: D::from_u128(bits),
        }
    }

    fn number(&self) -> u128
        ensures { result ≡ D.number self.now.bits }
    {
        self.bits.to_u128()
    }

    // A set that is not empty.
    pub(super) fn read(r: &mut BitReader) -> Result<Set<D, W>, NoteFault>
        requires { 2 ^ W ≤ D.end }
        ensures { ReadAs (λ s. D.number s.bits) (set_reads W) r.old result r.new }
    {
        let place = r.place();
        let bits = r.take(W)?;
        if bits == 0 {
            return Err(NoteFault::EmptySet { place });
        }
        Ok(Set::of(bits))
    }

    pub(super) fn write(&self, w: &mut BitWriter)
        requires { (W ≤ 128) × (Fits w.old W) }
        ensures { Wrote w.old w.new (digits W (D.number self.now.bits)) }
    {
        put(w, W, self.number());
    }

    // Whether the number `v` is in the set.
    pub(super) fn has(&self, v: u8) -> bool
        requires { (v < W) × (W ≤ 128) }
        ensures { result ≡ member W (D.number self.now.bits) v }
    {
        (self.number() >> (W - 1 - v as usize)) % 2 == 1
    }

    // Whether each number of the other set is in this one.
    pub(super) fn contains(&self, other: &Set<D, W>) -> bool
        ensures { result ≡ contains_of (D.number self.now.bits) (D.number other.now.bits) }
    {
        self.number() & other.number() == other.number()
    }

    pub(super) fn is_empty(&self) -> bool
        ensures { result ≡ nat_eq (D.number self.now.bits) 0 }
    {
        self.number() == 0
    }

    // Whether the set has every number below the width.
    pub(super) fn is_full(&self) -> bool
        requires { W < 128 }
        ensures { result ≡ nat_eq (D.number self.now.bits) (2 ^ W - 1) }
    {
        self.number() == (1 << W) - 1
    }
}

impl Digits for u32 {
    ghost number = { λ n. n };

    ghost end = { 2 ^ 32 };

    fn from_u128(n: u128) -> u32 {
        n as u32
    }

    fn to_u128(self) -> u128 {
        u128::from(self)
    }
}

impl Digits for u64 {
    ghost number = { λ n. n };

    ghost end = { 2 ^ 64 };

    fn from_u128(n: u128) -> u64 {
        n as u64
    }

    fn to_u128(self) -> u128 {
        u128::from(self)
    }
}

impl Digits for u128 {
    ghost number = { λ n. n };

    ghost end = { 2 ^ 128 };

    fn from_u128(n: u128) -> u128 {
        n
    }

    fn to_u128(self) -> u128 {
        self
    }
}
