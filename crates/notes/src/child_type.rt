// Child types: resource types, as numbers.
ghost use Rattle.std.specs.Prelude.{◌≡◌, ℕ, nat_eq};
ghost use Rattle.bits.specs.Digits.{digits};
ghost use Rattle.bits.specs.Codec.{field};
ghost use Rattle.notes.specs.Rules.{type_lawful};
ghost use Rattle.notes.specs.RulesLemmas.{lawful_type};
ghost use Rattle.std.proofs.Common.{arith, rules};
ghost use Rattle.bits.proofs.DigitLaws.{length_digits};

use super::constraint::Constraint;
use super::fault::NoteFault;
use super::packed::{Packed, Writable};
use super::writing::put;
use bits::{BitReader, BitWriter};

impl Packed for u16 {
    const LEAST_WIDTH: usize = 16;

    ghost LEAST_WIDTH = { 16 };

    ghost value = { ℕ };

    ghost meant = { λ t. t };

    ghost lawful = { type_lawful };

    ghost form = { digits 16 };

    ghost reads = { field 16 };

    ghost round = { lawful_type };

    ghost shortest = { λ x h. omega (arith, length_digits 16 x) };

    fn read(r: &mut BitReader) -> Result<u16, NoteFault> {
        Ok(r.take(16)? as u16)
    }
}

impl Writable for u16 {
    #[tactic(auto, using(crate::proofs::Room::room))]
    fn write(&self, w: &mut BitWriter) {
        put(w, 16, *self as u128);
    }
}

impl Constraint for u16 {
    type Value = u16;

    ghost admitted = { nat_eq };

    ghost covered = { nat_eq };

    ghost sound = { Prim.search rules };

    fn admits(&self, v: &u16) -> bool {
        *self == *v
    }

    fn covers(&self, other: &u16) -> bool {
        *self == *other
    }
}
