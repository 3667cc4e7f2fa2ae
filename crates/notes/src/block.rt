// A block of addresses: those of a family with the same prefix bits.
ghost use Rattle.std.specs.Prelude.{◌≡◌, ◌-◌, ◌/◌, ◌%◌, ◌^◌, ◌<◌};
ghost use Rattle.bits.specs.Reader.{bytes, source, place};
ghost use Rattle.notes.specs.declared.block.Block.{Block as BlockValue};
ghost use Rattle.notes.specs.Told.{Read};
ghost use Rattle.notes.specs.Blocks.{block_lawful, block_form, block_reads, prefix_reads, address_reads, same_prefix, block_admits, block_covers};
ghost use Rattle.notes.specs.BlocksLemmas.{lawful_block, block_long, width_within, block_sound};
ghost use Rattle.std.proofs.Common.{arith};

use super::constraint::Constraint;
use super::family::Family;
use super::fault::NoteFault;
use super::packed::{Packed, Writable};
use super::writing::put;
use bits::{BitReader, BitWriter};

pub(super) mod words;

#[derive(Clone, Copy)]
pub struct Address {
    pub family: Family,
    pub bits: u128,
}

#[derive(Clone, Copy, Default)]
pub struct Block {
    family: Family,
    prefix: u8,
    address: u128,
}

// The bits of `x` above its lowest `n`.
fn above(x: u128, n: u8) -> u128
    ensures { result ≡ x / 2 ^ n }
{
    if n >= 128 { 0 } else { x >> n }
}

// The lowest `n` bits of `x`.
fn below(x: u128, n: u8) -> u128
    ensures { result ≡ x % 2 ^ n }
{
    if n >= 128 { x } else { x % (1 << n) }
}

fn read_prefix(r: &mut BitReader, family: Family) -> Result<u8, NoteFault>
    ensures { Read (prefix_reads family) r.old result r.new }
{
    let place = r.place();
    let v = r.take(8)?;
    if v > family.width() as u128 {
        return Err(NoteFault::Prefix { place });
    }
    Ok(v as u8)
}

fn read_address(r: &mut BitReader, family: Family, prefix: u8) -> Result<u128, NoteFault>
    ensures { Read (address_reads family prefix) r.old result r.new }
{
    let place = r.place();
    let v = r.take(family.width() as usize)?;
    if below(v, family.width().saturating_sub(prefix)) != 0 {
        return Err(NoteFault::Prefix { place });
    }
    Ok(v)
}

impl Packed for Block {
    const LEAST_WIDTH: usize = 41;

    ghost LEAST_WIDTH = { 41 };

    ghost value = { BlockValue };

    ghost meant = { λ x. x };

    ghost lawful = { block_lawful };

    ghost form = { block_form };

    ghost reads = { block_reads };

    ghost round = { lawful_block };

    ghost shortest = { λ x h. omega (arith, block_long x, width_within x.family) };

    fn read(r: &mut BitReader) -> Result<Block, NoteFault> {
        let family = Family::read(r)?;
        let prefix = read_prefix(r, family)?;
        let address = read_address(r, family, prefix)?;
        Ok(Block {
            family,
            prefix,
            address,
        })
    }
}

impl Writable for Block {
    #[tactic(auto, using(crate::proofs::Room::room))]
    fn write(&self, w: &mut BitWriter) {
        put(w, 1, u128::from(self.family));
        put(w, 8, self.prefix as u128);
        put(w, self.family.width() as usize, self.address);
    }
}

impl Block {
    // Whether an address has the block's prefix bits.
    fn same_prefix(&self, address: u128) -> bool
        ensures { result ≡ same_prefix self.now address }
    {
        let low = self.family.width().saturating_sub(self.prefix);
        above(address, low) == above(self.address, low)
    }
}

impl Constraint for Block {
    type Value = Address;

    ghost admitted = { block_admits };

    ghost covered = { block_covers };

    ghost sound = { block_sound };

    fn admits(&self, v: &Address) -> bool {
        self.family == v.family && self.same_prefix(v.bits)
    }

    fn covers(&self, other: &Block) -> bool {
        self.prefix <= other.prefix
            && self.family == other.family
            && self.same_prefix(other.address)
    }
}
