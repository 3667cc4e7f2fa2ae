// A block in words: the groups of its address, and its prefix length.
ghost use Rattle.std.specs.Prelude.{◌≡◌, ◌/◌, ◌%◌, ◌^◌};

use super::super::family::Family;
use super::{Block, above, below};
use std::fmt;

// The `n` bits of an address in front of its last `behind`.
fn group(address: u128, behind: u8, n: u8) -> u128
    ensures { result ≡ address / 2 ^ behind % 2 ^ n }
{
    below(above(address, behind), n)
}

// A group of an address, in the base of its family.
#[derive(Clone, Copy)]
struct AddressGroup {
    family: Family,
    value: u128,
}

impl fmt::Display for AddressGroup {
    fn fmt<W: fmt::Write>(&self, f: &mut fmt::Formatter<W>) -> fmt::Result {
        let AddressGroup { family, value } = *self;
        match family {
            Family::Four => write!(f, "{value}"),
            Family::Six => write!(f, "{value:x}"),
        }
    }
}

impl Block {
    // The groups of `n` bits, each with so many bits of the address behind it.
    fn write_groups<W: fmt::Write>(
        &self,
        n: u8,
        behind: &[u8],
        separator: &str,
        f: &mut fmt::Formatter<W>,
    ) -> fmt::Result {
        let groups = behind.iter().map(|behind| AddressGroup {
            family: self.family,
            value: group(self.address, *behind, n),
        });
        f.write_joined(groups, separator)
    }
}

impl fmt::Display for Block {
    fn fmt<W: fmt::Write>(&self, f: &mut fmt::Formatter<W>) -> fmt::Result {
        match self.family {
            Family::Four => self.write_groups(8, &[24, 16, 8, 0], ".", f)?,
            Family::Six => self.write_groups(16, &[112, 96, 80, 64, 48, 32, 16, 0], ":", f)?,
        }
        let prefix = self.prefix;
        write!(f, "/{prefix}")
    }
}
