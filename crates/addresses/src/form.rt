// How the addresses of a family are written. A trait with two marker types would be longer than these four tables.
ghost use Rattle.std.specs.Prelude.{◌≡◌, ◌<◌, IfSome};
ghost use Rattle.addresses.specs.Forms.{separator as separator_of, size as size_of, base as base_of, part_of};

use super::numeral::{group, octet};
use notes::Family;

// The byte between two parts.
pub(crate) fn separator(family: Family) -> u8
    ensures { result ≡ separator_of family }
{
    match family {
        Family::Four => b'.',
        Family::Six => b':',
    }
}

// The number of parts.
pub(crate) fn size(family: Family) -> usize
    ensures { result ≡ size_of family }
{
    match family {
        Family::Four => 4,
        Family::Six => 8,
    }
}

// The number of values that a part can have.
pub(crate) fn base(family: Family) -> u128
    ensures { result ≡ base_of family }
{
    match family {
        Family::Four => 256,
        Family::Six => 65536,
    }
}

// The part that the piece writes.
pub(crate) fn part(family: Family, piece: &[u8]) -> Option<u32>
    ensures part { result ≡ part_of family piece.now }
    ensures small { IfSome result (λ n. n < base_of family) }
{
    match family {
        Family::Four => octet(piece),
        Family::Six => group(piece),
    }
}
