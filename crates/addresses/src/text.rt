// The text form of addresses.
ghost use Rattle.std.specs.Prelude.{◌≡◌, ◌+◌, ◌-◌, ◌*◌, ◌^◌, ◌<◌};
ghost use Rattle.addresses.specs.Addresses.{address_from, side, filled, six_of, address_of, joined};
ghost use Rattle.addresses.specs.Forms.{separator as separator_of};
ghost use Rattle.addresses.specs.Rows.{parts_of, row_value, empty, row_with};
ghost use Rattle.std.specs.Option.{option_map};
ghost use Rattle.notes.specs.declared.family.Family.TheVariants.{Six};
ghost use Rattle.texts.specs.Pieces.{pieces};

use super::cut::split_at_gap;
use super::row::Row;
use notes::{Address, Family};

// The groups of an IPv6 address.
const GROUPS: usize = 8;

// The bits of a group.
const GROUP_BITS: usize = 16;

// The address that the word writes.
pub fn address(word: &[u8]) -> Option<Address>
    ensures { result ≡ address_of word.now }
{
    whole(Family::Four, word).or_else(|| six(word))
}

// The IPv6 address that the word writes.
fn six(word: &[u8]) -> Option<Address>
    ensures { result ≡ six_of word.now }
{
    match split_at_gap(word) {
        Some((front, back)) => with_gap(front, back),
        None => whole(Family::Six, word),
    }
}

// The address of which the word writes every part.
fn whole(family: Family, word: &[u8]) -> Option<Address>
    ensures { result ≡ address_from family (parts_of family (pieces (separator_of family) word.now)) }
{
    Row::read(family, word)
        .filter(Row::is_full)
        .map(|row| Address {
            family,
            bits: row.bits,
        })
}

// The IPv6 address with these groups before and after a double colon.
fn with_gap(front: &[u8], back: &[u8]) -> Option<Address>
    ensures { result ≡ address_from Six (filled (side front.now) (side back.now)) }
{
    let first = groups(front)?;
    let last = groups(back)?;
    fill(first, last)
}

// The groups on one side of a double colon, where nothing stands for no group.
fn groups(text: &[u8]) -> Option<Row>
    ensures { option_map row_value result ≡ row_with (empty Six) (side text.now) }
{
    if text.is_empty() {
        return Some(Row::new(Family::Six));
    }
    Row::read(Family::Six, text)
}

// The IPv6 address with the rows at its ends and zeros between them. A double colon stands for one group
// at least, so that seven groups at most are written.
fn fill(first: Row, last: Row) -> Option<Address>
    requires { (first.family ≡ Six) × (last.family ≡ Six) }
    ensures { result ≡ joined (row_value first) (row_value last) }
{
    if first.count + last.count >= GROUPS {
        return None;
    }
    Some(Address {
        family: Family::Six,
        bits: spread(first, last),
    })
}

// The bits of eight groups that begin with one row, end with the other, and are zero between them.
fn spread(first: Row, last: Row) -> u128
    requires { (first.family ≡ Six) × ((last.family ≡ Six) × (first.count + last.count < 8)) }
    ensures { result ≡ first.bits * 65536 ^ (8 - first.count) + last.bits }
{
    if first.count == 0 {
        return last.bits;
    }
    (first.bits << (GROUP_BITS * (GROUPS - first.count))) + last.bits
}
