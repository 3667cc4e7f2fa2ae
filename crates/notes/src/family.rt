// Address families.
ghost use Rattle.std.specs.Prelude.{◌≡◌};
ghost use Rattle.bits.specs.Reader.{bytes, source, place};
ghost use Rattle.notes.specs.Families.{width as width_of, same_family, code as code_of, family_reads};
ghost use Rattle.notes.specs.Told.{Read};

use super::fault::NoteFault;
use bits::BitReader;

#[derive(Clone, Copy, Default, PartialEq, Eq, Debug)]
pub enum Family {
    #[default]
    Four,
    Six,
}

impl Family {
    // The bits of an address.
    pub fn width(self) -> u8
        ensures { result ≡ width_of self }
    {
        match self {
            Family::Four => 32,
            Family::Six => 128,
        }
    }

    // Derived equality, by the definition that callers cite.
    pub fn same(self, other: Family) -> bool
        ensures { result ≡ same_family self other }
    {
        self == other
    }

    pub(super) fn read(r: &mut BitReader) -> Result<Family, NoteFault>
        ensures { Read family_reads r.old result r.new }
    {
        // Each number of the field is a family, so that nothing can fail.
        if r.take(1)? == 0 {
            Ok(Family::Four)
        } else {
            Ok(Family::Six)
        }
    }
}

// The number of a family in its field.
impl From<Family> for u128 {
    ghost from_gives = { λ family n. n ≡ code_of family };

    fn from(family: Family) -> u128 {
        match family {
            Family::Four => 0,
            Family::Six => 1,
        }
    }
}
