// Parts of an address one behind the other.
ghost use Rattle.std.specs.Prelude.{◌^◌, ◌<◌, ◌≤◌};
ghost use Rattle.addresses.specs.Forms.{size, base};

mod methods;

use notes::Family;

// The parts as one number, the first the most significant, and how many they are: no more than an address of the
// family has.
#[derive(Clone, Copy)]
pub(crate) struct Row {
    pub(crate) family: Family,
    pub(crate) bits: u128,
    pub(crate) count: usize,
    ghost few: { count ≤ size family },
    ghost small: { bits < base family ^ count },
}
