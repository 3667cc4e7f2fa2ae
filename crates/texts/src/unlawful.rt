// What is wrong with bytes that are no lawful text.
ghost use Rattle.std.specs.Prelude.{◌≡◌};
ghost use Rattle.bits.specs.declared.fault.Layer.TheVariants.{Register};

use super::few::Full;
use bits::Report;

// The bytes are no lawful text: refusal 13 of the register's layer. A type of its own, and not one with the number as a
// parameter, since an alias of such a type cannot be written as a value.
#[derive(Clone, Copy, Debug, PartialEq, Eq)]
pub struct Unlawful;

// Bytes that are too many for the text.
impl From<Full> for Unlawful {
    fn from(_: Full) -> Unlawful {
        Unlawful
    }
}

impl Unlawful {
    pub fn report(self) -> Report
        ensures { result ≡ record { number = 13; place = 0; layer = Register } }
    {
        Report::in_register(13)
    }
}
