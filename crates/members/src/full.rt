// What is wrong where a layer has no place left.
ghost use Rattle.std.specs.Prelude.{◌≡◌};
ghost use Rattle.bits.specs.declared.fault.Layer.TheVariants.{Register};

use bits::Report;
use texts::Full;

// A token layer or a leavers layer is full: refusal 21 of the register's layer. A type of its own, as `Unlawful` is.
#[derive(Clone, Copy, Debug, PartialEq, Eq)]
pub struct LayerFull;

impl From<Full> for LayerFull {
    fn from(_: Full) -> LayerFull {
        LayerFull
    }
}

impl LayerFull {
    pub fn report(self) -> Report
        ensures { result ≡ record { number = 21; place = 0; layer = Register } }
    {
        Report::in_register(21)
    }
}
