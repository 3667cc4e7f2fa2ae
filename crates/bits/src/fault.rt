// What a fault carries, in every layer, and the fault of this one.
ghost use Rattle.std.specs.Prelude.{◌≡◌, Some};
ghost use Rattle.bits.specs.Faults.{report as report_of};
ghost use Rattle.bits.specs.Written.{layer_name, report_text};
ghost use Rattle.bits.specs.declared.fault.Layer.TheVariants.{Register};

use std::fmt;

// The layer where a fault arose.
#[derive(Clone, Copy, Debug, PartialEq, Eq)]
pub enum Layer {
    Bits,
    Note,
    Register,
    Enforcement,
}

impl fmt::Display for Layer {
    ghost output = { λ layer. Some (layer_name layer) };

    fn fmt<W: fmt::Write>(&self, f: &mut fmt::Formatter<W>) -> fmt::Result {
        f.write_str(match self {
            Layer::Bits => "bits",
            Layer::Note => "note",
            Layer::Register => "register",
            Layer::Enforcement => "enforcement",
        })
    }
}

// What every fault tells: its number, its place (a bit of a note, else 0) and its layer.
#[derive(Clone, Copy, Debug, PartialEq, Eq)]
pub struct Report {
    pub number: u8,
    pub place: u128,
    pub layer: Layer,
}

impl Report {
    // A fault of the register's layer, which has no place.
    pub fn in_register(number: u8) -> Report
        ensures { result ≡ record { number = number; place = 0; layer = Register } }
    {
        Report {
            number,
            place: 0,
            layer: Layer::Register,
        }
    }
}

impl fmt::Display for Report {
    ghost output = { λ report. Some (report_text report) };

    fn fmt<W: fmt::Write>(&self, f: &mut fmt::Formatter<W>) -> fmt::Result {
        let Report {
            number,
            place,
            layer,
        } = self;
        write!(f, "{number} at {place} {layer}")
    }
}

// A field does not fit into the bits that are there. The place is the field's first bit.
#[derive(Clone, Copy, Debug, PartialEq, Eq)]
pub struct BitFault {
    pub place: u128,
}

impl BitFault {
    // The number of this layer's fault. A method, since its contract is what the layers above cite.
    pub fn report(self) -> Report
        ensures { result ≡ report_of self }
    {
        Report {
            number: 1,
            place: self.place,
            layer: Layer::Bits,
        }
    }
}
