// What is wrong with a note.
ghost use Rattle.std.specs.Prelude.{◌≡◌};
ghost use Rattle.notes.specs.Faults.{report as report_of, broken as broken_at};
ghost use Rattle.notes.specs.declared.fault.NoteFault.TheVariants.{Ended};

use bits::{BitFault, Layer, Report};

// Each fault holds the first bit of the field that is broken.
#[derive(Clone, Copy, Debug, PartialEq, Eq)]
pub enum NoteFault {
    // The note ends inside a field.
    Ended(BitFault),
    // A count or a length is outside its limits.
    Limit { place: u128 },
    // A text breaks the rules of its kind.
    Text { place: u128 },
    // A set of a window is empty.
    EmptySet { place: u128 },
    // A prefix is too long, or a bit beyond it is set.
    Prefix { place: u128 },
    // A letter of a country is not A to Z.
    Letter { place: u128 },
    // After the last field a padding bit is set or a byte follows.
    Excess { place: u128 },
}

impl From<BitFault> for NoteFault {
    ghost from_gives = { λ e n. n ≡ Ended e };

    fn from(e: BitFault) -> NoteFault {
        NoteFault::Ended(e)
    }
}

impl NoteFault {
    // The numbers of the faults of notes: they are what the product promises, and stand here. A method, since its contract is
    // what the layers above cite.
    pub fn report(self) -> Report
        ensures { result ≡ report_of self }
    {
        match self {
            NoteFault::Ended(fault) => fault.report(),
            NoteFault::Limit { place } => in_note(2, place),
            NoteFault::Text { place } => in_note(3, place),
            NoteFault::EmptySet { place } => in_note(4, place),
            NoteFault::Prefix { place } => in_note(5, place),
            NoteFault::Letter { place } => in_note(6, place),
            NoteFault::Excess { place } => in_note(7, place),
        }
    }
}

fn in_note(number: u8, place: u128) -> Report
    ensures { result ≡ broken_at number place }
{
    Report {
        number,
        place,
        layer: Layer::Note,
    }
}
