// Items that have a bit form.
ghost use Rattle.std.specs.Prelude.{◌≡◌, ℕ, ◌≤◌, Bool, true, List, length, Result};
ghost use Rattle.bits.specs.Codec.{Lawful};
ghost use Rattle.bits.specs.Reader.{bytes, source, place};
ghost use Rattle.bits.specs.Writer.{Wrote};
ghost use Rattle.bits.specs.declared.fault.Report.{Report};
ghost use Rattle.notes.specs.Told.{ReadAs, Fits};

use super::fault::NoteFault;
use bits::{BitReader, BitWriter};

pub trait Packed: Copy + Default {
    // The fewest bits of a form.
    const LEAST_WIDTH: usize;

    ghost LEAST_WIDTH: { ℕ };

    // What an item stands for.
    ghost value: { Type 0 };

    ghost meant: { Self → value };

    // What each value keeps that is read.
    ghost lawful: { value → Bool };

    // The bits of a value.
    ghost form: { value → List ℕ };

    // The value that stands at a place of a row of bits, and the place behind it, or a fault.
    ghost reads: { List ℕ → ℕ → Result (value × ℕ) Report };

    fn read(r: &mut BitReader) -> Result<Self, NoteFault>
        ensures { ReadAs meant reads r.old result r.new };

    // The form of a lawful value reads back as that value, and what is read has that form.
    ghost round: { Lawful (λ x. lawful x ≡ true) form reads };

    ghost shortest: { (x : value) → lawful x ≡ true → LEAST_WIDTH ≤ length (form x) };
}

// A packed item that can be written where there is room. Writing asks for room, so this stays inside the crate.
pub(crate) trait Writable: Packed {
    fn write(&self, w: &mut BitWriter)
        requires { Fits w.old (length (Self.Packed.form (Self.Packed.meant self.now))) }
        ensures { Wrote w.old w.new (Self.Packed.form (Self.Packed.meant self.now)) };
}
