// Lists of a note: of packed items, and of originators.
ghost use Rattle.std.specs.Prelude.{◌≡◌, ℕ, ◌≤◌, List, map, length, Result, OnOk};
ghost use Rattle.std.specs.List.{flat_map};
ghost use Rattle.bits.specs.Codec.{Reads};
ghost use Rattle.bits.specs.Reader.{bytes, place};
ghost use Rattle.bits.specs.Writer.{Wrote};
ghost use Rattle.texts.specs.Few.{listed};
ghost use Rattle.notes.specs.Readings.{times};
ghost use Rattle.notes.specs.Told.{ReadAs, Fits};

use super::fault::NoteFault;
use super::packed::{Packed, Writable};
use bits::{BitReader, BitWriter};
use texts::Few;

// An item of a list. What it stands for may turn on the note that it was read from.
pub(crate) trait Item: Copy + Default {
    ghost value: { Type 0 };

    ghost meant: { List ℕ → Self → value };

    ghost form: { value → List ℕ };

    ghost reads: { Reads value };

    // Where an item may begin.
    ghost begins: { ℕ → Type 0 };

    fn read_item(r: &mut BitReader) -> Result<Self, NoteFault>
        requires { begins (place r.old) }
        ensures read { ReadAs (meant (bytes r.old)) reads r.old result r.new }
        ensures behind { OnOk result (begins (place r.new)) };

    fn write_item(&self, note: &[u8], w: &mut BitWriter)
        requires { Fits w.old (length (form (meant note.now self.now))) }
        ensures { Wrote w.old w.new (form (meant note.now self.now)) };
}

impl<P: Writable> Item for P {
    ghost value = { P.Packed.value };

    ghost meant = { λ _ x. P.Packed.meant x };

    ghost form = { P.Packed.form };

    ghost reads = { P.Packed.reads };

    ghost begins = { λ _. Unit {0} };

    fn read_item(r: &mut BitReader) -> Result<P, NoteFault> {
        P::read(r)
    }

    fn write_item(&self, _note: &[u8], w: &mut BitWriter) {
        self.write(w);
    }
}

// The next `n` items.
pub(super) fn read_list<I: Item, const N: usize>(
    r: &mut BitReader,
    n: usize,
) -> Result<Few<I, N>, NoteFault>
    requires few { n ≤ N }
    requires begins { I.begins (place r.old) }
    ensures read { ReadAs (λ l. map (I.meant (bytes r.old)) (listed l)) (times n I.reads) r.old result r.new }
    ensures behind { OnOk result (I.begins (place r.new)) }
{
    let mut items: Few<I, N> = Few::new();
    for _i in 0..n {
        let x = I::read_item(r)?;
        // There is room, since there are no more than `N`.
        items.push(x).unwrap();
    }
    Ok(items)
}

pub(super) fn write_list<I: Item>(items: &[I], note: &[u8], w: &mut BitWriter)
    requires { Fits w.old (length (flat_map (λ x. I.form (I.meant note.now x)) items.now)) }
    ensures { Wrote w.old w.new (flat_map (λ x. I.form (I.meant note.now x)) items.now) }
{
    for x in items {
        x.write_item(note, w);
    }
}
