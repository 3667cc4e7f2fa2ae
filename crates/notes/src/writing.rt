// Writing where there is room.
ghost use Rattle.std.specs.Prelude.{◌*◌, ◌≤◌, length};
ghost use Rattle.bits.specs.Digits.{digits, bits as bits_of};
ghost use Rattle.bits.specs.Writer.{Wrote};
ghost use Rattle.notes.specs.Told.{Fits};

use bits::BitWriter;

// The last `width` binary digits of `v`, for which there is room.
pub(super) fn put(w: &mut BitWriter, width: usize, v: u128)
    requires { (width ≤ 128) × (Fits w.old width) }
    ensures { Wrote w.old w.new (digits width v) }
{
    let _ = w.put(width, v);
}

// Whole bytes, for which there is room.
pub(super) fn put_bytes(w: &mut BitWriter, text: &[u8])
    requires { Fits w.old (8 * length text.now) }
    ensures { Wrote w.old w.new (bits_of text.now) }
{
    let _ = w.put_bytes(text);
}
