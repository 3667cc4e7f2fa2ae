// Reading bit fields from a row of bytes.
ghost use Rattle.std.specs.Prelude.{ℕ, ◌*◌, ◌<◌, ◌≤◌, length, slice_index};

mod fields;

// Reads the fields of the borrowed bytes one after the other. `pos` counts the bits that are read;
// a field begins inside a byte, so that no slice is what is left. It
// has 128 bits because a row of bytes may have more bits than a `usize` can count.
#[derive(Drop)]
pub struct BitReader<'a> {
    src: &'a [u8],
    pos: u128,
    ghost small: { (i : ℕ) → slice_index src.now i < 256 },
    ghost within: { pos ≤ 8 * length src.now },
}
