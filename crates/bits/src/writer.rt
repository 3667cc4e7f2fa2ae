// Writing bit fields into the front of a lent buffer.
ghost use Rattle.std.specs.Prelude.{◌≡◌, ℕ, ◌+◌, ◌-◌, ◌*◌, ◌/◌, ◌%◌, ◌^◌, ◌<◌, ◌≤◌, ◌&&◌, length, drop, is_ok, MatchResult, nat_le};
ghost use Rattle.bits.specs.Digits.{digits, bits, laid};
ghost use Rattle.bits.specs.Writer.{held, end, handle, Wrote};

use super::byte::with_run;
use super::fault::BitFault;

// Writes fields one behind the other. `pos` counts the bits that are written: a field ends inside a byte, so that no slice is
// what is left.
#[derive(Drop)]
pub struct BitWriter<'a> {
    out: &'a mut [u8],
    pos: u128,
}

// The `n` binary digits of `v` in front of its last `behind`.
fn run_of_number(v: u128, behind: usize, n: usize) -> u8
    requires { (n ≤ 8) × ((behind + n ≤ 128) × (0 < n)) }
    ensures { result ≡ v / 2 ^ behind % 2 ^ n }
{
    ((v >> behind) % (1 << n)) as u8
}

// The last `width` binary digits of `v` into the bits of `out` from `start` on. Each turn fills what it can of one byte.
// The walk over the bytes is that of reading: one iterator of runs for both would need a law of what it yields, which is longer
// than the two loops.
fn lay(out: &mut [u8], start: u128, width: usize, v: u128)
    requires { (width ≤ 128) × (start + width ≤ 8 * length out.old) }
    ensures field { bits out.new ≡ laid (bits out.old) start (digits width v) }
    ensures behind { (k : ℕ) → start + width ≤ 8 * k → drop k out.new ≡ drop k out.old }
{
    let mut byte = (start / 8) as usize;
    let mut used = (start % 8) as usize;
    let mut left = width;
    while left > 0 {
        let n = left.min(8 - used);
        let run = run_of_number(v, left - n, n);
        out[byte] = with_run(out[byte], used, n, run);
        let end = used + n;
        byte += end / 8;
        used = end % 8;
        left -= n;
    }
}

// The bytes of `text` into the bits of `out` from `start` on.
fn lay_bytes(out: &mut [u8], start: u128, text: &[u8])
    requires { start + 8 * length text.now ≤ 8 * length out.old }
    ensures field { bits out.new ≡ laid (bits out.old) start (bits text.now) }
    ensures behind { (k : ℕ) → start + 8 * length text.now ≤ 8 * k → drop k out.new ≡ drop k out.old }
{
    for (i, b) in text.iter().enumerate() {
        let at = start + i as u128 * 8;
        lay(out, at, 8, *b as u128);
    }
}

impl<'a> BitWriter<'a> {
    pub fn new(out: &'a mut [u8]) -> BitWriter<'a>
        ensures start { end result ≡ 0 }
        ensures bytes { held result ≡ out.old }
        ensures lent { handle result ≡ out.entry.ghost_name }
    {
        BitWriter { out, pos: 0 }
    }

    // How many bits are written.
    pub fn place(&self) -> u128
        ensures { result ≡ end self.now }
    {
        self.pos
    }

    // Whether the buffer has `n` bits behind what is written.
    fn has_room(&self, n: u128) -> bool
        ensures { result ≡ nat_le (end self.now + n) (8 * length (held self.now)) }
    {
        let all = self.out.len() as u128 * 8;
        self.pos <= all && n <= all - self.pos
    }

    // The last `width` binary digits of `v`, behind what is written.
    pub fn put(&mut self, width: usize, v: u128) -> Result<(), BitFault>
        ensures test { is_ok result ≡ (nat_le width 128 && nat_le (end self.old + width) (8 * length (held self.old))) }
        ensures cases { MatchResult result (λ _. Wrote self.old self.new (digits width v)) (λ e. (e.place ≡ end self.old) × (self.new ≡ self.old)) }
    {
        let start = self.pos;
        if width > 128 || !self.has_room(width as u128) {
            return Err(BitFault { place: start });
        }
        lay(self.out, start, width, v);
        self.pos = start + width as u128;
        Ok(())
    }

    // Whole bytes, behind what is written.
    pub fn put_bytes(&mut self, text: &[u8]) -> Result<(), BitFault>
        ensures test { is_ok result ≡ nat_le (end self.old + 8 * length text.now) (8 * length (held self.old)) }
        ensures cases { MatchResult result (λ _. Wrote self.old self.new (bits text.now)) (λ e. (e.place ≡ end self.old) × (self.new ≡ self.old)) }
    {
        let start = self.pos;
        let width = text.len() as u128 * 8;
        if !self.has_room(width) {
            return Err(BitFault { place: start });
        }
        lay_bytes(self.out, start, text);
        self.pos = start + width;
        Ok(())
    }
}
