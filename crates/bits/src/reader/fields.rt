// The methods of the reader.
ghost use Rattle.std.specs.Prelude.{◌≡◌, ◌+◌, ◌-◌, ◌*◌, ◌/◌, ◌%◌, ◌^◌, ◌<◌, ◌≤◌, ◌≢◌, length, take, drop, IfOk, Ok, Err, MatchResult};
ghost use Rattle.std.specs.Int.Digits.{number_from_digits};
ghost use Rattle.bits.specs.Digits.{bits};
ghost use Rattle.bits.specs.Faults.{report as report_of};
ghost use Rattle.bits.specs.Codec.{field, text};
ghost use Rattle.bits.specs.Reader.{bytes as bytes_of, source, place as place_of, Part};

use super::super::byte::run_of;
use super::super::fault::BitFault;
use super::BitReader;

// The number that `width` bits spell, from the bit `start` on. Each turn takes what it can of one byte. An iterator would
// hold the same three counters, since a turn takes 1 to 8 bits.
fn number_at(src: &[u8], start: u128, width: usize) -> u128
    requires { (width ≤ 128) × (start + width ≤ 8 * length src.now) }
    ensures { result ≡ number_from_digits 2 (take width (drop start (bits src.now))) }
{
    let mut byte = (start / 8) as usize;
    let mut used = (start % 8) as usize;
    let mut left = width;
    let mut v = 0u128;
    while left > 0 {
        let n = left.min(8 - used);
        v = (v << n) + run_of(src[byte], used, n) as u128;
        let end = used + n;
        byte += end / 8;
        used = end % 8;
        left -= n;
    }
    v
}

// The `len` bytes from `first` on.
fn part_at(src: &[u8], first: usize, len: usize) -> &[u8]
    requires { first + len ≤ length src.now }
    ensures { result.now ≡ take len (drop first src.now) }
{
    &src[first..first + len]
}

impl<'a> BitReader<'a> {
    pub fn new(src: &'a [u8]) -> BitReader<'a>
        ensures bytes { bytes_of result ≡ src.now }
        ensures place { place_of result ≡ 0 }
    {
        BitReader { src, pos: 0 }
    }

    // How many bits are read.
    pub fn place(&self) -> u128
        ensures { result ≡ place_of self.now }
    {
        self.pos
    }

    // How many bits are still to be read.
    pub fn left(&self) -> u128
        ensures { result + place_of self.now ≡ 8 * length (bytes_of self.now) }
    {
        self.src.len() as u128 * 8 - self.pos
    }

    // Passes `n` bits, which are there.
    fn advance(&mut self, n: u128)
        requires { place_of self.old + n ≤ 8 * length (bytes_of self.old) }
        ensures kept { bytes_of self.new ≡ bytes_of self.old }
        ensures moved { place_of self.new ≡ place_of self.old + n }
    {
        self.pos += n;
    }

    // The number that the next `width` bits spell.
    pub fn take(&mut self, width: usize) -> Result<u128, BitFault>
        ensures kept { bytes_of self.new ≡ bytes_of self.old }
        ensures small { IfOk result (λ v. v < 2 ^ width) }
        ensures cases { MatchResult result (λ v. field width (source self.old) (place_of self.old) ≡ Ok (v, place_of self.new)) (λ e. (field width (source self.old) (place_of self.old) ≡ Err (report_of e)) × (place_of self.new ≡ place_of self.old)) }
    {
        let start = self.pos;
        if width > 128 || self.left() < width as u128 {
            return Err(BitFault { place: start });
        }
        let v = number_at(self.src, start, width);
        self.advance(width as u128);
        Ok(v)
    }

    // The next `len` bytes, as a part of what is read. No part begins inside a byte.
    pub fn part(&mut self, len: usize) -> Result<&'a [u8], BitFault>
        ensures kept { bytes_of self.new ≡ bytes_of self.old }
        ensures part { IfOk result (λ t. Part (bytes_of self.old) (place_of self.old) len t.now) }
        ensures whole { place_of self.old % 8 ≡ 0 → MatchResult result (λ t. text len (source self.old) (place_of self.old) ≡ Ok (t.now, place_of self.new)) (λ e. (text len (source self.old) (place_of self.old) ≡ Err (report_of e)) × (place_of self.new ≡ place_of self.old)) }
        ensures inside { place_of self.old % 8 ≢ 0 → (result ≡ Err (record { place = place_of self.old })) × (place_of self.new ≡ place_of self.old) }
    {
        let start = self.pos;
        if start % 8 != 0 {
            return Err(BitFault { place: start });
        }
        let first = (start / 8) as usize;
        if self.src.len() - first < len {
            return Err(BitFault { place: start });
        }
        let part = part_at(self.src, first, len);
        self.advance(len as u128 * 8);
        Ok(part)
    }
}
