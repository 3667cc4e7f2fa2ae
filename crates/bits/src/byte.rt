// Runs of bits inside one byte.
ghost use Rattle.std.specs.Prelude.{◌≡◌, ◌+◌, ◌-◌, ◌%◌, ◌^◌, ◌<◌, ◌≤◌};
ghost use Rattle.bits.specs.Digits.{run, replaced};

// The number that `n` bits of a byte spell, behind its first `used` bits.
pub(super) fn run_of(b: u8, used: usize, n: usize) -> u8
    requires { (0 < n) × (used + n ≤ 8) }
    ensures { result ≡ run b used n }
{
    let behind = 8 - used - n;
    ((b as u16 >> behind) % (1 << n)) as u8
}

// A byte with `n` of its bits, behind its first `used`, replaced by those of `v`.
pub(super) fn with_run(b: u8, used: usize, n: usize, v: u8) -> u8
    requires { (0 < n) × ((used + n ≤ 8) × (v < 2 ^ n)) }
    ensures { result ≡ replaced b used n v }
{
    let behind = 8 - used - n;
    let front = b as u16 >> (8 - used);
    let rest = b as u16 % (1 << behind);
    ((((front << n) + v as u16) << behind) + rest) as u8
}
