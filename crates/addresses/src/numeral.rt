// Numbers of a few digits.
ghost use Rattle.std.specs.Prelude.{◌≡◌, ◌<◌, ◌≤◌, IfSome};
ghost use Rattle.addresses.specs.Numerals.{numeral_of, octet_of};
ghost use Rattle.std.specs.Option.{SomeIff};
ghost use Rattle.std.specs.Char.{digit_value};

// The number that one to `most` digits of the base write.
fn numeral(piece: &[u8], base: u32, most: usize) -> Option<u32>
    requires { (2 ≤ base) × ((base ≤ 16) × (most ≤ 4)) }
    ensures number { result ≡ numeral_of base most piece.now }
    ensures small { IfSome result (λ n. n < 65536) }
{
    if piece.is_empty() || piece.len() > most {
        return None;
    }
    // A loop, since that a step fits follows from the digits so far, which a closure would not know.
    let mut number: u32 = 0;
    for byte in piece {
        number = number * base + digit(*byte, base)?;
    }
    Some(number)
}

// The digit of the base that the byte writes, where a letter may be in either case.
fn digit(byte: u8, base: u32) -> Option<u32>
    requires { (2 ≤ base) × (base ≤ 16) }
    ensures { SomeIff result (digit_value byte < base) (digit_value byte) }
{
    char::from(byte).to_digit(base)
}

// The number that one to four hexadecimal digits write.
pub(crate) fn group(piece: &[u8]) -> Option<u32>
    ensures number { result ≡ numeral_of 16 4 piece.now }
    ensures small { IfSome result (λ n. n < 65536) }
{
    numeral(piece, 16, 4)
}

// The number up to 255 that the piece writes in decimal. A zero in front of other digits is refused,
// since some readers take it for the mark of another base.
pub(crate) fn octet(piece: &[u8]) -> Option<u32>
    ensures number { result ≡ octet_of piece.now }
    ensures small { IfSome result (λ n. n < 256) }
{
    if piece.len() > 1 && piece[0] == b'0' {
        return None;
    }
    numeral(piece, 10, 3).filter(|number| *number <= 255)
}
