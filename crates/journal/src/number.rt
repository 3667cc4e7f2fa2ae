// Numbers as words write them.
ghost use Rattle.std.specs.Prelude.{ℕ, ◌+◌, ◌*◌, ◌^◌, ◌<◌, MatchOption};
ghost use Rattle.journal.specs.Numbers.{Decimal};
ghost use Rattle.std.specs.Option.{SomeIff};
ghost use Rattle.std.specs.Char.{digit_value};

// The number that the word writes in decimal, with digits and nothing else.
pub fn decimal(word: &[u8]) -> Option<u32>
    ensures { MatchOption result ((n : ℕ) → Decimal word.now n → ⊥) (λ n. Decimal word.now n) }
{
    if word.is_empty() {
        return None;
    }
    word.iter()
        .try_fold(0, |number, byte| push_digit(number, *byte))
}

// The number with one digit more at its end.
fn push_digit(number: u32, byte: u8) -> Option<u32>
    ensures { SomeIff result ((digit_value byte < 10) × (number * 10 + digit_value byte < 2 ^ 32)) (number * 10 + digit_value byte) }
{
    if !byte.is_ascii_digit() {
        return None;
    }
    number.checked_mul(10)?.checked_add(u32::from(byte - b'0'))
}
