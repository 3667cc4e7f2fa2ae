// The round trip, in both directions.
ghost use Rattle.std.specs.Prelude.{◌≡◌, ℕ, ◌^◌, ◌<◌, ◌≤◌, length};
ghost use Rattle.bits.specs.Digits.{digits, bits};
ghost use Rattle.bits.specs.Codec.{field, text, Bytes, Lawful};

// A number that fits its width reads back from its digits, and what is read has the digits that
// stand there, at every width and place.
pub fn field_round_trip()
    ensures { (w : ℕ) → w ≤ 128 → Lawful (λ v. v < 2 ^ w) (digits w) (field w) }
{}

// The same of whole bytes.
pub fn bytes_round_trip()
    ensures { (n : ℕ) → Lawful (λ t. (length t ≡ n) × Bytes t) bits (text n) }
{}
