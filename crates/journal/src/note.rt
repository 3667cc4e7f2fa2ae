// Notes as words write them.
ghost use Rattle.std.specs.Prelude.{ℕ, ◌+◌, ◌*◌, ◌<◌, ◌≤◌, List, length, MatchOption};
ghost use Rattle.std.specs.Borrow.{Bor};
ghost use Rattle.journal.specs.Notes.{Hex, Noted};
ghost use Rattle.std.specs.Option.{SomeIff};
ghost use Rattle.std.specs.Char.{digit_value};

// The note that the word writes, in the front of the space.
pub(crate) fn note<'a>(word: &[u8], space: &'a mut [u8]) -> Option<&'a [u8]>
    requires { length word.now ≤ length space.old }
    ensures { MatchOption result ((note : Bor (List ℕ)) → Noted word.now note → ⊥) (λ note. Noted word.now note) }
{
    if word == b"-".as_slice() {
        return Some(&[]);
    }
    bytes(word, space)
}

// The bytes that the word writes in hexadecimal.
fn bytes<'a>(word: &[u8], space: &'a mut [u8]) -> Option<&'a [u8]>
    requires { length word.now ≤ length space.old }
    ensures { MatchOption result ((bytes : List ℕ) → Hex word.now bytes → ⊥) (λ bytes. Hex word.now bytes.now) }
{
    let (pairs, odd) = word.as_chunks::<2>();
    if pairs.is_empty() || !odd.is_empty() {
        return None;
    }
    // By place, since the space is longer than the bytes, and its front is lent on.
    for (i, [high, low]) in pairs.iter().enumerate() {
        space[i] = byte(*high, *low)?;
    }
    Some(&space[..pairs.len()])
}

// The byte that two hexadecimal digits write.
fn byte(high: u8, low: u8) -> Option<u8>
    ensures { SomeIff result ((digit_value high < 16) × (digit_value low < 16)) (digit_value high * 16 + digit_value low) }
{
    let high = char::from(high).to_digit(16)?;
    let low = char::from(low).to_digit(16)?;
    Some((high * 16 + low) as u8)
}
