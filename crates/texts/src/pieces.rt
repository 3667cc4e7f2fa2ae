// The pieces of a text between separators.
ghost use Rattle.std.specs.Prelude.{◌≡◌, [], ◌∷◌, MatchOption};
ghost use Rattle.texts.specs.Pieces.{pieces};

// What stands before the first separator, and what stands after it.
pub fn split_once(text: &[u8], separator: u8) -> Option<(&[u8], &[u8])>
    ensures { MatchOption result (pieces separator text.now ≡ text.now ∷ []) (λ p. pieces separator text.now ≡ p.0.now ∷ pieces separator p.1.now) }
{
    let i = text.iter().position(|byte| *byte == separator)?;
    Some((&text[..i], &text[i + 1..]))
}
