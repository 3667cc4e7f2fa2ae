// Texts cut in two.
ghost use Rattle.std.specs.Prelude.{◌≡◌, Some, None, MatchOption};
ghost use Rattle.addresses.specs.Gaps.{around};

// What stands before the first double colon, and what stands after it.
pub(crate) fn split_at_gap(text: &[u8]) -> Option<(&[u8], &[u8])>
    ensures { MatchOption result (around text.now ≡ None) (λ p. around text.now ≡ Some (p.0.now, p.1.now)) }
{
    let i = text.windows(2).position(|pair| pair == b"::".as_slice())?;
    Some((&text[..i], &text[i + 2..]))
}
