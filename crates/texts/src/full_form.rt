// The full form of a pattern: itself where it begins with '//', else '//', the home domain and the pattern.
ghost use Rattle.std.specs.Prelude.{◌≡◌, ◌<◌, ◌≤◌, true, length, MatchOption};
ghost use Rattle.texts.specs.Texts.{slash_then, full};
ghost use Rattle.texts.specs.TextValues.{text_of, full_form_text};

use super::domain::Domain;
use super::few::Few;
use super::pattern::PATTERN_MAX;
use super::segments::behind_slash;

// Enough for '//', a domain and a pattern.
#[derive(Clone, Copy)]
pub struct FullForm {
    bytes: Few<u8, 66>,
}

// Whether the text begins with '//'.
pub(crate) fn is_absolute(text: &[u8]) -> bool
    ensures { result ≡ slash_then (slash_then (λ _. true)) text.now }
{
    behind_slash(text).and_then(behind_slash).is_some()
}

impl FullForm {
    // None where the text is too long for a pattern.
    pub fn new(home: &Domain, pattern: &[u8]) -> Option<FullForm>
        ensures { MatchOption result (40 < length pattern.now) (λ x. (length pattern.now ≤ 40) × (full_form_text x ≡ full (text_of home.now) pattern.now)) }
    {
        if pattern.len() > PATTERN_MAX {
            return None;
        }
        let mut bytes = Few::new();
        if !is_absolute(pattern) {
            bytes.extend(b"//").ok()?;
            bytes.extend(home.as_bytes()).ok()?;
        }
        bytes.extend(pattern).ok()?;
        Some(FullForm { bytes })
    }

    pub fn as_bytes(&self) -> &[u8]
        ensures { result.now ≡ full_form_text self.now }
    {
        self.bytes.as_slice()
    }
}
