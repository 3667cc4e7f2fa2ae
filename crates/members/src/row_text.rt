// Texts in rows of tables: bytes and a length, without any promise that they are lawful.
ghost use Rattle.std.specs.Prelude.{◌≡◌, ◌<◌, ◌≤◌, length, MatchOption};
ghost use Rattle.members.specs.Rows.{row_text_of, row_text_is};

use texts::same_text;

const MAX_LEN: usize = 40;

// The text is the first `len` bytes. A row with a length above 40 counts for nothing. Both fields are open, since tables are
// filled by others.
#[derive(Clone, Copy, Default)]
pub struct RowText {
    pub bytes: [u8; MAX_LEN],
    pub len: usize,
}

impl RowText {
    pub(super) fn holding(text: &[u8]) -> RowText
        requires { length text.now ≤ 40 }
        ensures { result ≡ row_text_of text.now }
    {
        let mut bytes = [0; MAX_LEN];
        let len = text.len();
        bytes[0..len].copy_from_slice(text);
        RowText { bytes, len }
    }

    // None where the text is too long for a row.
    pub fn new(text: &[u8]) -> Option<RowText>
        ensures { MatchOption result (40 < length text.now) (λ x. (length text.now ≤ 40) × (x ≡ row_text_of text.now)) }
    {
        if text.len() > MAX_LEN {
            return None;
        }
        Some(RowText::holding(text))
    }

    pub fn is(&self, text: &[u8]) -> bool
        ensures { result ≡ row_text_is text.now self.now }
    {
        self.len <= MAX_LEN && same_text(text, &self.bytes[0..self.len])
    }
}
