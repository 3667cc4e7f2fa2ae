// The flat roll: a table of rows, each an identity and a standing, that is lent for reading.
ghost use Rattle.std.specs.Prelude.{◌≡◌};
ghost use Rattle.texts.specs.TextValues.{text_of};
ghost use Rattle.members.specs.Rows.{row_of, row_is, listed};

use super::member_list::MemberList;
use super::row_text::RowText;
use texts::{Identity, Standing};

#[derive(Clone, Copy, Default)]
pub struct MemberRow {
    pub identity: RowText,
    pub standing: RowText,
}

impl MemberRow {
    pub fn new(identity: &Identity, standing: &Standing) -> MemberRow
        ensures { result ≡ row_of (text_of identity.now) (text_of standing.now) }
    {
        MemberRow {
            identity: RowText::holding(identity.as_bytes()),
            standing: RowText::holding(standing.as_bytes()),
        }
    }

    pub fn is(&self, identity: &[u8], standing: &[u8]) -> bool
        ensures { result ≡ row_is identity.now standing.now self.now }
    {
        self.identity.is(identity) && self.standing.is(standing)
    }
}

// Whether a row has both texts.
pub(super) fn has_row(rows: &[MemberRow], identity: &[u8], standing: &[u8]) -> bool
    ensures { result ≡ listed rows.now identity.now standing.now }
{
    rows.iter().any(|row| row.is(identity, standing))
}

#[derive(Drop)]
pub struct FlatRoll<'a> {
    rows: &'a [MemberRow],
}

impl<'a> FlatRoll<'a> {
    pub fn new(rows: &'a [MemberRow]) -> FlatRoll<'a>
        ensures { result.rows.now ≡ rows.now }
    {
        FlatRoll { rows }
    }
}

impl<'a> MemberList for FlatRoll<'a> {
    ghost pairs = { λ m. listed m.rows.now };

    fn has(&self, identity: &Identity, standing: &[u8]) -> bool {
        has_row(self.rows, identity.as_bytes(), standing)
    }
}
