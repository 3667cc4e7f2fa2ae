// Rows are read piece by piece.
ghost use Rattle.std.specs.Prelude.{◌≡◌, ◌==◌, [], ◌∷◌};
ghost use Rattle.std.specs.Option.{option_map};
ghost use Rattle.addresses.specs.Forms.{separator as separator_of, size as size_of};
ghost use Rattle.addresses.specs.Rows.{parts_of, row_value, empty, row_with};
ghost use Rattle.texts.specs.Pieces.{pieces};

use super::super::form::{base, part, separator, size};
use super::Row;
use notes::Family;

impl Row {
    pub(crate) fn new(family: Family) -> Row
        ensures { row_value result ≡ empty family }
    {
        Row {
            family,
            bits: 0,
            count: 0,
        }
    }

    // The parts between the separators of the text.
    pub(crate) fn read(family: Family, text: &[u8]) -> Option<Row>
        ensures { option_map row_value result ≡ row_with (empty family) (parts_of family (pieces (separator_of family) text.now)) }
    {
        let separator = separator(family);
        text.split(|byte| *byte == separator)
            .try_fold(Row::new(family), |row, piece| row.push(piece))
    }

    // Whether the row has as many parts as an address.
    pub(crate) fn is_full(&self) -> bool
        ensures { result ≡ (self.now.count == size_of self.now.family) }
    {
        self.count == size(self.family)
    }

    // The row with the part that the piece writes at its end.
    fn push(self, piece: &[u8]) -> Option<Row>
        ensures { option_map row_value result ≡ row_with (row_value self) (parts_of self.family (piece.now ∷ [])) }
    {
        if self.is_full() {
            return None;
        }
        let number = part(self.family, piece)?;
        Some(Row {
            family: self.family,
            bits: self.bits * base(self.family) + u128::from(number),
            count: self.count + 1,
        })
    }
}
