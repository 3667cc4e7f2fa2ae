// An originator in words: its kind, and its text.
use super::{EntryKind, Originator};
use std::fmt;

// An originator with the note in which its text stands.
#[derive(Clone, Copy)]
pub(crate) struct InNote<'a> {
    kind: EntryKind,
    text: &'a [u8],
}

impl Originator {
    pub(crate) fn in_note<'a>(&self, note: &'a [u8]) -> InNote<'a> {
        InNote {
            kind: self.kind(),
            text: self.text(note),
        }
    }
}

impl fmt::Display for InNote<'_> {
    fn fmt<W: fmt::Write>(&self, f: &mut fmt::Formatter<W>) -> fmt::Result {
        let kind = match self.kind {
            EntryKind::All => return f.write_str("all"),
            EntryKind::Pattern => "pattern ",
            EntryKind::Domain => "domain ",
            EntryKind::Standing => "standing ",
        };
        f.write_str(kind)?;
        for byte in self.text {
            f.write_char(char::from(*byte))?;
        }
        Ok(())
    }
}
