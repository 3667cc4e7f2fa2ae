// A rule where it stands: its note, in which the texts of its originators are, and its parts.
ghost use Rattle.std.specs.Prelude.{◌≡◌};
ghost use Rattle.notes.specs.Originators.{originator_of};
ghost use Rattle.admission.specs.Views.{entry_in};

use notes::{EntryKind, Originator, RuleParts};

#[derive(Clone, Copy)]
pub struct RuleView<'a> {
    pub note: &'a [u8],
    pub parts: &'a RuleParts,
}

// An originator entry: its kind, and its text in the note. A type of this crate, since matching and covering are its methods.
#[derive(Clone, Copy)]
pub(super) struct EntryView<'a> {
    pub(super) kind: EntryKind,
    pub(super) text: &'a [u8],
}

impl<'a> RuleView<'a> {
    // An originator entry of the rule.
    pub(super) fn entry(&self, originator: &Originator) -> EntryView<'a>
        ensures { entry_in result ≡ originator_of self.now.note.now originator.now }
    {
        EntryView {
            kind: originator.kind(),
            text: originator.text(self.note),
        }
    }
}
