// The table of a leavers layer: sixteen entries, each free or with a noted identity.
ghost use Rattle.std.specs.Prelude.{◌≡◌, ◌<◌, not, replicate, position, slice_set};
ghost use Rattle.texts.specs.TextValues.{text_of};
ghost use Rattle.members.specs.Leavers.{no_leaver, leaver_of, taken, is_leaver, noted};

use super::row_text::RowText;
use texts::Identity;

const MAX_LEAVERS: usize = 16;

// A struct, since a single entry is lent and clears itself.
#[derive(Clone, Copy)]
pub(super) struct Leaver {
    identity: Option<RowText>,
}

impl Leaver {
    const UNUSED: Leaver = Leaver { identity: None };

    fn is_free(&self) -> bool
        ensures { result ≡ not (taken self.now) }
    {
        self.identity.is_none()
    }

    fn is(&self, identity: &[u8]) -> bool
        ensures { result ≡ is_leaver identity.now self.now }
    {
        self.identity.as_ref().is_some_and(|text| text.is(identity))
    }

    fn enter(&mut self, identity: &Identity)
        ensures { self.new ≡ leaver_of (text_of identity.now) }
    {
        self.identity = Some(RowText::holding(identity.as_bytes()));
    }

    fn clear(&mut self)
        ensures { self.new ≡ no_leaver }
    {
        *self = Leaver::UNUSED;
    }
}

// A table of fixed size: no call on a layer may fail for want of memory.
#[derive(Clone, Copy)]
pub(super) struct LeaverTable {
    entries: [Leaver; MAX_LEAVERS],
}

impl LeaverTable {
    pub(super) fn new() -> LeaverTable
        ensures { result.entries ≡ replicate 16 no_leaver }
    {
        LeaverTable {
            entries: [Leaver::UNUSED; MAX_LEAVERS],
        }
    }

    pub(super) fn has(&self, identity: &Identity) -> bool
        ensures { result ≡ noted self.now.entries (text_of identity.now) }
    {
        let text = identity.as_bytes();
        self.entries.iter().any(|entry| entry.is(text))
    }

    pub(super) fn find(&self, identity: &Identity) -> Option<usize>
        ensures { result ≡ position (is_leaver (text_of identity.now)) self.now.entries }
    {
        let text = identity.as_bytes();
        self.entries.iter().position(|entry| entry.is(text))
    }

    pub(super) fn find_free(&self) -> Option<usize>
        ensures { result ≡ position (λ x. not (taken x)) self.now.entries }
    {
        self.entries.iter().position(Leaver::is_free)
    }

    pub(super) fn enter(&mut self, k: usize, identity: &Identity)
        requires { k < 16 }
        ensures { self.new.entries ≡ slice_set self.old.entries k (leaver_of (text_of identity.now)) }
    {
        self.entries[k].enter(identity);
    }

    // Lends the entry, which clears itself.
    pub(super) fn clear(&mut self, k: usize)
        requires { k < 16 }
        ensures { self.new.entries ≡ slice_set self.old.entries k no_leaver }
    {
        self.entries[k].clear();
    }
}
