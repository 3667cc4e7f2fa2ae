// The leavers layer: the list below without the pairs of noted identities.
ghost use Rattle.std.specs.Prelude.{◌≡◌, replicate};
ghost use Rattle.texts.specs.TextValues.{text_of};
ghost use Rattle.members.specs.Leavers.{no_leaver, without_noted, OnceEach, Noted, Readmitted, Lost, Regained};
ghost use Rattle.members.specs.Pairs.{Alike};

use super::full::LayerFull;
use super::leaver_table::LeaverTable;
use super::member_list::MemberList;
use texts::Identity;

// Each identity is noted at most once, so that clearing one entry readmits it.
#[derive(Drop)]
pub struct LeaversLayer<L: MemberList> {
    below: L,
    table: LeaverTable,
    ghost once: { OnceEach table.entries },
}

impl<L: MemberList> MemberList for LeaversLayer<L> {
    ghost pairs = { λ m. without_noted m.table.entries (L.MemberList.pairs m.below) };

    fn has(&self, identity: &Identity, standing: &[u8]) -> bool {
        !self.table.has(identity) && self.below.has(identity, standing)
    }
}

impl<L: MemberList> LeaversLayer<L> {
    pub fn new(below: L) -> LeaversLayer<L>
        ensures below { result.below ≡ below }
        ensures noted { result.table.entries ≡ replicate 16 no_leaver }
        ensures meaning { Alike (⟦<LeaversLayer<L> as MemberList>⟧.pairs result) (L.MemberList.pairs below) }
    {
        LeaversLayer {
            below,
            table: LeaverTable::new(),
        }
    }

    pub fn below(&self) -> &L
        ensures { result.now ≡ self.now.below }
    {
        &self.below
    }

    // An identity that is noted already is accepted without effect, also where the layer is full.
    pub fn note(&mut self, identity: &Identity) -> Result<(), LayerFull>
        ensures below { self.new.below ≡ self.old.below }
        ensures noted { Noted (text_of identity.now) self.old.table.entries result self.new.table.entries }
        ensures meaning { Lost (text_of identity.now) (⟦<LeaversLayer<L> as MemberList>⟧.pairs self.old) result (⟦<LeaversLayer<L> as MemberList>⟧.pairs self.new) }
    {
        if self.table.has(identity) {
            return Ok(());
        }
        let k = self.table.find_free().ok_or(LayerFull)?;
        self.table.enter(k, identity);
        Ok(())
    }

    // An identity that is not noted is accepted without effect.
    pub fn readmit(&mut self, identity: &Identity)
        ensures below { self.new.below ≡ self.old.below }
        ensures noted { Readmitted (text_of identity.now) self.old.table.entries self.new.table.entries }
        ensures meaning { Regained (text_of identity.now) (L.MemberList.pairs self.old.below) (⟦<LeaversLayer<L> as MemberList>⟧.pairs self.old) (⟦<LeaversLayer<L> as MemberList>⟧.pairs self.new) }
    {
        if let Some(k) = self.table.find(identity) {
            self.table.clear(k);
        }
    }
}
