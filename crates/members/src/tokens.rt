// The token layer: pairs that are presented, together with those of the list below.
ghost use Rattle.std.specs.Prelude.{◌≡◌, []};
ghost use Rattle.texts.specs.TextValues.{text_of};
ghost use Rattle.members.specs.Pairs.{Alike};
ghost use Rattle.texts.specs.Few.{listed};
ghost use Rattle.members.specs.Rows.{listed as pairs_of};
ghost use Rattle.members.specs.Tokens.{with_presented, Presented, Gained};

use super::flat_roll::{MemberRow, has_row};
use super::full::LayerFull;
use super::member_list::MemberList;
use texts::{Few, Identity, Standing};

const MAX_PAIRS: usize = 8;

#[derive(Drop)]
pub struct TokenLayer<L: MemberList> {
    below: L,
    held: Few<MemberRow, MAX_PAIRS>,
}

impl<L: MemberList> MemberList for TokenLayer<L> {
    ghost pairs = { λ m. with_presented (listed m.held) (L.MemberList.pairs m.below) };

    fn has(&self, identity: &Identity, standing: &[u8]) -> bool {
        self.holds(identity, standing) || self.below.has(identity, standing)
    }
}

impl<L: MemberList> TokenLayer<L> {
    // Whether the layer itself holds the pair.
    fn holds(&self, identity: &Identity, standing: &[u8]) -> bool
        ensures { result ≡ pairs_of (listed self.now.held) (text_of identity.now) standing.now }
    {
        has_row(self.held.as_slice(), identity.as_bytes(), standing)
    }

    pub fn new(below: L) -> TokenLayer<L>
        ensures below { result.below ≡ below }
        ensures held { listed result.held ≡ [] }
        ensures meaning { Alike (⟦<TokenLayer<L> as MemberList>⟧.pairs result) (L.MemberList.pairs below) }
    {
        TokenLayer {
            below,
            held: Few::new(),
        }
    }

    pub fn below(&self) -> &L
        ensures { result.now ≡ self.now.below }
    {
        &self.below
    }

    // A pair that the layer holds is accepted without effect, also where the layer is full.
    pub fn present(&mut self, identity: &Identity, standing: &Standing) -> Result<(), LayerFull>
        ensures below { self.new.below ≡ self.old.below }
        ensures held { Presented (text_of identity.now) (text_of standing.now) (listed self.old.held) result (listed self.new.held) }
        ensures meaning { Gained (text_of identity.now) (text_of standing.now) (⟦<TokenLayer<L> as MemberList>⟧.pairs self.old) result (⟦<TokenLayer<L> as MemberList>⟧.pairs self.new) }
    {
        if self.holds(identity, standing.as_bytes()) {
            return Ok(());
        }
        self.held.push(MemberRow::new(identity, standing))?;
        Ok(())
    }

    pub fn clear(&mut self)
        ensures below { self.new.below ≡ self.old.below }
        ensures held { listed self.new.held ≡ [] }
        ensures meaning { Alike (⟦<TokenLayer<L> as MemberList>⟧.pairs self.new) (L.MemberList.pairs self.old.below) }
    {
        self.held.clear();
    }
}
