// What every member list promises.
ghost use Rattle.std.specs.Prelude.{◌≡◌, ℕ, Bool, List};
ghost use Rattle.texts.specs.TextValues.{text_of};

use texts::Identity;

pub trait MemberList {
    // The pairs of an identity and a standing that are in the list.
    ghost pairs: { Self → List ℕ → List ℕ → Bool };

    // The standing is a slice, since a rule holds it as a part of its note; so the pair that is asked for is no one value.
    fn has(&self, identity: &Identity, standing: &[u8]) -> bool
        ensures { result ≡ pairs self.now (text_of identity.now) standing.now };
}
