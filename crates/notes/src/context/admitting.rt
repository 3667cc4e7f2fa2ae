// What a context admits, and what it covers.
ghost use Rattle.std.specs.Prelude.{◌≡◌};
ghost use Rattle.notes.specs.Contexts.{context_of, context_admits, context_covers};
ghost use Rattle.notes.specs.Sound.{context_sound};

use super::super::constraint::{Constraint, list_admits, list_covers};
use super::{Circumstances, Context};

impl Constraint for Context {
    type Value = Circumstances;

    ghost admitted = { λ c v. context_admits (context_of c) v.instant.civil v.address v.country };

    ghost covered = { λ c d. context_covers (context_of c) (context_of d) };

    ghost sound = { λ a b v. context_sound (context_of a) (context_of b) v.instant.civil v.address v.country };

    fn admits(&self, v: &Circumstances) -> bool {
        list_admits(self.windows.as_slice(), Some(&v.instant))
            & (list_admits(self.blocks.as_slice(), v.address.as_ref())
                & list_admits(self.countries.as_slice(), v.country.as_ref()))
    }

    fn covers(&self, other: &Context) -> bool {
        list_covers(self.windows.as_slice(), other.windows.as_slice())
            & (list_covers(self.blocks.as_slice(), other.blocks.as_slice())
                & list_covers(self.countries.as_slice(), other.countries.as_slice()))
    }
}
