// Texts of a kind.
ghost use Rattle.std.specs.Prelude.{◌≡◌, true, ⊤};
ghost use Rattle.texts.specs.Few.{listed};
ghost use Rattle.texts.specs.Texts.{lawful_text};

use super::few::Few;
use super::grammar::Grammar;
use std::alloc::AllocError;
use std::marker::PhantomData;

mod methods;

// A text that the grammar allows, of at most `N` bytes.
pub struct Text<G: Grammar, const N: usize> {
    kind: PhantomData<G>,
    bytes: Few<u8, N>,
    ghost lawful: { lawful_text N G.allowed (listed bytes) ≡ true },
}

impl<G: Grammar, const N: usize> Copy for Text<G, N> {}

// By hand, since no derive reaches a ghost field of a generic struct.
impl<G: Grammar, const N: usize> Clone for Text<G, N> {
    ghost is_clone = { λ x y. y ≡ x };

    ghost is_infallible = { λ _. ⊤ };

    fn clone(&self) -> Result<Text<G, N>, AllocError> {
        Ok(*self)
    }
}
