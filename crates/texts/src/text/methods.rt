// Texts are tested once, where they are made.
ghost use Rattle.std.specs.Prelude.{◌≡◌, true, false, MatchResult};
ghost use Rattle.texts.specs.Texts.{lawful_text};
ghost use Rattle.texts.specs.TextValues.{text_of};

use super::super::few::Few;
use super::super::grammar::Grammar;
use super::super::unlawful::Unlawful;
use super::Text;
use std::marker::PhantomData;

impl<G: Grammar, const N: usize> Text<G, N> {
    pub fn new(src: &[u8]) -> Result<Text<G, N>, Unlawful>
        ensures { MatchResult result (λ x. (lawful_text N G.allowed src.now ≡ true) × (text_of x ≡ src.now)) (λ _. lawful_text N G.allowed src.now ≡ false) }
    {
        if !Self::is_lawful(src) {
            return Err(Unlawful);
        }
        let bytes = Few::of(src)?;
        Ok(Text {
            kind: PhantomData,
            bytes,
        })
    }

    // Whether the bytes are a text of this kind.
    pub fn is_lawful(src: &[u8]) -> bool
        ensures { result ≡ lawful_text N G.allowed src.now }
    {
        src.len() <= N && G::allows(src)
    }

    pub fn as_bytes(&self) -> &[u8]
        ensures { result.now ≡ text_of self.now }
    {
        self.bytes.as_slice()
    }
}
