// Identities: '//' and two or three segments, at most 40 bytes.
ghost use Rattle.std.specs.Prelude.{◌≡◌};
ghost use Rattle.texts.specs.Grammar.{IdentityGrammar as GrammarOfIdentities};
ghost use Rattle.texts.specs.Texts.{identity, plain, path, slash_then};

use super::alphabet::Alphabet;
use super::grammar::Grammar;
use super::segments::{behind_slash, is_path};
use super::text::Text;

#[derive(Clone, Copy)]
pub struct IdentityGrammar;

pub type Identity = Text<IdentityGrammar, 40>;

impl Grammar for IdentityGrammar {
    ghost allowed = { slash_then (slash_then (path plain 2 3)) };

    fn allows(text: &[u8]) -> bool {
        behind_slash(text)
            .and_then(behind_slash)
            .is_some_and(|path| is_path(path, Alphabet::Plain, 2, 3))
    }
}

pub fn is_identity(src: &[u8]) -> bool
    ensures { result ≡ identity src.now }
{
    Identity::is_lawful(src)
}

// The test of identities says yes of exactly the texts that the grammar describes.
pub fn grammar_of_identities()
    ensures { GrammarOfIdentities }
{}
