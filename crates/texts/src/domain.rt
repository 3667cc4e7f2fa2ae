// Domains: a segment of at most 24 bytes.
ghost use Rattle.std.specs.Prelude.{◌≡◌};
ghost use Rattle.texts.specs.Texts.{domain, plain, segment};

use super::alphabet::Alphabet;
use super::grammar::Grammar;
use super::segments::is_segment;
use super::text::Text;

const MAX_LEN: usize = 24;

#[derive(Clone, Copy)]
pub struct DomainGrammar;

pub type Domain = Text<DomainGrammar, MAX_LEN>;

impl Grammar for DomainGrammar {
    ghost allowed = { segment plain };

    fn allows(text: &[u8]) -> bool {
        is_segment(text, Alphabet::Plain)
    }
}

pub fn is_domain(src: &[u8]) -> bool
    ensures { result ≡ domain src.now }
{
    Domain::is_lawful(src)
}
