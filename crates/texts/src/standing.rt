// Standings: 1 to 40 visible bytes without '*'.
ghost use Rattle.std.specs.Prelude.{◌≡◌};
ghost use Rattle.texts.specs.Texts.{segment, slashed, standing};

use super::alphabet::Alphabet;
use super::grammar::Grammar;
use super::segments::is_segment;
use super::text::Text;

#[derive(Clone, Copy)]
pub struct StandingGrammar;

pub type Standing = Text<StandingGrammar, 40>;

impl Grammar for StandingGrammar {
    ghost allowed = { segment slashed };

    fn allows(text: &[u8]) -> bool {
        is_segment(text, Alphabet::Slashed)
    }
}

pub fn is_standing(src: &[u8]) -> bool
    ensures { result ≡ standing src.now }
{
    Standing::is_lawful(src)
}
