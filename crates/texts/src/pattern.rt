// Patterns: '//' and two or three segments, or '/' and one or two, in which '*' may stand; at most 40 bytes.
ghost use Rattle.std.specs.Prelude.{◌≡◌};
ghost use Rattle.texts.specs.Texts.{pattern};

use super::alphabet::Alphabet;
use super::segments::{behind_slash, is_path};

pub(super) const PATTERN_MAX: usize = 40;

pub fn is_pattern(src: &[u8]) -> bool
    ensures { result ≡ pattern src.now }
{
    if src.len() > PATTERN_MAX {
        return false;
    }
    match behind_slash(src) {
        Some(rest) => match behind_slash(rest) {
            Some(path) => is_path(path, Alphabet::Starred, 2, 3),
            None => is_path(rest, Alphabet::Starred, 1, 2),
        },
        None => false,
    }
}
