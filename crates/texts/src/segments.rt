// Segments, and paths of segments between slashes.
ghost use Rattle.std.specs.Prelude.{◌≡◌, ℕ, ◌+◌, true, false, ◌&&◌, ◌∷◌, if◌then◌else◌, MatchOption, nat_eq, nat_le};
ghost use Rattle.texts.specs.Texts.{segment, path, slash_then};
ghost use Rattle.texts.specs.Alphabets.{allowed};
ghost use Rattle.texts.specs.PathFronts.{extended};

use super::alphabet::Alphabet;

pub(super) const SLASH: u8 = b'/';

// Whether the text has a byte, and each of its bytes is in the alphabet.
pub(super) fn is_segment(text: &[u8], alphabet: Alphabet) -> bool
    ensures { result ≡ segment (allowed alphabet) text.now }
{
    !text.is_empty() & alphabet.has_all(text)
}

// Whether the byte may come next in a path; `inside` says that the last one belongs to a segment.
// No segment is empty, so a slash comes only behind a segment.
fn may_stand(b: u8, inside: bool, alphabet: Alphabet) -> bool
    ensures { result ≡ (if nat_eq b 47 then inside else allowed alphabet b) }
{
    if b == SLASH { inside } else { alphabet.has(b) }
}

// Whether a path with so many slashes has `least` to `most` segments: it has one more than slashes.
fn has_segments(slashes: usize, least: usize, most: usize) -> bool
    ensures { result ≡ (nat_le least (slashes + 1) && nat_le (slashes + 1) most) }
{
    slashes < most && least <= slashes + 1
}

// The front of a path: its slashes, and whether a byte of a segment stands behind the last of them.
#[derive(Clone, Copy)]
struct PathFront {
    slashes: usize,
    inside: bool,
}

impl PathFront {
    // With the byte that comes next, if it may stand there and no slash is too many.
    fn extended(self, b: u8, alphabet: Alphabet, most: usize) -> Option<PathFront>
        ensures { result ≡ extended (allowed alphabet) most b self }
    {
        if !may_stand(b, self.inside, alphabet) {
            return None;
        }
        if b != SLASH {
            return Some(PathFront {
                slashes: self.slashes,
                inside: true,
            });
        }
        if self.slashes >= most {
            return None;
        }
        Some(PathFront {
            slashes: self.slashes + 1,
            inside: false,
        })
    }
}

// The front that the whole text makes, in one pass that ends at the first byte that may not stand.
fn front_of(text: &[u8], alphabet: Alphabet, most: usize) -> Option<PathFront>
    ensures { (least : ℕ) → MatchOption result (path (allowed alphabet) least most text.now ≡ false) (λ r. path (allowed alphabet) least most text.now ≡ (r.inside && (nat_le least (r.slashes + 1) && nat_le (r.slashes + 1) most))) }
{
    let start = PathFront {
        slashes: 0,
        inside: false,
    };
    text.iter()
        .try_fold(start, |front, b| front.extended(*b, alphabet, most))
}

// Whether the text is `least` to `most` segments, joined by single slashes.
pub(super) fn is_path(text: &[u8], alphabet: Alphabet, least: usize, most: usize) -> bool
    ensures { result ≡ path (allowed alphabet) least most text.now }
{
    match front_of(text, alphabet, most) {
        Some(front) => front.inside & has_segments(front.slashes, least, most),
        None => false,
    }
}

// What stands behind the slash at the front of the text, if there is one.
pub(super) fn behind_slash(text: &[u8]) -> Option<&[u8]>
    ensures { MatchOption result (slash_then (λ _. true) text.now ≡ false) (λ rest. text.now ≡ 47 ∷ rest.now) }
{
    match text {
        [SLASH, rest @ ..] => Some(rest),
        _ => None,
    }
}
