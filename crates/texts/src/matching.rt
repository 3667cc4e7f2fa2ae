// When patterns and domains match texts, and when they cover patterns.
ghost use Rattle.std.specs.Prelude.{◌≡◌, false, ◌&&◌, ◌∷◌, ◌++◌, length, MatchOption};
ghost use Rattle.texts.specs.Matching.{matches as matches_text, begins, in_domain, Replacing};
ghost use Rattle.texts.specs.Covering.{pattern_covers, domain_covers};
ghost use Rattle.texts.specs.Texts.{full};
ghost use Rattle.texts.specs.TextValues.{text_of};

use super::domain::Domain;
use super::full_form::{FullForm, is_absolute};

mod walk;

use walk::matches;

// What stands in the text behind `front`, if it begins so.
fn behind<'a>(text: &'a [u8], front: &[u8]) -> Option<&'a [u8]>
    ensures { MatchOption result (begins front.now text.now ≡ false) (λ rest. text.now ≡ front.now ++ rest.now) }
{
    text.strip_prefix(front)
}

// What stands in the text behind '//' and a name.
fn behind_name<'a>(text: &'a [u8], name: &[u8]) -> Option<&'a [u8]>
    ensures { MatchOption result (begins (47 ∷ 47 ∷ name.now) text.now ≡ false) (λ rest. text.now ≡ 47 ∷ 47 ∷ (name.now ++ rest.now)) }
{
    let rest = behind(text, b"//")?;
    behind(rest, name)
}

// Whether the pattern, with this home domain, matches the text. The full form is not put together: its front has no
// star, so the text has to begin with it, and the pattern has to match the rest.
pub fn pattern_matches(home: &Domain, pattern: &[u8], text: &[u8]) -> bool
    ensures { result ≡ matches_text (full (text_of home.now) pattern.now) text.now }
{
    if is_absolute(pattern) {
        return matches(pattern, text);
    }
    match behind_name(text, home.as_bytes()) {
        Some(rest) => matches(pattern, rest),
        None => false,
    }
}

// Whether the pattern covers another.
pub fn pattern_covers(home: &Domain, pattern: &[u8], other: &[u8]) -> bool
    ensures { result ≡ pattern_covers (text_of home.now) pattern.now other.now }
{
    FullForm::new(home, other).is_some_and(|form| pattern_matches(home, pattern, form.as_bytes()))
}

// Whether the text belongs to the domain: it begins with '//', the domain and '/'.
pub fn domain_matches(domain: &[u8], text: &[u8]) -> bool
    ensures { result ≡ in_domain domain.now text.now }
{
    match behind_name(text, domain) {
        Some(rest) => behind(rest, b"/").is_some(),
        None => false,
    }
}

// Whether the domain covers the pattern.
pub fn domain_covers(home: &Domain, domain: &[u8], pattern: &[u8]) -> bool
    ensures { result ≡ domain_covers (text_of home.now) domain.now pattern.now }
{
    FullForm::new(home, pattern).is_some_and(|form| domain_matches(domain, form.as_bytes()))
}

// A pattern matches exactly the texts that come of it when each star is replaced by zero or more bytes other than '/'.
pub fn matching_is_replacing()
    ensures { Replacing }
{}
