// The texts that rules name: identities, domains, standings and patterns.
#![tactic(auto)]

mod alphabet;
mod domain;
mod few;
mod full_form;
mod grammar;
mod identity;
mod matching;
mod pattern;
mod pieces;
mod same;
mod segments;
mod standing;
mod text;
mod unlawful;

pub use domain::{Domain, DomainGrammar, is_domain};
pub use few::{Few, Full};
pub use full_form::FullForm;
pub use grammar::Grammar;
pub use identity::{Identity, IdentityGrammar, grammar_of_identities, is_identity};
pub use matching::{
    domain_covers, domain_matches, matching_is_replacing, pattern_covers, pattern_matches,
};
pub use pattern::is_pattern;
pub use pieces::split_once;
pub use same::{same_decides, same_text};
pub use standing::{Standing, StandingGrammar, is_standing};
pub use text::Text;
pub use unlawful::Unlawful;
