// Notes: rules in their bit form.
#![tactic(auto)]

mod block;
mod child_type;
mod constraint;
mod context;
mod country;
mod family;
mod fault;
mod laws;
mod lists;
mod operation;
mod originator;
mod packed;
mod refusals;
mod rule;
mod set;
mod window;
mod writing;

pub use block::{Address, Block};
pub use constraint::{Constraint, constraints_sound, list_admits, list_covers, lists_sound};
pub use context::{Circumstances, Context};
pub use country::Country;
pub use family::Family;
pub use fault::NoteFault;
pub use laws::{examples_hold, notes_round_trip};
pub use operation::Operation;
pub use originator::{EntryKind, Originator};
pub use packed::Packed;
pub use refusals::refusals_name_the_first_field;
pub use rule::{MAX_NOTE, PlainRule, Rule, RuleParts, Side, originator_text};
pub use window::Window;

// The texts that notes name, for callers of notes alone.
pub use texts::{
    Domain, FullForm, Identity, Standing, Unlawful, grammar_of_identities, is_domain, is_pattern,
    is_standing,
};
