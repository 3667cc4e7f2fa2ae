// Which requests a rule admits, and which rules it covers.
#![tactic(auto)]

mod admitting;
mod covering;
mod laws;
mod request;
mod view;

pub use laws::{
    contexts_are_not_mixed, covering_is_sound, day_and_weekday_both_count, examples_hold,
};
pub use request::CheckedRequest;
pub use view::RuleView;
