// Addresses as words write them.
#![tactic(auto)]

mod cut;
mod form;
mod laws;
mod numeral;
mod row;
mod text;

pub use laws::examples_hold;
pub use text::address;
