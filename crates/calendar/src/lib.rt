// The Gregorian calendar of the years 2000 to 2099: instants, and the civil times that they read as.
#![tactic(auto)]

mod civil;
mod first_days;
mod instant;
mod months;

pub use civil::{CivilTime, examples_hold};
pub use instant::Instant;
