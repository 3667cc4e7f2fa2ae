// The register: stored rules, links between targets and policies, and decisions.
#![tactic(auto)]

mod fault;
mod laws;
mod register;
mod request;
mod row;
mod rule_name;
mod season;
mod target_row;
mod verdict;

pub use fault::{Cause, RegisterFault};
pub use laws::example_holds;
pub use register::Register;
pub use request::{Request, Target};
pub use row::RuleRow;
pub use rule_name::RuleName;
pub use season::short_season;
pub use target_row::TargetRow;
pub use verdict::Verdict;
