// The recovery: all of a start before its Free segments are freed. Each function is one rule of it.
#![tactic(auto)]

mod blanks;
mod checks;
mod opening;
mod ordering;
mod placing;
mod plan;
mod recovering;
mod snapshots;
mod whole;

pub use plan::{Plan, check_plan};
pub use whole::{recover, recover_with};
