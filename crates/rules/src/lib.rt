// The rules of the segment accountant as definitions, the runs that they are tried on, and what is promised of every run.
#![tactic(auto)]

mod refusal;
mod theorems;

pub use refusal::Refusal;
pub use theorems::{recount_of_worked_runs, refusals_come_in_order, worked_runs_come_out};
