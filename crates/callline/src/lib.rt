// Lines of the cab program: one line read as a call on a plan.
#![tactic(auto)]

mod forms;
mod numbers;
pub mod read;
mod sum;
