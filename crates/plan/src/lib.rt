// The plan: seven calls on tables that the caller lends, over any ground.
#![tactic(auto)]

mod admit;
pub mod answer;
mod course;
pub mod header;
mod layout;
pub mod phase;
pub mod plan;
mod route;
mod total;
