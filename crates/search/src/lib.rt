// The search over lent tables: what the tables hold, one turn, and turns until the end.
#![tactic(auto)]

pub mod aim;
pub mod made;
pub mod offers;
pub mod place;
pub mod refresh;
pub mod search;
mod tables;
pub mod task;
mod waiting;
