// Grounds: what the planner asks of the land it plans over, whatever kind of land it is.
#![tactic(auto)]

pub mod around;
pub mod end;
pub mod ground;
