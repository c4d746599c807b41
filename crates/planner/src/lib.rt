// The planner: one call on a plan carried out, and the route promise kept by it.
#![tactic(auto)]

pub mod carry_out;
