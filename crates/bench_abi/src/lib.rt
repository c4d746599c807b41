// The boundary through which the Rust programs of bench/ call the crates. It holds no logic of its own.
#![tactic(auto)]

pub mod plan_calls;
pub mod queue_calls;
pub mod roads_calls;
