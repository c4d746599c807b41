// The pick-up: a layer over any ground.
#![tactic(auto)]

mod parts;
pub mod pickup;
