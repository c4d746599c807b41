// The terms that every other crate speaks in: amounts, the slack, arcs, calls, faults and refusals.
#![tactic(auto)]

pub mod amount;
pub mod arc;
pub mod call;
pub mod fault;
pub mod refusal;
pub mod slack;
pub mod words;
