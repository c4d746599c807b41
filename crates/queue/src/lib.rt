// A priority queue over a lent slice of entries, for any keys that are `Ord` and `Copy`.
#![tactic(auto)]

pub mod compare;
pub mod entry;
#[cfg(test)]
mod examples;
pub mod key;
pub mod order;
pub mod queue;
mod slots;
mod tree;
