// Tables of arcs: whether they are lawful, and an index of them by either end.
#![tactic(auto)]

pub mod end;
pub mod index;
pub mod lawful;
pub mod lists;
pub mod net;
mod sort;
