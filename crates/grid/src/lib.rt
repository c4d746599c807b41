// Grids: cells in rows and columns, with eight arcs out of each.
#![tactic(auto)]

mod compass;
mod entries;
pub mod grid;
