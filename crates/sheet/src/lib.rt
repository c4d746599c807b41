// Sheets: the arcs of a site as a person types them, a line of names and then a line of values for each arc.
#![tactic(auto)]

mod check;
pub mod columns;
mod extent;
mod fill;
mod lines;
pub mod places;
pub mod read;
mod row;
