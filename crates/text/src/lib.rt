// Typed text taken apart: lines, the fields of a line, and the number in a field.
#![tactic(auto)]

mod cut;
pub mod fields;
pub mod lines;
pub mod number;
