// Roads: a ground over lent tables.
#![tactic(auto)]

mod check;
pub mod roads;
