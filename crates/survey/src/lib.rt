// Survey: how far every place is from one of them.
#![tactic(auto)]

mod labels;
mod measure;
pub mod survey;
mod task;
pub mod working;
