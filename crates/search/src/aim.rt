// What a search aims at.
use terms::slack::Slack;

#[derive(Clone, Copy)]
pub struct Aim {
    // where the machine is, and where it is to go
    pub here: u32,
    pub landing: u32,
    pub slack: Slack,
}
