// One arc of a ground as a table holds it.
#[derive(Clone, Copy, Debug, Default, PartialEq, Eq)]
pub struct Arc {
    pub tail: u32,
    pub head: u32,
    pub least: u32,
}
