// How far a plan is: something was changed since its last search, its last search was cut, or it settled.
#[derive(Clone, Copy, Debug, PartialEq, Eq)]
pub enum Phase {
    Changed,
    UnderWay,
    Settled,
}
