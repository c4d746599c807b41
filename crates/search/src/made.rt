// What a search came to. A flag and a number: the turns are told whether it settled or not.
#[derive(Clone, Copy, Debug, PartialEq, Eq)]
pub struct Made {
    // the end test holds
    pub settled: bool,
    pub turns: u32,
}
