// What a call answers when it is carried out. A declined call answers its refusal.
#[derive(Clone, Copy, Debug, PartialEq, Eq)]
pub enum Answer {
    Done,
    // the search ended: its turns, and the turns since Closed was emptied
    Settled { turns: u32, count: u32 },
    // the search used its turns up: its turns, and the turns since Closed was emptied
    Cut { turns: u32, count: u32 },
    // how many arcs the route has, from the front of the list, and their sum
    Route { arcs: usize, sum: u32 },
    Sum(u32),
}
