// A call on a plan, with its numbers. Its user says what stands for the arcs of a Sum: the arcs themselves, or how many they are.
#[derive(Clone, Copy, Debug, PartialEq, Eq)]
pub enum Call<A> {
    // begins anew: where the machine is, where it is to go, and the slack in sixteenths
    Begin { here: u32, landing: u32, slack: u32 },
    // gives an arc a cost, and 0 shuts it
    Set { arc: u32, cost: u32 },
    // the place where the machine is now
    Move { place: u32 },
    // the slack from now on, in sixteenths
    Stretch { slack: u32 },
    // searches, with at most so many turns
    Search { turns: u16 },
    // asks for the route
    Route,
    // asks what these arcs cost now
    Sum { arcs: A },
}
