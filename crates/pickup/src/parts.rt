// How a layer lies over the ground below.
ghost use Rattle.std.specs.Prelude.{◌≡◌, ◌+◌, ◌≤◌};

// An arc of a layer: one of the ground below, a copy of one, or the pick-up.
#[derive(Clone, Copy)]
pub enum Part {
    Before(u32),
    After(u32),
    Crossing,
}

// A place of a layer: the place below it, and the first arc of the copy that it belongs to.
#[derive(Clone, Copy)]
pub struct Side {
    pub place: u32,
    pub first: u32,
}

impl Side {
    // The copy of an arc on this side.
    pub(crate) fn copy_of(self, arc: u32) -> u32
        requires { (self.first ≤ 131072) × (arc ≤ 131072) }
        ensures { result ≡ self.first + arc }
    {
        self.first + arc
    }
}
