// A plan, and the calls on it.
ghost use Rattle.std.specs.Prelude.{◌≡◌, None};

use crate::header::Header;

mod alter;
mod ask;
mod begin;
mod seek;

// Where a plan stands, besides the tables that its caller lends to each call: nothing, until a Begin is accepted.
#[derive(Clone, Copy)]
pub struct Plan {
    header: Option<Header>,
}

impl Plan {
    // A plan that has not begun.
    pub fn new() -> Plan
        ensures { result.header ≡ None }
    {
        Plan { header: None }
    }
}
