// What a call means to a plan in its phase.
ghost use Rattle.std.specs.Prelude.{◌≡◌};
ghost use Rattle.plan.specs.Courses.{course_of};

use crate::phase::Phase;
use terms::refusal::Refusal;

#[derive(Clone, Copy)]
pub(crate) enum Kind {
    // Set, Move, Stretch
    Alter,
    Search,
    Route,
}

#[derive(Clone, Copy)]
pub(crate) struct Course {
    // Closed is emptied and the count starts at 0; the next phase is told either way
    pub(crate) afresh: bool,
    // the phase after the call, unless a search then settles
    pub(crate) next: Phase,
}

// Whether Closed is emptied first, and which phase comes next; or that a route cannot be had.
pub(crate) fn course_for(phase: Phase, call: Kind) -> Result<Course, Refusal>
    ensures { result ≡ course_of phase call }
{
    match (phase, call) {
        (_, Kind::Alter) => Ok(Course {
            afresh: false,
            next: Phase::Changed,
        }),
        (Phase::Changed, Kind::Search) => Ok(Course {
            afresh: true,
            next: Phase::UnderWay,
        }),
        (_, Kind::Search) => Ok(Course {
            afresh: false,
            next: Phase::UnderWay,
        }),
        (Phase::Settled, Kind::Route) => Ok(Course {
            afresh: false,
            next: Phase::Settled,
        }),
        (_, Kind::Route) => Err(Refusal::NotSettled),
    }
}
