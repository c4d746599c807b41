// A plan with tables of its own.
use ground::ground::Ground;
use plan::answer::Answer;
use plan::plan::Plan;
use planner::carry_out::carry_out;
use queue::entry::Entry;
use queue::key::Key;
use search::place::Place;
use std::process::Abort;
use terms::call::Call;
use terms::refusal::Refusal;

// As many places and arcs as the largest ground of the tests has.
const PLACES: usize = 18;

const ARCS: usize = 145;

#[derive(Drop)]
pub(crate) struct Desk {
    plan: Plan,
    costs: [u32; ARCS],
    places: [Place; PLACES],
    queue: [Entry<Key>; PLACES],
    list: [u32; PLACES],
}

// A call and what it is to answer.
pub(crate) type Step<'a> = (Call<&'a [u32]>, Result<Answer, Refusal>);

impl Desk {
    pub(crate) fn new() -> Desk {
        Desk {
            plan: Plan::new(),
            costs: [0; ARCS],
            places: [Place::default(); PLACES],
            queue: [Entry::free(); PLACES],
            list: [0; PLACES],
        }
    }

    fn ask<G: Ground>(&mut self, ground: &G, call: Call<&[u32]>) -> Result<Answer, Refusal> {
        carry_out(
            &mut self.plan,
            ground,
            call,
            &mut self.costs,
            &mut self.places,
            &mut self.queue,
            &mut self.list,
        )
    }

    pub(crate) fn replay<G: Ground>(&mut self, rt: &impl Abort, ground: &G, steps: &[Step]) {
        for (call, answer) in steps {
            assert_eq!(rt; self.ask(ground, *call), *answer);
        }
    }

    // The last route is these arcs.
    pub(crate) fn lists(&self, rt: &impl Abort, arcs: &[u32]) {
        assert!(rt; self.list.starts_with(arcs));
    }
}
