// Carries out a call on a plan.
ghost use Rattle.std.specs.Prelude.{length};
ghost use Rattle.plan.specs.Stands.{Beyond, stand_of, Unless};
ghost use Rattle.planner.specs.Carried.{Begins, Declined, event_of, ListLeft};
ghost use Rattle.planner.specs.Leads.{KeepsPromise, TurnsAway};

use ground::ground::Ground;
use plan::answer::Answer;
use plan::plan::Plan;
use queue::entry::Entry;
use queue::key::Key;
use search::place::Place;
use terms::call::Call;
use terms::refusal::Refusal;

// Carries out one call. A route is written from the front of the list, and no other call writes there.
pub fn carry_out<G: Ground>(
    plan: &mut Plan,
    site: &G,
    call: Call<&[u32]>,
    costs: &mut [u32],
    places: &mut [Place],
    queue: &mut [Entry<Key>],
    list: &mut [u32],
) -> Result<Answer, Refusal>
    ensures declined { Declined (G.Ground.meaning site.now) call.entry (stand_of plan.old costs.old places.old queue.old) list.old result }
    ensures kept { Unless result (stand_of plan.old costs.old places.old queue.old) (stand_of plan.new costs.new places.new queue.new) }
    ensures listed { ListLeft call.entry result list.old list.new }
    ensures beyond { Beyond (G.Ground.meaning site.now) (stand_of plan.old costs.old places.old queue.old) (stand_of plan.new costs.new places.new queue.new) }
    ensures began { Begins (G.Ground.meaning site.now) call.entry result (stand_of plan.new costs.new places.new queue.new) }
    ensures law { KeepsPromise (G.Ground.meaning site.now) (event_of call.entry result list.new) (stand_of plan.old costs.old places.old queue.old) (stand_of plan.new costs.new places.new queue.new) }
    ensures away { TurnsAway result (stand_of plan.old costs.old places.old queue.old) (stand_of plan.new costs.new places.new queue.new) }
{
    match call {
        Call::Begin {
            here,
            landing,
            slack,
        } => plan.begin(site, here, landing, slack, costs, places, queue),
        Call::Set { arc, cost } => plan.set(site, arc, cost, costs, places),
        Call::Move { place } => plan.move_to(place),
        Call::Stretch { slack } => plan.stretch_to(slack),
        Call::Search { turns } => plan.search(site, turns, costs, places, queue),
        Call::Route => plan.route(site, costs, places, list),
        Call::Sum { arcs } => plan.sum(arcs, costs),
    }
}
