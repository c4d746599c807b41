// What Begin and Set write into the tables.
ghost use Rattle.std.specs.Prelude.{◌≡◌, ℕ, ◌<◌, List, length, slice_index};
ghost use Rattle.method.specs.Calls.{set_refusal, standing};
ghost use Rattle.plan.specs.Declines.{or_refused};
ghost use Rattle.plan.specs.Layouts.{CostWritten, fresh_place};
ghost use Rattle.search.specs.Tables.{place_at, Sized};

use ground::ground::Ground;
use search::aim::Aim;
use search::place::Place;
use search::refresh::refresh;
use terms::amount::FAR;
use terms::refusal::Refusal;

// Every arc costs its least.
pub(crate) fn cost_least<G: Ground>(site: &G, costs: &mut [u32])
    requires { length costs.old ≡ (G.Ground.meaning site.now).arcs }
    ensures { (j : ℕ) → j < length costs.old → slice_index costs.new j ≡ (G.Ground.meaning site.now).least j }
{
    for (arc, cost) in costs.iter_mut().enumerate() {
        if let Some(least) = site.least(arc as u32) {
            *cost = least;
        }
    }
}

// No place has a value yet; only the landing is offered one, which is 0.
pub(crate) fn open_landing(landing: u32, places: &mut [Place])
    requires { landing < length places.old }
    ensures { (p : ℕ) → p < length places.old → place_at places.new p ≡ fresh_place landing p }
{
    places.fill(Place {
        g: FAR,
        rhs: FAR,
        closed: false,
    });
    places[landing as usize].rhs = 0;
}

// What an arc costs once Set gave it this, or why Set declines.
pub(crate) fn standing_cost<G: Ground>(site: &G, arc: u32, cost: u32) -> Result<u32, Refusal>
    ensures { result ≡ or_refused (set_refusal (G.Ground.meaning site.now) arc cost) (standing cost) }
{
    let least = site.least(arc).ok_or(Refusal::NoSuchArc)?;
    match cost {
        0 => Ok(FAR),
        _ if cost < least || cost > 10_000 => Err(Refusal::CostOutside),
        _ => Ok(cost),
    }
}

// Writes what an arc costs, and the rhs of its tail anew.
pub(crate) fn write_cost<G: Ground>(
    site: &G,
    aim: Aim,
    arc: u32,
    cost: u32,
    costs: &mut [u32],
    places: &mut [Place],
)
    requires sized { Sized (G.Ground.meaning site.now) costs.old places.old }
    requires there { arc < (G.Ground.meaning site.now).arcs }
    ensures { CostWritten (G.Ground.meaning site.now) aim arc cost costs.old places.old costs.new places.new }
{
    costs[arc as usize] = cost;
    if let Some(tail) = site.tail(arc) {
        refresh(site, aim, costs, places, tail);
    }
}
