// The route: from here to the landing, each time by the leaving arc with the smallest offer.
ghost use Rattle.std.specs.Prelude.{◌≡◌, ◌<◌, length, IfSome};
ghost use Rattle.plan.specs.Routes.{far_at, route_in, step_from, Written};

use ground::ground::Ground;
use search::offers::Offers;
use search::place::Place;
use terms::amount::{FAR, capped_sum};

// Whether a place has the value Far.
pub(crate) fn is_far(places: &[Place], p: u32) -> bool
    ensures { result ≡ far_at places.now p }
{
    places.get(p as usize).is_some_and(|place| place.g == FAR)
}

// The next arc of the route and the place that it leads to; None at the landing, and where no arc leaves.
fn step<G: Ground>(offers: &Offers<G>, p: u32) -> Option<(u32, u32)>
    ensures step { result ≡ step_from (G.Ground.meaning offers.now.task.now.site.now) offers.now.task.now.aim.landing offers.now.task.now.costs.now offers.now.places.now p }
    ensures arc { IfSome result (λ x. x.0 < (G.Ground.meaning offers.now.task.now.site.now).arcs) }
{
    if p == offers.task.aim.landing {
        return None;
    }
    let arc = offers.cheapest(p)?;
    let head = offers.task.site.head(arc)?;
    Some((arc, head))
}

// How many arcs the route has.
pub(crate) fn count_arcs<G: Ground>(offers: &Offers<G>) -> usize
    ensures { result ≡ length (route_in (G.Ground.meaning offers.now.task.now.site.now) offers.now.task.now.aim offers.now.task.now.costs.now offers.now.places.now) }
{
    let mut p = offers.task.aim.here;
    let most = offers.places.len();
    for count in 0..most {
        let Some((_, head)) = step(offers, p) else {
            return count;
        };
        p = head;
    }
    most
}

// Fills a list, as long as the route, with its arcs, and answers their sum.
pub(crate) fn write_arcs<G: Ground>(offers: &Offers<G>, list: &mut [u32]) -> u32
    ensures { Written (G.Ground.meaning offers.now.task.now.site.now) offers.now.task.now.aim offers.now.task.now.costs.now offers.now.places.now list.old list.new result }
{
    let mut p = offers.task.aim.here;
    let mut sum = 0;
    for slot in list.iter_mut() {
        let Some((arc, head)) = step(offers, p) else {
            return sum;
        };
        *slot = arc;
        sum = capped_sum(sum, offers.task.costs[arc as usize]);
        p = head;
    }
    sum
}
