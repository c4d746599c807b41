// A place's rhs made anew.
ghost use Rattle.std.specs.Prelude.{◌≡◌, ◌<◌, slice_set};
ghost use Rattle.method.specs.Values.{rhs};
ghost use Rattle.search.specs.Tables.{place_at, Sized, told, with_rhs};

use crate::aim::Aim;
use crate::offers::Offers;
use crate::place::Place;
use crate::task::Task;
use ground::ground::Ground;

// Writes the rhs of a place anew. Where the tables do not fit the ground, or the place is none of the ground's, it changes nothing.
pub fn refresh<G: Ground>(site: &G, aim: Aim, costs: &[u32], places: &mut [Place], p: u32)
    ensures written { Sized (G.Ground.meaning site.now) costs.now places.old → p < (G.Ground.meaning site.now).places → places.new ≡ slice_set places.old p (with_rhs (place_at places.old p) (rhs (G.Ground.meaning site.now) (told aim costs.now places.old) p)) }
    ensures kept { (Sized (G.Ground.meaning site.now) costs.now places.old → p < (G.Ground.meaning site.now).places → ⊥) → places.new ≡ places.old }
{
    let task = Task { site, aim, costs };
    let Some(offers) = Offers::new(&task, places) else {
        return;
    };
    let rhs = offers.rhs(p);
    if p < site.places() {
        places[p as usize].rhs = rhs;
    }
}
