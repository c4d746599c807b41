// What arcs offer the place that they leave.
ghost use Rattle.std.specs.Prelude.{◌≡◌, map, None, MatchOption};
ghost use Rattle.ground.specs.Questions.{arcs_from};
ghost use Rattle.method.specs.Calls.{cheapest};
ghost use Rattle.method.specs.Values.{rhs, smallest};
ghost use Rattle.search.specs.Tables.{offer_of, offered, Sized, told};

use crate::aim::Aim;
use crate::place::Place;
use crate::task::Task;
use ground::around::leaving;
use ground::ground::Ground;
use terms::amount::{FAR, capped_sum};
use terms::slack::Slack;

// A task and the records of its ground's places, with just one entry for each arc and each place.
#[derive(Drop)]
pub struct Offers<'t, G: Ground> {
    pub task: &'t Task<'t, G>,
    pub places: &'t [Place],
    ghost sized: { Sized (G.Ground.meaning task.now.site.now) task.now.costs.now places.now },
}

impl<'t, G: Ground> Offers<'t, G> {
    // The offers by these tables; None where they do not fit the ground.
    pub fn new(task: &'t Task<'t, G>, places: &'t [Place]) -> Option<Offers<'t, G>>
        ensures { MatchOption result (Sized (G.Ground.meaning task.now.site.now) task.now.costs.now places.now → ⊥) (λ o. (o.task.now ≡ task.now) × (o.places.now ≡ places.now)) }
    {
        if task.costs.len() == task.site.arcs() as usize
            && places.len() == task.site.places() as usize
        {
            Some(Offers { task, places })
        } else {
            None
        }
    }

    // The way over an arc: its cost and the value of its head; Far over none.
    fn over(&self, arc: u32) -> u32
        ensures { result ≡ offer_of (G.Ground.meaning self.now.task.now.site.now) self.now.task.now.costs.now self.now.places.now arc }
    {
        match self.task.site.head(arc) {
            Some(head) => capped_sum(self.task.costs[arc as usize], self.places[head as usize].g),
            None => FAR,
        }
    }

    // The smallest offer of the arcs that leave a place, and Far if none leaves.
    fn smallest(&self, p: u32) -> u32
        ensures { result ≡ smallest (map (offered (G.Ground.meaning self.now.task.now.site.now) self.now.task.now.costs.now self.now.places.now) (arcs_from (G.Ground.meaning self.now.task.now.site.now) p)) }
    {
        // Not by `map` and `min`, by which a Set took half as long again.
        let mut least = FAR;
        for arc in leaving(self.task.site, p) {
            least = least.min(self.over(arc));
        }
        least
    }

    // The rhs of a place, from the costs and values as they stand.
    pub(crate) fn rhs(&self, p: u32) -> u32
        ensures { result ≡ rhs (G.Ground.meaning self.now.task.now.site.now) (told self.now.task.now.aim self.now.task.now.costs.now self.now.places.now) p }
    {
        if p == self.task.aim.landing {
            0
        } else {
            self.smallest(p)
        }
    }

    // Of the arcs that leave a place the one with the smallest offer, the lowest number on a tie.
    pub fn cheapest(&self, p: u32) -> Option<u32>
        ensures { result ≡ cheapest (offered (G.Ground.meaning self.now.task.now.site.now) self.now.task.now.costs.now self.now.places.now) (arcs_from (G.Ground.meaning self.now.task.now.site.now) p) }
    {
        leaving(self.task.site, p).min_by_key(|arc| self.over(*arc))
    }
}

// The same over any tables and with no aim: None where they do not fit the ground.
pub fn best_arc<G: Ground>(site: &G, costs: &[u32], places: &[Place], p: u32) -> Option<u32>
    ensures found { Sized (G.Ground.meaning site.now) costs.now places.now → result ≡ cheapest (offered (G.Ground.meaning site.now) costs.now places.now) (arcs_from (G.Ground.meaning site.now) p) }
    ensures unfit { (Sized (G.Ground.meaning site.now) costs.now places.now → ⊥) → result ≡ None }
{
    let slack = Slack::new(16).ok()?;
    let aim = Aim {
        here: p,
        landing: p,
        slack,
    };
    let task = Task { site, aim, costs };
    Offers::new(&task, places)?.cheapest(p)
}
