// One turn of a search.
ghost use Rattle.std.specs.Prelude.{◌≡◌, ◌<◌, true};
ghost use Rattle.method.specs.Values.{rhs};
ghost use Rattle.search.specs.Same.{Same};
ghost use Rattle.search.specs.Steps.{TurnMade};
ghost use Rattle.search.specs.Tables.{place_at, told};
ghost use Rattle.search.specs.Turning.{Lowered, Raised, StaysSynced, Turned};
ghost use Rattle.terms.specs.Amounts.{far};

use crate::offers::Offers;
use crate::place::Place;
use crate::tables::Tables;
use ground::around::entering;
use ground::ground::Ground;
use terms::amount::{FAR, capped_sum};

impl<'t, G: Ground> Tables<'t, G> {
    // The value of an arc's head fell to this: that can only lower the rhs of its tail.
    fn lower(&mut self, arc: u32, value: u32)
        requires { arc < (G.Ground.meaning self.old.task.now.site.now).arcs }
        ensures lowered { Lowered (G.Ground.meaning self.old.task.now.site.now) self.old.task.now.aim self.old.task.now.costs.now arc value self.old.places.now self.new.places.now }
        ensures synced { StaysSynced (G.Ground.meaning self.old.task.now.site.now) self.old.task.now.aim self.old.places.now self.old.entries.now self.new.places.now self.new.entries.now }
        ensures same { Same self.old self.new }
    {
        let Some(tail) = self.task.site.tail(arc) else {
            return;
        };
        let place = self.places[tail as usize];
        let rhs = capped_sum(self.task.costs[arc as usize], value);
        if tail != self.task.aim.landing && rhs < place.rhs {
            self.store(tail, Place { rhs, ..place });
        }
    }

    // The rhs of a place, from the costs and values as they stand.
    fn rhs(&self, p: u32) -> u32
        ensures { result ≡ rhs (G.Ground.meaning self.now.task.now.site.now) (told self.now.task.now.aim self.now.task.now.costs.now self.now.places.now) p }
    {
        let offers = Offers {
            task: self.task,
            places: self.places,
        };
        offers.rhs(p)
    }

    // The value of an arc's head rose from this to Far: the rhs of its tail is computed anew if it rested on that.
    fn raise(&mut self, arc: u32, value: u32)
        requires { arc < (G.Ground.meaning self.old.task.now.site.now).arcs }
        ensures raised { Raised (G.Ground.meaning self.old.task.now.site.now) self.old.task.now.aim self.old.task.now.costs.now arc value self.old.places.now self.new.places.now }
        ensures synced { StaysSynced (G.Ground.meaning self.old.task.now.site.now) self.old.task.now.aim self.old.places.now self.old.entries.now self.new.places.now self.new.entries.now }
        ensures same { Same self.old self.new }
    {
        let Some(tail) = self.task.site.tail(arc) else {
            return;
        };
        let place = self.places[tail as usize];
        if place.rhs == capped_sum(self.task.costs[arc as usize], value) {
            let rhs = self.rhs(tail);
            self.store(tail, Place { rhs, ..place });
        }
    }

    // The turn of an over place: it takes its rhs for its value and is closed.
    fn over_turn(&mut self, p: u32)
        requires there { p < (G.Ground.meaning self.old.task.now.site.now).places }
        requires over { (place_at self.old.places.now p).rhs < (place_at self.old.places.now p).g }
        ensures turned { Turned (G.Ground.meaning self.old.task.now.site.now) self.old.task.now.aim self.old.task.now.costs.now p (place_at self.old.places.now p).rhs true self.old.places.now self.new.places.now }
        ensures synced { StaysSynced (G.Ground.meaning self.old.task.now.site.now) self.old.task.now.aim self.old.places.now self.old.entries.now self.new.places.now self.new.entries.now }
        ensures same { Same self.old self.new }
    {
        let place = self.places[p as usize];
        let value = place.rhs;
        self.store(
            p,
            Place {
                g: value,
                closed: true,
                ..place
            },
        );
        for arc in entering(self.task.site, p) {
            self.lower(arc, value);
        }
    }

    // The turn of an under place: its value falls back to Far.
    fn under_turn(&mut self, p: u32)
        requires { p < (G.Ground.meaning self.old.task.now.site.now).places }
        ensures turned { Turned (G.Ground.meaning self.old.task.now.site.now) self.old.task.now.aim self.old.task.now.costs.now p far (place_at self.old.places.now p).closed self.old.places.now self.new.places.now }
        ensures synced { StaysSynced (G.Ground.meaning self.old.task.now.site.now) self.old.task.now.aim self.old.places.now self.old.entries.now self.new.places.now self.new.entries.now }
        ensures same { Same self.old self.new }
    {
        let place = self.places[p as usize];
        let value = place.g;
        self.store(p, Place { g: FAR, ..place });
        for arc in entering(self.task.site, p) {
            self.raise(arc, value);
        }
    }

    // One turn at a place.
    pub(crate) fn turn(&mut self, p: u32)
        requires { p < (G.Ground.meaning self.old.task.now.site.now).places }
        ensures made { TurnMade (G.Ground.meaning self.old.task.now.site.now) self.old.task.now.aim self.old.task.now.costs.now p self.old.places.now self.old.entries.now self.new.places.now self.new.entries.now }
        ensures same { Same self.old self.new }
    {
        let place = self.places[p as usize];
        if place.g > place.rhs {
            self.over_turn(p);
        } else {
            self.under_turn(p);
        }
    }
}
