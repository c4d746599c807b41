// A search that starts afresh: Closed is emptied, and the queue is made anew from the places.
ghost use Rattle.search.specs.Same.{Same};
ghost use Rattle.search.specs.Steps.{StartedAfresh};

use crate::place::Place;
use crate::tables::Tables;
use crate::waiting::none_waits;
use ground::ground::Ground;

impl<'t, G: Ground> Tables<'t, G> {
    // Takes every place out of Closed, and has the queue hold exactly those that wait.
    pub(crate) fn start_afresh(&mut self)
        ensures started { StartedAfresh (G.Ground.meaning self.old.task.now.site.now) self.old.task.now.aim self.old.places.now self.new.places.now self.new.entries.now }
        ensures same { Same self.old self.new }
    {
        none_waits(self.entries);
        // by number, since a place's entry in the queue stands under its number
        for p in 0..self.task.site.places() {
            let place = self.places[p as usize];
            self.store(
                p,
                Place {
                    closed: false,
                    ..place
                },
            );
        }
    }
}
