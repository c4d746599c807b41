// Whose turn it is, and whether the search is over.
ghost use Rattle.std.specs.Prelude.{◌≡◌, ℕ, ◌<◌, List, IfSome};
ghost use Rattle.method.specs.States.{State};
ghost use Rattle.search.specs.Queued.{is_first};
ghost use Rattle.search.specs.Same.{Same};
ghost use Rattle.search.specs.Steps.{Due, InStep};
ghost use Rattle.search.specs.Tables.{Shows};

use crate::aim::Aim;
use crate::place::Place;
use crate::tables::Tables;
use crate::waiting::first_waiting;
use ground::ground::Ground;
use queue::key::Key;
use terms::amount::FAR;

// Whether no key in the queue comes before here's, the smallest being this one: here is level below Far, and its own key is at most that.
fn here_is_first(here: Place, aim: Aim, smallest: Key) -> bool
    ensures { result ≡ is_first aim.slack.sixteenths here smallest }
{
    here.g == here.rhs && here.g != FAR && here.key(aim.slack, 0).at_most(smallest)
}

impl<'t, G: Ground> Tables<'t, G> {
    // The place that has the next turn, or None if the end test holds.
    pub(crate) fn due(&mut self) -> Option<u32>
        ensures within { IfSome result (λ p. p < (G.Ground.meaning self.old.task.now.site.now).places) }
        ensures due { InStep (G.Ground.meaning self.old.task.now.site.now) self.old.task.now.aim self.old.task.now.costs.now self.old.places.now self.old.entries.now → (s : State) → Shows (G.Ground.meaning self.old.task.now.site.now) s self.old.task.now.aim self.old.task.now.costs.now self.old.places.now → Due (G.Ground.meaning self.old.task.now.site.now) s result }
        ensures places { self.new.places.now ≡ self.old.places.now }
        ensures entries { self.new.entries.now ≡ self.old.entries.now }
        ensures same { Same self.old self.new }
    {
        let (p, key) = first_waiting(self.entries)?;
        if p >= self.task.site.places()
            || here_is_first(self.places[self.task.aim.here as usize], self.task.aim, key)
        {
            return None;
        }
        Some(p)
    }
}
