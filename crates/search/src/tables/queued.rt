// A place's record and its entry in the queue, written together.
ghost use Rattle.std.specs.Prelude.{◌≡◌, ◌+◌, ◌<◌, length, slice_set};
ghost use Rattle.search.specs.Queued.{Synced, wanted_for};
ghost use Rattle.search.specs.Same.{Same};

use crate::place::Place;
use crate::tables::Tables;
use crate::waiting::waits;
use ground::ground::Ground;
use queue::key::Key;

impl<'t, G: Ground> Tables<'t, G> {
    // The key under which a place with this record is to wait, if it is to wait.
    fn wanted(&self, p: u32, place: Place) -> Option<Key>
        requires { p < (G.Ground.meaning self.now.task.now.site.now).places }
        ensures { result ≡ wanted_for (G.Ground.meaning self.now.task.now.site.now) self.now.task.now.aim p place }
    {
        if !place.waits() {
            return None;
        }
        let aim = self.task.aim;
        let estimate = self.task.site.estimate(aim.here, p)?;
        Some(place.key(aim.slack, estimate))
    }

    // Writes the record of a place, and keeps its entry in step. Inlined, since a search that starts afresh writes every place.
    #[inline(always)]
    pub(crate) fn store(&mut self, p: u32, place: Place)
        requires { p < (G.Ground.meaning self.old.task.now.site.now).places }
        ensures written { self.new.places.now ≡ slice_set self.old.places.now p place }
        ensures synced { Synced (G.Ground.meaning self.old.task.now.site.now) self.old.task.now.aim (length self.old.places.now) self.old.places.now self.old.entries.now → Synced (G.Ground.meaning self.old.task.now.site.now) self.old.task.now.aim (length self.old.places.now) self.new.places.now self.new.entries.now }
        ensures grown { Synced (G.Ground.meaning self.old.task.now.site.now) self.old.task.now.aim p self.old.places.now self.old.entries.now → Synced (G.Ground.meaning self.old.task.now.site.now) self.old.task.now.aim (p + 1) self.new.places.now self.new.entries.now }
        ensures same { Same self.old self.new }
    {
        let key = self.wanted(p, place);
        self.places[p as usize] = place;
        waits(self.entries, p, key);
    }
}
