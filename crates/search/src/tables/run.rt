// Turns until the search ends, at most so many.
ghost use Rattle.std.specs.Prelude.{◌≡◌, ◌≤◌, false};
ghost use Rattle.method.specs.States.{State};
ghost use Rattle.search.specs.Queued.{Synced};
ghost use Rattle.search.specs.Same.{Same};
ghost use Rattle.search.specs.Steps.{RunMade, SearchMade};
ghost use Rattle.search.specs.Tables.{Cached, Shows, Within};

use crate::made::Made;
use crate::tables::Tables;
use ground::ground::Ground;

impl<'t, G: Ground> Tables<'t, G> {
    fn run(&mut self, turns: u16) -> Made
        ensures few { result.turns ≤ turns }
        ensures made { RunMade (G.Ground.meaning self.old.task.now.site.now) self.old.task.now.aim self.old.task.now.costs.now turns self.old.places.now self.old.entries.now self.new.places.now self.new.entries.now result }
        ensures same { Same self.old self.new }
    {
        for made in 0..turns {
            let Some(p) = self.due() else {
                return Made {
                    settled: true,
                    turns: u32::from(made),
                };
            };
            self.turn(p);
        }
        Made {
            settled: self.due().is_none(),
            turns: u32::from(turns),
        }
    }

    // Started afresh, it first empties Closed and makes the queue anew; else the queue is the one that the last search left.
    pub(crate) fn search(&mut self, afresh: bool, turns: u16) -> Made
        ensures few { result.turns ≤ turns }
        ensures made { Within (G.Ground.meaning self.old.task.now.site.now) self.old.task.now.aim → Cached (G.Ground.meaning self.old.task.now.site.now) self.old.task.now.aim self.old.task.now.costs.now self.old.places.now → (afresh ≡ false → Synced (G.Ground.meaning self.old.task.now.site.now) self.old.task.now.aim (G.Ground.meaning self.old.task.now.site.now).places self.old.places.now self.old.entries.now) → (s : State) → Shows (G.Ground.meaning self.old.task.now.site.now) s self.old.task.now.aim self.old.task.now.costs.now self.old.places.now → SearchMade (G.Ground.meaning self.old.task.now.site.now) self.old.task.now.aim afresh self.old.task.now.costs.now turns self.old.places.now self.new.places.now self.new.entries.now result s }
        ensures same { Same self.old self.new }
    {
        if afresh {
            self.start_afresh();
        }
        self.run(turns)
    }
}
