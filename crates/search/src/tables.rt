// The tables that a search works in.
ghost use Rattle.std.specs.Prelude.{◌≡◌, ◌<◌, length};
ghost use Rattle.search.specs.Tables.{Sized};

use crate::place::Place;
use crate::task::Task;
use ground::ground::Ground;
use queue::entry::Entry;
use queue::key::Key;

// A task, and the lent tables of a plan, which have just one entry for each arc and place of its ground.
#[derive(Drop)]
pub struct Tables<'t, G: Ground> {
    pub(crate) task: &'t Task<'t, G>,
    pub(crate) places: &'t mut [Place],
    pub(crate) entries: &'t mut [Entry<Key>],
    ghost here: { task.now.aim.here < (G.Ground.meaning task.now.site.now).places },
    ghost sized: { Sized (G.Ground.meaning task.now.site.now) task.now.costs.now places.now },
    ghost slots: { length entries.now ≡ (G.Ground.meaning task.now.site.now).places },
}

mod afresh;
mod due;
mod queued;
mod run;
mod turn;
