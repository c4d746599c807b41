// The search that a plan makes.
ghost use Rattle.std.specs.Prelude.{◌≡◌, ◌<◌, ◌≤◌, false, length};
ghost use Rattle.method.specs.States.{State};
ghost use Rattle.search.specs.Queued.{Synced};
ghost use Rattle.search.specs.Steps.{LeftAlone, SearchMade};
ghost use Rattle.search.specs.Tables.{Cached, Shows, Sized, Within};

use crate::aim::Aim;
use crate::made::Made;
use crate::place::Place;
use crate::tables::Tables;
use crate::task::Task;
use ground::ground::Ground;
use queue::entry::Entry;
use queue::key::Key;

// Makes turns until the end test holds or so many are made. Started afresh, it first empties Closed and makes the queue anew; else the queue is
// the one that the last search left. Tables that do not have just an entry for each arc and place of the ground are left as they are.
pub fn search<G: Ground>(
    site: &G,
    aim: Aim,
    afresh: bool,
    turns: u16,
    costs: &[u32],
    places: &mut [Place],
    entries: &mut [Entry<Key>],
) -> Made
    ensures few { result.turns ≤ turns }
    ensures made { Sized (G.Ground.meaning site.now) costs.now places.old → length entries.old ≡ (G.Ground.meaning site.now).places → Within (G.Ground.meaning site.now) aim → Cached (G.Ground.meaning site.now) aim costs.now places.old → (afresh ≡ false → Synced (G.Ground.meaning site.now) aim (G.Ground.meaning site.now).places places.old entries.old) → (s : State) → Shows (G.Ground.meaning site.now) s aim costs.now places.old → SearchMade (G.Ground.meaning site.now) aim afresh costs.now turns places.old places.new entries.new result s }
    ensures unfit { (Sized (G.Ground.meaning site.now) costs.now places.old → length entries.old ≡ (G.Ground.meaning site.now).places → aim.here < (G.Ground.meaning site.now).places → ⊥) → LeftAlone places.old entries.old places.new entries.new result }
{
    let n = site.places() as usize;
    if costs.len() != site.arcs() as usize
        || places.len() != n
        || entries.len() != n
        || aim.here >= site.places()
    {
        return Made {
            settled: false,
            turns: 0,
        };
    }
    let task = Task { site, aim, costs };
    let mut tables = Tables {
        task: &task,
        places,
        entries,
    };
    tables.search(afresh, turns)
}
