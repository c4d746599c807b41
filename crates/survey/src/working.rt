// Survey's working table, lent column by column: an index of the arcs (`ends` by place, `order` by arc), the sums so far,
// and the queue of the places to go on from.
ghost use Rattle.std.specs.Prelude.{◌≡◌, ◌<◌, ◌≤◌, ◌↔◌, ℕ, IsTrue, slice_index_or};
ghost use Rattle.queue.specs.Content.{free_entry};
ghost use Rattle.survey.specs.Workings.{HasRoom, SameNames, Wiped, WipedTo};

use queue::entry::{Entry, wipe};

#[derive(Drop)]
pub struct Working<'t> {
    pub ends: &'t mut [u32],
    pub order: &'t mut [u32],
    pub sums: &'t mut [u32],
    pub queue: &'t mut [Entry<u32>],
}

// Writes 0 to the first entries of a table, as far as it goes.
pub fn clear(n: usize, table: &mut [u32])
    ensures { WipedTo n table.old table.new }
{
    let n = n.min(table.len());
    table[..n].fill(0);
}

// Frees the first entries of a queue's table, as far as it goes.
fn free(n: usize, table: &mut [Entry<u32>])
    ensures freed { (k : ℕ) → k < n → slice_index_or table.new k free_entry ≡ free_entry }
    ensures beyond { (k : ℕ) → n ≤ k → slice_index_or table.new k free_entry ≡ slice_index_or table.old k free_entry }
{
    let n = n.min(table.len());
    wipe(&mut table[..n]);
}

impl<'t> Working<'t> {
    // Whether every column has an entry for each of so many places or arcs.
    pub(crate) fn has_room(&self, places: usize, arcs: usize) -> bool
        ensures { IsTrue result ↔ HasRoom self.now places arcs }
    {
        places <= self.ends.len()
            && arcs <= self.order.len()
            && places <= self.sums.len()
            && places <= self.queue.len()
    }

    // Wipes the entries of so many places and arcs.
    pub(crate) fn wipe(&mut self, places: usize, arcs: usize)
        ensures wiped { Wiped places arcs self.old self.new }
        ensures same { SameNames self.old self.new }
    {
        clear(places, self.ends);
        clear(arcs, self.order);
        clear(places, self.sums);
        free(places, self.queue);
    }
}
