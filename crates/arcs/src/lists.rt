// An index of arcs by one of their ends: the arcs at each place, in two lent tables.
ghost use Rattle.std.specs.Prelude.{◌≡◌, ◌↔◌, ◌^◌, ◌<◌, length, IsTrue};
ghost use Rattle.std.specs.List.{slice_get};
ghost use Rattle.arcs.specs.Index.{Listing, SameFrom};

use crate::net::Net;
use crate::sort::sort;
use ground::end::End;

// Each table has a lifetime of its own, so that whoever lent both can tell in a proof what each holds afterwards.
#[derive(Drop)]
pub struct Index<'e, 'o> {
    places: usize,
    // where the list of each place ends in the order
    ends: &'e mut [u32],
    // the lists, one after the other
    order: &'o mut [u32],
    ghost listing: { Listing places ends.now order.now },
}

impl<'e, 'o> Index<'e, 'o> {
    ghost use Rattle.arcs.specs.Lists.{list_at, start_at, HasRoom, Indexes, SameTables};
    ghost use Rattle.arcs.specs.Nets.{IndexedBy};

    // An index of no places, over two tables.
    pub fn empty(ends: &'e mut [u32], order: &'o mut [u32]) -> Index<'e, 'o>
        ensures places { result.places ≡ 0 }
        ensures ends { (result.ends.now ≡ ends.old) × (result.ends.ghost_name ≡ ends.entry.ghost_name) }
        ensures order { (result.order.now ≡ order.old) × (result.order.ghost_name ≡ order.entry.ghost_name) }
    {
        Index {
            places: 0,
            ends,
            order,
        }
    }

    // Whether the tables have an entry for each of so many places and arcs.
    pub fn has_room(&self, places: usize, arcs: usize) -> bool
        ensures { IsTrue result ↔ HasRoom self.now places arcs }
    {
        places <= self.ends.len() && arcs <= self.order.len()
    }

    // Indexes the arcs of a net by one end. Where the tables are too short for it, nothing changes.
    pub fn fill(&mut self, end: End, net: &Net)
        ensures done { HasRoom self.old net.now.places (length net.now.arcs.now) → Indexes self.new end net.now }
        ensures places { HasRoom self.old net.now.places (length net.now.arcs.now) → self.new.places ≡ net.now.places }
        ensures tables { HasRoom self.old net.now.places (length net.now.arcs.now) → IndexedBy end net.now self.new.ends.now self.new.order.now }
        ensures kept { (HasRoom self.old net.now.places (length net.now.arcs.now) → ⊥) → self.new ≡ self.old }
        ensures ends { SameFrom net.now.places self.old.ends.now self.new.ends.now }
        ensures order { SameFrom (length net.now.arcs.now) self.old.order.now self.new.order.now }
        ensures same { SameTables self.old self.new }
    {
        if !self.has_room(net.places, net.arcs.len()) {
            return;
        }
        sort(end, net, &mut self.ends[..net.places], self.order);
        self.places = net.places;
    }

    // Where the list of a place starts in the order.
    fn start(&self, place: usize) -> usize
        requires { place < self.now.places }
        ensures { result ≡ start_at self.now place }
    {
        if place == 0 {
            0
        } else {
            self.ends[place - 1] as usize
        }
    }

    // The arcs at a place, in rising number.
    pub fn at(&self, place: usize) -> &[u32]
        ensures list { result.now ≡ list_at self.now place }
        ensures few { length result.now < 2 ^ 32 }
    {
        if place >= self.places {
            return &[];
        }
        &self.order[self.start(place)..self.ends[place] as usize]
    }

    // How many arcs are at a place.
    pub fn count_at(&self, place: usize) -> u32
        ensures { result ≡ length (list_at self.now place) }
    {
        self.at(place).len() as u32
    }

    // The k-th arc at a place, from 0.
    pub fn kth(&self, place: usize, k: u32) -> Option<u32>
        ensures { result ≡ slice_get (list_at self.now place) k }
    {
        self.at(place).get(k as usize).copied()
    }
}
