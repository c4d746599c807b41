// An index of arcs by one of their ends, in two plain tables: an entry for each place, and an entry for each arc.
ghost use Rattle.std.specs.Prelude.{◌≡◌, ℕ, ◌<◌, List, length};
ghost use Rattle.std.specs.List.{slice_get};
ghost use Rattle.ground.specs.Questions.{arcs_at};
ghost use Rattle.arcs.specs.Index.{start_of, EndsRight, Indexable, Indexed, SameFrom};
ghost use Rattle.arcs.specs.Tables.{end_at};

use crate::lists::Index;
use crate::net::Net;
use ground::end::End;
use terms::arc::Arc;

// Indexes lawful arcs between so many places. Where they are not lawful, or the tables are too short for them, or they
// are more than a number tells, nothing changes.
pub fn index(end: End, places: usize, arcs: &[Arc], ends: &mut [u32], order: &mut [u32])
    ensures done { Indexable places arcs.now ends.old order.old → Indexed (end_at end arcs.now) (length arcs.now) places ends.new order.new }
    ensures ends { SameFrom places ends.old ends.new }
    ensures order { SameFrom (length arcs.now) order.old order.new }
    ensures kept { (Indexable places arcs.now ends.old order.old → ⊥) → (ends.new ≡ ends.old) × (order.new ≡ order.old) }
{
    let mut index = Index::empty(ends, order);
    if !index.has_room(places, arcs.len()) {
        return;
    }
    if let Ok(net) = Net::new(places, arcs) {
        index.fill(end, &net);
    }
}

// The place in the order where the arcs at a place start.
fn start(ends: &[u32], place: usize) -> u32
    requires { place < length ends.now }
    ensures { (end : ℕ → ℕ) (m n : ℕ) → place < n → EndsRight end m n ends.now → result ≡ start_of end m place }
{
    if place == 0 { 0 } else { ends[place - 1] }
}

// How many of the indexed arcs are at a place, in an index over so many places.
pub fn count_at(places: usize, ends: &[u32], place: usize) -> u32
    ensures { (end : ℕ → ℕ) (m : ℕ) (order : List ℕ) → Indexed end m places ends.now order → result ≡ length (arcs_at end m place) }
{
    if place >= places || place >= ends.len() {
        return 0;
    }
    ends[place].saturating_sub(start(ends, place))
}

// The k-th indexed arc at a place, in an index over so many places.
pub fn kth(places: usize, ends: &[u32], order: &[u32], place: usize, k: u32) -> Option<u32>
    ensures { (end : ℕ → ℕ) (m : ℕ) → Indexed end m places ends.now order.now → result ≡ slice_get (arcs_at end m place) k }
{
    if place >= places || place >= ends.len() {
        return None;
    }
    let at = start(ends, place) as usize + k as usize;
    if at < ends[place] as usize && at < order.len() {
        Some(order[at])
    } else {
        None
    }
}
