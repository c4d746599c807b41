// What has to hold of a net and its heights before roads take them.
ghost use Rattle.std.specs.Prelude.{◌≡◌, ℕ, ◌+◌, ◌<◌, ◌≤◌, ◌↔◌, length, slice_index, IsTrue, MatchOption};
ghost use Rattle.arcs.specs.Index.{SameFrom};
ghost use Rattle.roads.specs.Heights.{height_of, Steps};
ghost use Rattle.roads.specs.Loads.{LowestSteep, Within};

use arcs::net::Net;
use terms::arc::Arc;

// Whether the number of places, the number of arcs and every height are within their limits.
pub(crate) fn within(net: &Net, heights: &[u32]) -> bool
    requires { net.now.places ≤ length heights.now }
    ensures { IsTrue result ↔ Within net.now.places net.now.arcs.now heights.now }
{
    net.places <= 16_384
        && net.arcs.len() <= 131_072
        && heights[..net.places].iter().all(|h| *h <= 163_830_000)
}

// Whether the head of an arc stands too high above its tail.
fn is_steep(heights: &[u32], arc: Arc) -> bool
    requires tail { arc.tail < length heights.now }
    requires head { arc.head < length heights.now }
    ensures { IsTrue result ↔ (height_of heights.now arc.tail + arc.least < height_of heights.now arc.head) }
{
    let tail = u64::from(heights[arc.tail as usize]);
    let head = u64::from(heights[arc.head as usize]);
    head > tail + u64::from(arc.least)
}

// The lowest such arc.
pub(crate) fn first_steep(net: &Net, heights: &[u32]) -> Option<usize>
    requires { net.now.places ≤ length heights.now }
    ensures { MatchOption result (Steps net.now.arcs.now heights.now) (LowestSteep net.now.arcs.now heights.now) }
{
    net.arcs.iter().position(|arc| is_steep(heights, *arc))
}

// Copies the first heights. Entry by entry, since `copy_from_slice` asks for `memmove` here, which the archives for C did without.
pub(crate) fn copy(places: usize, from: &[u32], to: &mut [u32])
    requires from { places ≤ length from.now }
    requires to { places ≤ length to.old }
    ensures copied { (p : ℕ) → p < places → slice_index to.new p ≡ slice_index from.now p }
    ensures beyond { SameFrom places to.old to.new }
{
    for p in 0..places {
        to[p] = from[p];
    }
}
