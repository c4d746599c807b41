// Where an arc or a place of the layer stands over the ground below.
ghost use Rattle.std.specs.Prelude.{◌≡◌, ◌+◌, ◌<◌, nat_lt};
ghost use Rattle.ground.specs.Questions.{known};
ghost use Rattle.pickup.specs.Layers.{fits as room_for};
ghost use Rattle.pickup.specs.Parts.{crossing_end, part_of, SideOf};

use crate::parts::{Part, Side};
use crate::pickup::Pickup;
use ground::end::End;
use ground::ground::Ground;

impl<'a, G: Ground> Pickup<'a, G> {
    // Whether two copies of the ground and the pick-up are no more than a ground may have.
    pub(super) fn fits(&self) -> bool
        ensures { result ≡ room_for (G.Ground.meaning self.now.below.now) }
    {
        2 * self.below.places() <= 16_384 && 2 * self.below.arcs() < 131_072
    }

    // Whether the pick-up is on the ground below.
    pub(super) fn crosses(&self) -> bool
        ensures { result ≡ nat_lt self.now.at (G.Ground.meaning self.now.below.now).places }
    {
        self.at < self.below.places()
    }

    // A place of the ground below, as it stands after the pick-up.
    pub(super) fn raised(&self, place: u32) -> u32
        requires { place < 16384 }
        ensures { result ≡ (G.Ground.meaning self.now.below.now).places + place }
    {
        self.below.places() + place
    }

    // The place at an end of the pick-up arc, if there is one.
    pub(super) fn crossing_end(&self, end: End) -> Option<u32>
        ensures { result ≡ known (nat_lt self.now.at (G.Ground.meaning self.now.below.now).places) (crossing_end end (G.Ground.meaning self.now.below.now) self.now.at) }
    {
        if !self.crosses() {
            return None;
        }
        Some(match end {
            End::Tail => self.at,
            End::Head => self.raised(self.at),
        })
    }

    // Which arc of the layer a number is, if there is one.
    pub(super) fn part(&self, arc: u32) -> Option<Part>
        ensures { result ≡ part_of (G.Ground.meaning self.now.below.now) self.now.at arc }
    {
        let arcs = self.below.arcs();
        if arc >= self.arcs() {
            None
        } else if arc < arcs {
            Some(Part::Before(arc))
        } else if arc < 2 * arcs {
            Some(Part::After(arc - arcs))
        } else {
            Some(Part::Crossing)
        }
    }

    // The side of the pick-up that a place is on, if there is such a place.
    pub(super) fn side(&self, place: u32) -> Option<Side>
        ensures { SideOf (G.Ground.meaning self.now.below.now) self.now.at place result }
    {
        let places = self.below.places();
        if place >= self.places() {
            None
        } else if place < places {
            Some(Side { place, first: 0 })
        } else {
            Some(Side {
                place: place - places,
                first: self.below.arcs(),
            })
        }
    }
}
