// What a layer answers of either end of its arcs.
ghost use Rattle.std.specs.Prelude.{◌≡◌, ◌*◌, ◌&&◌, ◌==◌, length, nat_lt};
ghost use Rattle.std.specs.List.{slice_get};
ghost use Rattle.ground.specs.Ends.{end_of, arcs_by};
ghost use Rattle.ground.specs.Questions.{known};
ghost use Rattle.pickup.specs.Layers.{layered};
ghost use Rattle.pickup.specs.Parts.{crossing_end};

use crate::parts::Part;
use crate::pickup::Pickup;
use ground::end::End;
use ground::ground::Ground;

impl<'a, G: Ground> Pickup<'a, G> {
    // The place at an end of an arc.
    pub(super) fn end_of(&self, end: End, arc: u32) -> Option<u32>
        ensures { result ≡ known (nat_lt arc (layered (G.Ground.meaning self.now.below.now) self.now.at).arcs) (end_of end (layered (G.Ground.meaning self.now.below.now) self.now.at) arc) }
    {
        match self.part(arc)? {
            Part::Before(copy) => end.of(self.below, copy),
            Part::After(copy) => Some(self.raised(end.of(self.below, copy)?)),
            Part::Crossing => self.crossing_end(end),
        }
    }

    // Whether the pick-up arc has an end at a place.
    fn crosses_at(&self, end: End, place: u32) -> bool
        ensures { result ≡ (nat_lt self.now.at (G.Ground.meaning self.now.below.now).places && crossing_end end (G.Ground.meaning self.now.below.now) self.now.at == place) }
    {
        self.crossing_end(end) == Some(place)
    }

    // How many arcs have an end at a place.
    pub(super) fn count_at(&self, end: End, place: u32) -> u32
        ensures { result ≡ length (arcs_by end (layered (G.Ground.meaning self.now.below.now) self.now.at) place) }
    {
        match self.side(place) {
            Some(side) => {
                end.count_at(self.below, side.place) + u32::from(self.crosses_at(end, place))
            }
            None => 0,
        }
    }

    // The pick-up arc as the k-th at a place: it stands after the copies, where it is there at all.
    fn crossing(&self, here: bool, k: u32, copies: u32) -> Option<u32>
        ensures { result ≡ known (here && k == copies) (2 * (G.Ground.meaning self.now.below.now).arcs) }
    {
        (here && k == copies).then(|| 2 * self.below.arcs())
    }

    // The k-th of the arcs that have an end at a place, from 0, in rising number.
    pub(super) fn nth_at(&self, end: End, place: u32, k: u32) -> Option<u32>
        ensures { result ≡ slice_get (arcs_by end (layered (G.Ground.meaning self.now.below.now) self.now.at) place) k }
    {
        let side = self.side(place)?;
        match end.nth_at(self.below, side.place, k) {
            Some(arc) => Some(side.copy_of(arc)),
            None => self.crossing(
                self.crosses_at(end, place),
                k,
                end.count_at(self.below, side.place),
            ),
        }
    }
}
