// A layer is a ground itself, so layers pile.
ghost use Rattle.pickup.specs.LayerLaws.{layered_lawful};
ghost use Rattle.pickup.specs.Layers.{layered};

use crate::parts::Part;
use crate::pickup::Pickup;
use ground::end::End;
use ground::ground::Ground;

impl<'a, G: Ground> Ground for Pickup<'a, G> {
    ghost meaning = { λ s. layered (G.Ground.meaning s.below.now) s.at };

    ghost lawful = { λ s. layered_lawful (G.Ground.meaning s.below.now) s.at (G.Ground.lawful s.below.now) };

    fn places(&self) -> u32 {
        if self.fits() {
            2 * self.below.places()
        } else {
            0
        }
    }

    fn arcs(&self) -> u32 {
        if !self.fits() {
            0
        } else if self.crosses() {
            2 * self.below.arcs() + 1
        } else {
            2 * self.below.arcs()
        }
    }

    // The trait asks for either end apart; what the answers share is behind `end_of`, `count_at` and `nth_at`.
    fn tail(&self, arc: u32) -> Option<u32> {
        self.end_of(End::Tail, arc)
    }

    fn head(&self, arc: u32) -> Option<u32> {
        self.end_of(End::Head, arc)
    }

    fn least(&self, arc: u32) -> Option<u32> {
        match self.part(arc)? {
            Part::Before(copy) | Part::After(copy) => self.below.least(copy),
            Part::Crossing => Some(1),
        }
    }

    fn estimate(&self, from: u32, to: u32) -> Option<u32> {
        let from = self.side(from)?;
        let to = self.side(to)?;
        self.below.estimate(from.place, to.place)
    }

    fn leaving_count(&self, place: u32) -> u32 {
        self.count_at(End::Tail, place)
    }

    fn entering_count(&self, place: u32) -> u32 {
        self.count_at(End::Head, place)
    }

    fn leaving(&self, place: u32, k: u32) -> Option<u32> {
        self.nth_at(End::Tail, place, k)
    }

    fn entering(&self, place: u32, k: u32) -> Option<u32> {
        self.nth_at(End::Head, place, k)
    }
}
