// The arcs at a place, one after the other.
ghost use Rattle.std.specs.Prelude.{◌≡◌, ◌<◌, List, All};
ghost use Rattle.std.specs.Iterator.{YieldsFirst, item_count};
ghost use Rattle.ground.specs.Questions.{arcs_from, arcs_into};
ghost use Rattle.ground.specs.Ends.{arcs_by};

use crate::end::End;
use crate::ground::Ground;
use std::marker::Model;

// A clause sees the arcs that are still to come, in rising number.
#[derive(Drop)]
pub struct Around<'a, G: Ground> {
    ground: &'a G,
    place: u32,
    end: End,
    // how many have come
    k: u32,
}

impl<'a, G: Ground> Model for Around<'a, G> {
    ghost use Rattle.std.specs.Prelude.{ℕ, List, drop};
    ghost use Rattle.ground.specs.Ends.{arcs_by};

    ghost Value = { List ℕ };

    ghost view = { λ a. drop a.k (arcs_by a.end (G.Ground.meaning a.ground.now) a.place) };
}

impl<'a, G: Ground> Around<'a, G> {
    // The arcs that have an end at a place.
    #[tactic(auto, using(crate::proofs::ArcsAt::arcs_are_there))]
    pub fn new(ground: &'a G, place: u32, end: End) -> Around<'a, G>
        ensures arcs { result ≡ arcs_by end (G.Ground.meaning ground.now) place }
        ensures there { All (λ arc. arc < (G.Ground.meaning ground.now).arcs) result }
    {
        Around {
            ground,
            place,
            end,
            k: 0,
        }
    }
}

// The arcs that leave a place.
pub fn leaving<G: Ground>(ground: &G, place: u32) -> Around<'_, G>
    ensures arcs { result ≡ arcs_from (G.Ground.meaning ground.now) place }
    ensures there { All (λ arc. arc < (G.Ground.meaning ground.now).arcs) result }
{
    Around::new(ground, place, End::Tail)
}

// The arcs that enter a place.
pub fn entering<G: Ground>(ground: &G, place: u32) -> Around<'_, G>
    ensures arcs { result ≡ arcs_into (G.Ground.meaning ground.now) place }
    ensures there { All (λ arc. arc < (G.Ground.meaning ground.now).arcs) result }
{
    Around::new(ground, place, End::Head)
}

impl<'a, G: Ground> Iterator for Around<'a, G> {
    type Item = u32;

    ghost next_gives = { YieldsFirst (λ s. s) };

    ghost remaining = { item_count (λ s. s) };

    fn next(&mut self) -> Option<u32> {
        let arc = self.end.nth_at(self.ground, self.place, self.k)?;
        self.k += 1;
        Some(arc)
    }
}
