// A layer over a ground: on the way something is picked up at one place.
ghost use Rattle.std.specs.Prelude.{◌≡◌};
ghost use Rattle.pickup.specs.Crossing.{CrossingLaw};

use ground::ground::Ground;

// Every place and arc of the ground below stands twice, before and after the pick-up, and one arc leads across.
#[derive(Drop)]
pub struct Pickup<'a, G: Ground> {
    below: &'a G,
    at: u32,
}

impl<'a, G: Ground> Pickup<'a, G> {
    // The layer over a ground with the pick-up at a place. Where the layer has places, a way across is a way below to
    // the pick-up, the pick-up itself, and a way below from there.
    pub fn new(below: &'a G, at: u32) -> Pickup<'a, G>
        ensures made { (result.below.now ≡ below.now) × (result.at ≡ at) }
        ensures law { CrossingLaw (G.Ground.meaning below.now) at }
    {
        Pickup { below, at }
    }
}

mod ends;
pub mod layer;
mod look;
