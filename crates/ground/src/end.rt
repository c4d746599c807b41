// The two ends of an arc, for what is asked of either.
ghost use Rattle.std.specs.Prelude.{◌≡◌, length, nat_lt};
ghost use Rattle.std.specs.List.{slice_get};
ghost use Rattle.ground.specs.Ends.{end_of, arcs_by};
ghost use Rattle.ground.specs.Questions.{known};

use crate::ground::Ground;

// An arc leaves the place at its tail and enters the one at its head.
#[derive(Clone, Copy)]
pub enum End {
    Tail,
    Head,
}

impl End {
    // The place at this end of an arc.
    pub fn of<G: Ground>(self, ground: &G, arc: u32) -> Option<u32>
        ensures { result ≡ known (nat_lt arc (G.Ground.meaning ground.now).arcs) (end_of self (G.Ground.meaning ground.now) arc) }
    {
        match self {
            End::Tail => ground.tail(arc),
            End::Head => ground.head(arc),
        }
    }

    // How many arcs have this end at a place.
    pub fn count_at<G: Ground>(self, ground: &G, place: u32) -> u32
        ensures { result ≡ length (arcs_by self (G.Ground.meaning ground.now) place) }
    {
        match self {
            End::Tail => ground.leaving_count(place),
            End::Head => ground.entering_count(place),
        }
    }

    // The k-th of them, from 0, in rising number.
    pub fn nth_at<G: Ground>(self, ground: &G, place: u32, k: u32) -> Option<u32>
        ensures { result ≡ slice_get (arcs_by self (G.Ground.meaning ground.now) place) k }
    {
        match self {
            End::Tail => ground.leaving(place, k),
            End::Head => ground.entering(place, k),
        }
    }
}
