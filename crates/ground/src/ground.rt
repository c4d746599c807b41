// The trait of a ground.
ghost use Rattle.std.specs.Prelude.{◌≡◌, length};
ghost use Rattle.std.specs.List.{slice_get};
ghost use Rattle.ground.specs.Meanings.{Meaning, Lawful};
ghost use Rattle.ground.specs.Questions.{tail_of, head_of, least_of, estimate_of, arcs_from, arcs_into};

// Places joined by arcs, both numbered from 0, with a least cost for each arc and an estimate between any two places.
// Asked about a place or an arc that it lacks, a ground answers None, or a count of 0.
pub trait Ground {
    // what the ground is, and why that is lawful
    ghost meaning: { Self → Meaning };

    ghost lawful: { (g : Self) → Lawful (meaning g) };

    // How many places there are.
    fn places(&self) -> u32
        ensures { result ≡ (meaning self.now).places };

    // How many arcs there are.
    fn arcs(&self) -> u32
        ensures { result ≡ (meaning self.now).arcs };

    // The place where an arc starts.
    fn tail(&self, arc: u32) -> Option<u32>
        ensures { result ≡ tail_of (meaning self.now) arc };

    // The place where an arc ends.
    fn head(&self, arc: u32) -> Option<u32>
        ensures { result ≡ head_of (meaning self.now) arc };

    // The least that an arc can cost.
    fn least(&self, arc: u32) -> Option<u32>
        ensures { result ≡ least_of (meaning self.now) arc };

    // The estimate of the way from one place to another.
    fn estimate(&self, from: u32, to: u32) -> Option<u32>
        ensures { result ≡ estimate_of (meaning self.now) from to };

    // How many arcs leave a place.
    fn leaving_count(&self, place: u32) -> u32
        ensures { result ≡ length (arcs_from (meaning self.now) place) };

    // How many arcs enter a place.
    fn entering_count(&self, place: u32) -> u32
        ensures { result ≡ length (arcs_into (meaning self.now) place) };

    // The k-th arc that leaves a place, from 0, in rising number.
    fn leaving(&self, place: u32, k: u32) -> Option<u32>
        ensures { result ≡ slice_get (arcs_from (meaning self.now) place) k };

    // The k-th arc that enters a place, from 0, in rising number.
    fn entering(&self, place: u32, k: u32) -> Option<u32>
        ensures { result ≡ slice_get (arcs_into (meaning self.now) place) k };
}
