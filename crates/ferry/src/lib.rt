// A small ground to copy from: two banks, and a ferry that crosses either way.
#![tactic(auto)]

ghost use Rattle.ferry.specs.Ferries.{crossing, crossing_lawful};

use ground::ground::Ground;

#[derive(Clone, Copy)]
pub struct Ferry;

impl Ground for Ferry {
    ghost meaning = { λ _. crossing };

    ghost lawful = { λ _. crossing_lawful };

    fn places(&self) -> u32 {
        2
    }

    fn arcs(&self) -> u32 {
        2
    }

    // Answers of one line each: one function for two of them would be no plainer to copy from.
    fn tail(&self, arc: u32) -> Option<u32> {
        (arc < 2).then_some(arc)
    }

    fn head(&self, arc: u32) -> Option<u32> {
        (arc < 2).then(|| 1 - arc)
    }

    fn least(&self, arc: u32) -> Option<u32> {
        (arc < 2).then_some(100)
    }

    fn estimate(&self, from: u32, to: u32) -> Option<u32> {
        (from < 2 && to < 2).then_some(0)
    }

    #[tactic(auto, using(crate::proofs::Banks::count_from_bank))]
    fn leaving_count(&self, place: u32) -> u32 {
        u32::from(place < 2)
    }

    #[tactic(auto, using(crate::proofs::Banks::count_to_bank))]
    fn entering_count(&self, place: u32) -> u32 {
        u32::from(place < 2)
    }

    #[tactic(auto, using(crate::proofs::Banks::arc_from_bank))]
    fn leaving(&self, place: u32, k: u32) -> Option<u32> {
        (place < 2 && k == 0).then_some(place)
    }

    #[tactic(auto, using(crate::proofs::Banks::arc_to_bank))]
    fn entering(&self, place: u32, k: u32) -> Option<u32> {
        (place < 2 && k == 0).then(|| 1 - place)
    }
}
