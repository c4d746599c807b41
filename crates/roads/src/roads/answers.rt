// Roads are a ground.
ghost use Rattle.roads.specs.Heights.{roads_meaning};
ghost use Rattle.roads.specs.RoadLaws.{roads_lawful};

use crate::roads::Roads;
use ground::ground::Ground;

impl<'a, 't> Ground for Roads<'a, 't> {
    ghost meaning = { λ s. roads_meaning s.net.places s.net.arcs.now s.heights.now };

    ghost lawful = { λ s. roads_lawful s.net.places s.net.arcs.now s.heights.now s.few_places s.few_arcs s.lawful s.low_heights s.steps };

    fn places(&self) -> u32 {
        self.net.places as u32
    }

    fn arcs(&self) -> u32 {
        self.net.arcs.len() as u32
    }

    // The trait asks for each end and for each count apart; a function that two answers shared would be no shorter than their lines.
    fn tail(&self, arc: u32) -> Option<u32> {
        self.net.arcs.get(arc as usize).map(|a| a.tail)
    }

    fn head(&self, arc: u32) -> Option<u32> {
        self.net.arcs.get(arc as usize).map(|a| a.head)
    }

    fn least(&self, arc: u32) -> Option<u32> {
        self.net.arcs.get(arc as usize).map(|a| a.least)
    }

    fn estimate(&self, from: u32, to: u32) -> Option<u32> {
        let heights = &self.heights[..self.net.places];
        let base = heights.get(from as usize)?;
        let height = heights.get(to as usize)?;
        Some(height.saturating_sub(*base))
    }

    fn leaving_count(&self, place: u32) -> u32 {
        self.leaving.count_at(place as usize)
    }

    fn entering_count(&self, place: u32) -> u32 {
        self.entering.count_at(place as usize)
    }

    fn leaving(&self, place: u32, k: u32) -> Option<u32> {
        self.leaving.kth(place as usize, k)
    }

    fn entering(&self, place: u32, k: u32) -> Option<u32> {
        self.entering.kth(place as usize, k)
    }
}
