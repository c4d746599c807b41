// A grid is a ground. Each question is answered in constant time.
ghost use Rattle.grid.specs.Grids.{gridded};
ghost use Rattle.grid.specs.GridLaws.{grid_lawful};

use crate::compass::Direction;
use crate::grid::Grid;
use ground::ground::Ground;

impl Ground for Grid {
    ghost meaning = { λ g. gridded g.rows g.columns g.base };

    ghost lawful = { grid_lawful };

    fn places(&self) -> u32 {
        self.rows * self.columns
    }

    fn arcs(&self) -> u32 {
        8 * self.places()
    }

    fn tail(&self, arc: u32) -> Option<u32> {
        (arc < self.arcs()).then_some(arc / 8)
    }

    fn head(&self, arc: u32) -> Option<u32> {
        let cell = self.cell(arc / 8)?;
        Some(cell.beside(Direction::of_arc(arc)).unwrap_or(cell).place)
    }

    fn least(&self, arc: u32) -> Option<u32> {
        (arc < self.arcs()).then(|| Direction::of_arc(arc).step().factor * self.base)
    }

    fn estimate(&self, from: u32, to: u32) -> Option<u32> {
        let from = self.cell(from)?;
        let to = self.cell(to)?;
        let rows = from.row.abs_diff(to.row);
        let columns = from.column.abs_diff(to.column);
        let slanting = rows.min(columns);
        let straight = rows.max(columns) - slanting;
        Some(7 * self.base * slanting + 5 * self.base * straight)
    }

    #[tactic(auto, using(crate::proofs::Leaving::leaving_count))]
    fn leaving_count(&self, place: u32) -> u32 {
        if place < self.places() { 8 } else { 0 }
    }

    // In each direction there is an arc back from the neighbour, or the cell's own where there is none.
    #[tactic(auto, using(crate::proofs::Entering::as_many_enter))]
    fn entering_count(&self, place: u32) -> u32 {
        self.leaving_count(place)
    }

    #[tactic(auto, using(crate::proofs::Leaving::leaving_at))]
    fn leaving(&self, place: u32, k: u32) -> Option<u32> {
        (place < self.places() && k < 8).then(|| 8 * place + k)
    }

    #[tactic(auto, using(crate::proofs::Entering::entering_at, crate::proofs::Entering::entering_beyond))]
    fn entering(&self, place: u32, k: u32) -> Option<u32> {
        self.cell(place)?.entering(k as usize)
    }
}
