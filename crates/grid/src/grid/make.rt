// How a grid comes about. In a file of its own, since its contract cites a definition that names the type.
ghost use Rattle.grid.specs.Made.{GridFor};

use crate::grid::Grid;
use terms::refusal::Refusal;

impl Grid {
    // The grid of so many rows and columns over a base, declined as "Outside" exactly when one of the three is.
    pub fn new(rows: u32, columns: u32, base: u32) -> Result<Grid, Refusal>
        ensures { GridFor rows columns base result }
    {
        match (rows, columns, base) {
            (1..=128, 1..=128, 1..=1000) => Ok(Grid {
                rows,
                columns,
                base,
            }),
            _ => Err(Refusal::Outside),
        }
    }
}
