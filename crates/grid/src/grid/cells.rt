// The cells of a grid, and where the steps of the compass lead from them.
ghost use Rattle.std.specs.Prelude.{◌≡◌, ◌+◌, ◌*◌, ◌/◌, ◌%◌, ◌<◌, ◌≤◌, MatchOption, IfSome};
ghost use Rattle.std.specs.List.{slice_get};
ghost use Rattle.std.specs.Option.{option_map};
ghost use Rattle.grid.specs.Compass.{number, moved as shifted, neighbour, is_inner};
ghost use Rattle.grid.specs.Entries.{entering, arcs_into_cell};

use crate::compass::Direction;
use crate::entries::{ENTRIES, Entry, NEIGHBOURS};
use crate::grid::Grid;

// A place of a grid, with its row and its column.
#[derive(Clone, Copy)]
pub(super) struct Cell {
    grid: Grid,
    pub place: u32,
    pub row: u32,
    pub column: u32,
    ghost there: { place < grid.rows * grid.columns },
    ghost row_is: { row ≡ place / grid.columns },
    ghost column_is: { column ≡ place % grid.columns },
}

// The row or the column that a step leads to, if it is one of so many.
fn moved(limit: u32, at: u32, by: i32) -> Option<u32>
    requires { at < limit }
    ensures to { result ≡ shifted limit at by }
    ensures within { IfSome result (λ to. to < limit) }
{
    at.checked_add_signed(by).filter(|to| *to < limit)
}

impl Grid {
    // The cell at a place, if there is one.
    pub(super) fn cell(&self, place: u32) -> Option<Cell>
        ensures { MatchOption result (self.now.rows * self.now.columns ≤ place) (λ cell. (cell.grid ≡ self.now) × (cell.place ≡ place)) }
    {
        if place >= self.rows * self.columns {
            return None;
        }
        Some(Cell {
            grid: *self,
            place,
            row: place / self.columns,
            column: place % self.columns,
        })
    }
}

impl Cell {
    // Whether all eight neighbours are on the grid.
    fn is_inner(self) -> bool
        ensures { result ≡ is_inner self.grid.rows self.grid.columns self.place }
    {
        (1..self.grid.rows - 1).contains(&self.row)
            && (1..self.grid.columns - 1).contains(&self.column)
    }

    // The cell beside it, unless that is off the grid.
    pub(super) fn beside(self, direction: Direction) -> Option<Cell>
        ensures place { option_map (λ cell. cell.place) result ≡ neighbour self.grid.rows self.grid.columns self.place (number direction) }
        ensures same { IfSome result (λ cell. cell.grid ≡ self.grid) }
    {
        let step = direction.step();
        let row = moved(self.grid.rows, self.row, step.rows)?;
        let column = moved(self.grid.columns, self.column, step.columns)?;
        Some(Cell {
            grid: self.grid,
            place: row * self.grid.columns + column,
            row,
            column,
        })
    }

    // The arc that leaves it in a direction.
    fn arc(self, direction: Direction) -> u32
        ensures { result ≡ 8 * self.place + number direction }
    {
        8 * self.place + direction as u32
    }

    // The arc by which an entry of the table comes in, if there is one.
    fn entered_by(self, entry: Entry) -> Option<u32>
        ensures { result ≡ entering self.grid.rows self.grid.columns self.place entry }
    {
        match entry {
            Entry::Back(direction) => Some(self.beside(direction)?.arc(direction.opposite())),
            Entry::Own(direction) => self
                .beside(direction)
                .is_none()
                .then(|| self.arc(direction)),
        }
    }

    // The k-th arc that enters it, by the table of entries. Out of line, since only a border needs the walk.
    #[inline(never)]
    fn entered(self, k: usize) -> Option<u32>
        ensures { result ≡ slice_get (arcs_into_cell self.grid.rows self.grid.columns self.place) k }
    {
        ENTRIES
            .iter()
            .filter_map(|entry| self.entered_by(*entry))
            .nth(k)
    }

    // The k-th arc that enters it, from 0. An inner cell is entered from each neighbour, and by none of its own arcs.
    pub(super) fn entering(self, k: usize) -> Option<u32>
        ensures { result ≡ slice_get (arcs_into_cell self.grid.rows self.grid.columns self.place) k }
    {
        if self.is_inner() {
            self.entered_by(Entry::Back(*NEIGHBOURS.get(k)?))
        } else {
            self.entered(k)
        }
    }
}
