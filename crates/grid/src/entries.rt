// The arcs that can enter a cell.
use crate::compass::Direction;

// The arc back from the neighbour in a direction, or the cell's own arc in a direction, which comes back where it would
// leave the grid.
#[derive(Clone, Copy)]
pub(crate) enum Entry {
    Back(Direction),
    Own(Direction),
}

// In rising arc number: from the neighbours before the cell, from the cell itself, from the neighbours after it.
pub(crate) const ENTRIES: [Entry; 16] = [
    Entry::Back(Direction::UpLeft),
    Entry::Back(Direction::Up),
    Entry::Back(Direction::UpRight),
    Entry::Back(Direction::Left),
    Entry::Own(Direction::Up),
    Entry::Own(Direction::UpRight),
    Entry::Own(Direction::Right),
    Entry::Own(Direction::DownRight),
    Entry::Own(Direction::Down),
    Entry::Own(Direction::DownLeft),
    Entry::Own(Direction::Left),
    Entry::Own(Direction::UpLeft),
    Entry::Back(Direction::Right),
    Entry::Back(Direction::DownLeft),
    Entry::Back(Direction::Down),
    Entry::Back(Direction::DownRight),
];

// The neighbours alone, in the same order: what enters a cell that has all eight.
pub(crate) const NEIGHBOURS: [Direction; 8] = [
    Direction::UpLeft,
    Direction::Up,
    Direction::UpRight,
    Direction::Left,
    Direction::Right,
    Direction::DownLeft,
    Direction::Down,
    Direction::DownRight,
];
