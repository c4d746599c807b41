// The eight directions out of a cell.
ghost use Rattle.std.specs.Prelude.{◌≡◌, ◌+◌, ◌%◌};
ghost use Rattle.grid.specs.Compass.{number, step_of};

// Clockwise from straight up: the arcs of a cell go in this order.
#[derive(Clone, Copy)]
pub(crate) enum Direction {
    Up,
    UpRight,
    Right,
    DownRight,
    Down,
    DownLeft,
    Left,
    UpLeft,
}

#[derive(Clone, Copy)]
pub(crate) struct Step {
    pub rows: i32,
    pub columns: i32,
    pub factor: u32,
}

// How the row changes, how the column changes, and how many times the base an arc costs at least.
const STEPS: [(i32, i32, u32); 8] = [
    (-1, 0, 5),
    (-1, 1, 7),
    (0, 1, 5),
    (1, 1, 7),
    (1, 0, 5),
    (1, -1, 7),
    (0, -1, 5),
    (-1, -1, 7),
];

impl Direction {
    // The direction of an arc.
    pub(crate) fn of_arc(arc: u32) -> Direction
        ensures { number result ≡ arc % 8 }
    {
        match arc % 8 {
            0 => Direction::Up,
            1 => Direction::UpRight,
            2 => Direction::Right,
            3 => Direction::DownRight,
            4 => Direction::Down,
            5 => Direction::DownLeft,
            6 => Direction::Left,
            _ => Direction::UpLeft,
        }
    }

    // The direction back.
    pub(crate) fn opposite(self) -> Direction
        ensures { number result ≡ (number self + 4) % 8 }
    {
        Direction::of_arc(self as u32 + 4)
    }

    pub(crate) fn step(self) -> Step
        ensures { result ≡ step_of (number self) }
    {
        let &(rows, columns, factor) = &STEPS[self as usize];
        Step {
            rows,
            columns,
            factor,
        }
    }
}
