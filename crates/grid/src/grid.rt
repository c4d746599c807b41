// A grid of cells: its rows and columns, and the base that its least costs are multiples of.
ghost use Rattle.std.specs.Prelude.{◌≤◌};

#[derive(Clone, Copy)]
pub struct Grid {
    rows: u32,
    columns: u32,
    base: u32,
    ghost some_rows: { 1 ≤ rows },
    ghost few_rows: { rows ≤ 128 },
    ghost some_columns: { 1 ≤ columns },
    ghost few_columns: { columns ≤ 128 },
    ghost low_base: { 1 ≤ base },
    ghost high_base: { base ≤ 1000 },
}

pub mod answers;
mod cells;
pub mod make;
