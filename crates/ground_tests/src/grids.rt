// Grids of one cell, of one row, of one column, and the largest.
use crate::asked::*;
use grid::grid::Grid;
use std::test::Fail;
use terms::refusal::Refusal;

#[test]
fn one_cell(rt: HostRuntime) -> Result<(), Fail> {
    let g = Grid::new(1, 1, 1)?;
    sizes_are(&rt, &g, 1, 8);
    arcs_are(&rt, &g, &[(0, 0, 0, 5), (7, 0, 0, 7)]);
    estimates_are(&rt, &g, &[(0, 0, 0)]);
    leaving_are(&rt, &g, 0, &[0, 1, 2, 3, 4, 5, 6, 7]);
    entering_are(&rt, &g, 0, &[0, 1, 2, 3, 4, 5, 6, 7]);
    entering_are(&rt, &g, 1, &[]);
    Ok(())
}

#[test]
fn one_row(rt: HostRuntime) -> Result<(), Fail> {
    let g = Grid::new(1, 4, 10)?;
    arcs_are(&rt, &g, &[(8, 1, 1, 50), (10, 1, 2, 50), (14, 1, 0, 50)]);
    estimates_are(&rt, &g, &[(3, 0, 150)]);
    leaving_are(&rt, &g, 1, &[8, 9, 10, 11, 12, 13, 14, 15]);
    entering_are(&rt, &g, 1, &[2, 8, 9, 11, 12, 13, 15, 22]);
    entering_are(&rt, &g, 3, &[18, 24, 25, 26, 27, 28, 29, 31]);
    Ok(())
}

#[test]
fn one_column(rt: HostRuntime) -> Result<(), Fail> {
    let g = Grid::new(4, 1, 10)?;
    arcs_are(&rt, &g, &[(16, 2, 1, 50), (20, 2, 3, 50)]);
    entering_are(&rt, &g, 2, &[12, 17, 18, 19, 21, 22, 23, 24]);
    Ok(())
}

#[test]
fn the_largest(rt: HostRuntime) -> Result<(), Fail> {
    let g = Grid::new(128, 128, 1000)?;
    sizes_are(&rt, &g, 16_384, 131_072);
    arcs_are(
        &rt,
        &g,
        &[(131_071, 16_383, 16_254, 7000), (1_017, 127, 127, 7000)],
    );
    estimates_are(&rt, &g, &[(0, 16_383, 889_000), (384, 5, 31_000)]);
    entering_are(&rt, &g, 129, &[3, 12, 21, 1026, 1046, 2049, 2056, 2071]);
    entering_are(
        &rt,
        &g,
        16_383,
        &[
            130_035, 130_044, 131_058, 131_065, 131_066, 131_067, 131_068, 131_069,
        ],
    );
    Ok(())
}

#[test]
fn outside(rt: HostRuntime) {
    assert!(rt; matches!(Grid::new(0, 1, 1), Err(Refusal::Outside)));
    assert!(rt; matches!(Grid::new(1, 129, 1), Err(Refusal::Outside)));
    assert!(rt; matches!(Grid::new(1, 1, 1001), Err(Refusal::Outside)));
}
