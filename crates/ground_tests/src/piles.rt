// Two pick-ups on a grid of two rows and two columns, one pick-up off it, and a layer that finds no room.
use crate::asked::*;
use grid::grid::Grid;
use pickup::pickup::Pickup;
use std::test::Fail;

#[test]
fn pile_of_two(rt: HostRuntime) -> Result<(), Fail> {
    let g = Grid::new(2, 2, 1)?;
    let one = Pickup::new(&g, 1);
    let two = Pickup::new(&one, 6);
    sizes_are(&rt, &one, 8, 65);
    sizes_are(&rt, &two, 16, 131);
    arcs_are(
        &rt,
        &two,
        &[
            (64, 1, 5, 1),
            (115, 14, 15, 5),
            (129, 9, 13, 1),
            (130, 6, 14, 1),
        ],
    );
    estimates_are(&rt, &two, &[(0, 11, 7), (9, 14, 7)]);
    leaving_are(&rt, &two, 6, &[48, 49, 50, 51, 52, 53, 54, 55, 130]);
    leaving_are(&rt, &two, 1, &[8, 9, 10, 11, 12, 13, 14, 15, 64]);
    entering_are(&rt, &two, 5, &[34, 40, 41, 42, 43, 47, 49, 56, 64]);
    entering_are(&rt, &two, 13, &[99, 105, 106, 107, 108, 112, 114, 121, 129]);
    entering_are(
        &rt,
        &two,
        14,
        &[101, 110, 116, 117, 118, 119, 120, 127, 130],
    );
    Ok(())
}

#[test]
fn off_the_ground(rt: HostRuntime) -> Result<(), Fail> {
    let g = Grid::new(2, 2, 1)?;
    let layer = Pickup::new(&g, 4);
    sizes_are(&rt, &layer, 8, 64);
    leaving_are(&rt, &layer, 3, &[24, 25, 26, 27, 28, 29, 30, 31]);
    entering_are(&rt, &layer, 7, &[35, 44, 50, 57, 58, 59, 60, 61]);
    Ok(())
}

#[test]
fn no_room(rt: HostRuntime) -> Result<(), Fail> {
    let g = Grid::new(128, 128, 1)?;
    let layer = Pickup::new(&g, 0);
    sizes_are(&rt, &layer, 0, 0);
    leaving_are(&rt, &layer, 0, &[]);
    Ok(())
}
