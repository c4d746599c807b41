// Drives over grids, roads and pick-ups on them.
use crate::detours::drive;
use crate::sample::sample_run;
use grid::grid::Grid;
use ground::ground::Ground;
use pickup::pickup::Pickup;
use queue::entry::Entry;
use roads::roads::Roads;
use std::process::Abort;
use std::test::Fail;
use survey::survey::survey;
use survey::working::Working;
use terms::arc::Arc;

#[test]
fn on_a_grid(rt: HostRuntime) -> Result<(), Fail> {
    let grid = Grid::new(3, 3, 1)?;
    drive(&rt, &grid, 2, (3, &[2, 10], 10), 10, (4, &[3, 33], 14));
    Ok(())
}

#[test]
fn with_a_pickup(rt: HostRuntime) -> Result<(), Fail> {
    let grid = Grid::new(3, 3, 1)?;
    drive(
        &rt,
        &Pickup::new(&grid, 2),
        17,
        (12, &[2, 10, 144, 92, 116], 21),
        10,
        (4, &[3, 33, 144, 92, 116], 25),
    );
    Ok(())
}

fn arc(tail: u32, head: u32, least: u32) -> Arc {
    Arc { tail, head, least }
}

// The drives in the town, without and with a pick-up at its last place.
fn drive_in<G: Ground>(rt: &impl Abort, town: &G) {
    sample_run(rt, town);
    drive(rt, town, 3, (3, &[0, 1], 9), 1, (4, &[2, 3], 11));
    let layer = Pickup::new(town, 3);
    drive(rt, &layer, 7, (6, &[0, 1, 8], 10), 1, (5, &[2, 3, 8], 12));
}

// Two ways lead from place 0 to place 3.
#[test]
fn in_the_town(rt: HostRuntime) -> Result<(), Fail> {
    let arcs = [arc(0, 1, 4), arc(1, 3, 5), arc(0, 2, 2), arc(2, 3, 9)];
    let mut heights = [0; 4];
    survey(
        0,
        4,
        &arcs,
        &mut heights,
        &mut Working {
            ends: &mut [0; 4],
            order: &mut [0; 4],
            sums: &mut [0; 4],
            queue: &mut [Entry::free(); 4],
        },
    )?;
    assert_eq!(rt; heights, [0, 4, 2, 9]);
    let mut own = [0; 4];
    let mut leaving = [0; 4];
    let mut leavers = [0; 4];
    let mut entering = [0; 4];
    let mut enterers = [0; 4];
    let mut roads = Roads::empty(
        &mut own,
        &mut leaving,
        &mut leavers,
        &mut entering,
        &mut enterers,
    );
    roads.load(4, &arcs, &heights)?;
    drive_in(&rt, &roads);
    Ok(())
}
