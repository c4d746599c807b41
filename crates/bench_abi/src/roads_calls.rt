// Survey and Load on tables of arcs.
ghost use Rattle.std.specs.Prelude.{⊤};

use ground::around::Around;
use ground::end::End;
use ground::ground::Ground;
use queue::entry::Entry;
use roads::roads::Roads;
use survey::survey::survey;
use survey::working::Working;
use terms::arc::Arc;
use terms::refusal::Refusal;

// An arc as Rust hands it over.
#[repr(C)]
#[derive(Clone, Copy)]
pub struct Strip {
    pub tail: u32,
    pub head: u32,
    pub least: u32,
}

// The most arcs and places that a run can have.
const ARCS: usize = 131_073;

const PLACES: usize = 16_385;

const NONE: Arc = Arc {
    tail: 0,
    head: 0,
    least: 0,
};

// A refusal as its number and, in the upper half, what it carries; 0 for none.
fn coded(answer: Result<(), Refusal>) -> u64 {
    match answer {
        Ok(()) => 0,
        Err(Refusal::ArcUnlawful(arc)) => told(12, arc),
        Err(Refusal::HeightStep(arc)) => told(14, arc),
        Err(Refusal::NotReached(place)) => told(15, place as usize),
        Err(refusal) => refusal.number() as u64,
    }
}

fn told(number: u64, value: usize) -> u64 {
    (value as u64).wrapping_mul(1 << 32).wrapping_add(number)
}

impl From<&Strip> for Arc {
    ghost from_gives = { λ _ _. ⊤ };

    fn from(s: &Strip) -> Arc {
        Arc {
            tail: s.tail,
            head: s.head,
            least: s.least,
        }
    }
}

// Takes strips over into the front of a table.
pub(crate) fn take_over(strips: &[Strip], table: &mut [Arc]) {
    for (arc, strip) in table.iter_mut().zip(strips) {
        *arc = Arc::from(strip);
    }
}

// Writes the arcs that have an end at each place, in order, one place after the other, as far as the list goes.
fn list_arcs<G: Ground>(ground: &G, places: u32, end: End, list: &mut [u32]) {
    let mut slots = list.iter_mut();
    for place in 0..places {
        for arc in Around::new(ground, place, end) {
            if let Some(slot) = slots.next() {
                *slot = arc;
            }
        }
    }
}

// Surveys from a place. The working table is part of the run.
#[unsafe(no_mangle)]
pub extern "C" fn roads_survey(
    from: u32,
    places: u32,
    strips: &[Strip],
    heights: &mut [u32],
) -> u64 {
    let mut table = [NONE; ARCS];
    take_over(strips, &mut table);
    let mut ends = [0u32; PLACES];
    let mut order = [0u32; ARCS];
    let mut sums = [0u32; PLACES];
    let mut entries = [Entry::free(); PLACES];
    let m = strips.len().min(ARCS);
    let arcs = &table[0..m];
    let mut work = Working {
        ends: &mut ends,
        order: &mut order,
        sums: &mut sums,
        queue: &mut entries,
    };
    coded(survey(from, places, arcs, heights, &mut work))
}

// Loads roads, and writes the arcs that leave and enter each place, in order, one place after the other.
#[unsafe(no_mangle)]
pub extern "C" fn roads_load(
    places: u32,
    strips: &[Strip],
    heights: &[u32],
    left: &mut [u32],
    entered: &mut [u32],
) -> u64 {
    let mut table = [NONE; ARCS];
    take_over(strips, &mut table);
    let mut own = [0u32; PLACES];
    let mut leaving = [0u32; PLACES];
    let mut leavers = [0u32; ARCS];
    let mut entering = [0u32; PLACES];
    let mut enterers = [0u32; ARCS];
    let m = strips.len().min(ARCS);
    let arcs = &table[0..m];
    let mut roads = Roads::empty(
        &mut own,
        &mut leaving,
        &mut leavers,
        &mut entering,
        &mut enterers,
    );
    let answer = roads.load(places, arcs, heights);
    list_arcs(&roads, places, End::Tail, left);
    list_arcs(&roads, places, End::Head, entered);
    coded(answer)
}
