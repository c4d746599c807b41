// A whole past of a plan: calls on one ground, then on another, with one plan throughout.
ghost use Rattle.std.specs.Prelude.{⊤};

use crate::roads_calls::{Strip, take_over};
use grid::grid::Grid;
use ground::ground::Ground;
use pickup::pickup::Pickup;
use plan::answer::Answer;
use plan::plan::Plan;
use planner::carry_out::carry_out;
use queue::entry::Entry;
use queue::key::Key;
use queue::queue::Queue;
use roads::roads::Roads;
use search::place::Place;
use terms::arc::Arc;
use terms::call::Call;
use terms::refusal::Refusal;

// Some calls in a row on one ground.
#[repr(C)]
#[derive(Clone, Copy)]
pub struct Stretch {
    // 0 is a grid of first rows, second columns and third base; 1 is roads of first places
    pub kind: u32,
    pub first: u32,
    pub second: u32,
    pub third: u32,
    // the arcs and heights of the roads
    pub strips_from: u32,
    pub strips_to: u32,
    pub heights_from: u32,
    pub heights_to: u32,
    // how many pick-ups are piled on it, two at most, and where they are
    pub layers: u32,
    pub lower: u32,
    pub upper: u32,
    // its calls
    pub asks_from: u32,
    pub asks_to: u32,
}

// One call: 0 Begin, 1 Set, 2 Move, 3 Stretch, 4 Search, 5 Route, 6 Sum.
#[repr(C)]
#[derive(Clone, Copy)]
pub struct Ask {
    pub kind: u32,
    // its numbers; of Sum, where its arcs begin and end among those listed
    pub first: u32,
    pub second: u32,
    pub third: u32,
    // how many entries of each table it is lent
    pub costs: u32,
    pub places: u32,
    pub queue: u32,
    pub list: u32,
}

// What it answered: 0 Done, 1 Settled, 2 Cut, 3 Route, 4 Sum with their numbers, 5 and the number of a refusal.
#[repr(C)]
#[derive(Clone, Copy)]
pub struct Told {
    pub kind: u32,
    pub first: u32,
    pub second: u32,
}

// The most arcs and places that a run can have.
const ARCS: usize = 131_073;

const PLACES: usize = 16_400;

// A plan with its tables, and what its calls read from and write into.
#[derive(Drop)]
struct Desk<'a> {
    plan: Plan,
    places: [Place; PLACES],
    queue: [Entry<Key>; PLACES],
    costs: &'a mut [u32],
    listed: &'a [u32],
    list: &'a mut [u32],
    // how many entries of the list the routes take so far
    taken: usize,
}

fn cut<T>(whole: &[T], from: u32, to: u32) -> &[T] {
    let to = (to as usize).min(whole.len());
    let from = (from as usize).min(to);
    &whole[from..to]
}

impl Ask {
    fn call<'a>(&self, listed: &'a [u32]) -> Call<&'a [u32]> {
        // The kinds are numbers, since they come through the C interface.
        match self.kind {
            0 => Call::Begin {
                here: self.first,
                landing: self.second,
                slack: self.third,
            },
            1 => Call::Set {
                arc: self.first,
                cost: self.second,
            },
            2 => Call::Move { place: self.first },
            3 => Call::Stretch { slack: self.first },
            4 => Call::Search {
                turns: (self.first & 0xffff) as u16,
            },
            5 => Call::Route,
            _ => Call::Sum {
                arcs: cut(listed, self.first, self.second),
            },
        }
    }
}

impl Told {
    fn new(kind: u32, first: u32, second: u32) -> Told {
        Told {
            kind,
            first,
            second,
        }
    }
}

impl From<Result<Answer, Refusal>> for Told {
    ghost from_gives = { λ _ _. ⊤ };

    fn from(answer: Result<Answer, Refusal>) -> Told {
        match answer {
            Ok(Answer::Done) => Told::new(0, 0, 0),
            Ok(Answer::Settled { turns, count }) => Told::new(1, turns, count),
            Ok(Answer::Cut { turns, count }) => Told::new(2, turns, count),
            Ok(Answer::Route { arcs, sum }) => Told::new(3, arcs.min(0xffff_ffff) as u32, sum),
            Ok(Answer::Sum(sum)) => Told::new(4, sum, 0),
            Err(refusal) => Told::new(5, refusal.number(), 0),
        }
    }
}

impl<'a> Desk<'a> {
    fn carry_out<G: Ground>(&mut self, ground: &G, ask: &Ask) -> Told {
        let few_costs = (ask.costs as usize).min(self.costs.len());
        let few_places = (ask.places as usize).min(PLACES);
        let few_queue = (ask.queue as usize).min(PLACES);
        let from = self.taken.min(self.list.len());
        let to = from + (ask.list as usize).min(self.list.len() - from);
        let answer = carry_out(
            &mut self.plan,
            ground,
            ask.call(self.listed),
            &mut self.costs[0..few_costs],
            &mut self.places[0..few_places],
            &mut self.queue[0..few_queue],
            &mut self.list[from..to],
        );
        if let Ok(Answer::Route { arcs, .. }) = answer {
            self.taken = from.saturating_add(arcs);
        }
        Told::from(answer)
    }

    fn run<G: Ground>(&mut self, ground: &G, asks: &[Ask], answers: &mut [Told]) {
        for (ask, answer) in asks.iter().zip(answers.iter_mut()) {
            *answer = self.carry_out(ground, ask);
        }
    }

    fn run_layered<G: Ground>(
        &mut self,
        ground: &G,
        stretch: &Stretch,
        asks: &[Ask],
        answers: &mut [Told],
    ) {
        let one = Pickup::new(ground, stretch.lower);
        match stretch.layers {
            0 => self.run(ground, asks, answers),
            1 => self.run(&one, asks, answers),
            _ => self.run(&Pickup::new(&one, stretch.upper), asks, answers),
        }
    }

    fn run_on_grid(&mut self, stretch: &Stretch, asks: &[Ask], answers: &mut [Told]) {
        if let Ok(grid) = Grid::new(stretch.first, stretch.second, stretch.third) {
            self.run_layered(&grid, stretch, asks, answers);
        }
    }

    fn run_on_roads(
        &mut self,
        stretch: &Stretch,
        arcs: &[Arc],
        heights: &[u32],
        asks: &[Ask],
        answers: &mut [Told],
    ) {
        let mut own = [0u32; PLACES];
        let mut leaving = [0u32; PLACES];
        let mut leavers = [0u32; ARCS];
        let mut entering = [0u32; PLACES];
        let mut enterers = [0u32; ARCS];
        let mut roads = Roads::empty(
            &mut own,
            &mut leaving,
            &mut leavers,
            &mut entering,
            &mut enterers,
        );
        if roads.load(stretch.first, arcs, heights).is_ok() {
            self.run_layered(&roads, stretch, asks, answers);
        }
    }
}

// Leaves some keys of an earlier queue in a table.
fn leave_keys(entries: &mut [Entry<Key>], anything: u32) {
    let key = Key {
        first: 0,
        second: anything,
    };
    let mut queue = Queue::empty_exact(entries);
    for number in 1..9 {
        let _ = queue.put(anything.wrapping_mul(number), key);
    }
}

// Carries out the calls of every stretch. The plan has not begun, and its tables are full of anything. An answer is left
// as it was where its ground is none.
#[unsafe(no_mangle)]
pub extern "C" fn plan_run(
    anything: u32,
    stretches: &[Stretch],
    strips: &[Strip],
    heights: &[u32],
    asks: &[Ask],
    listed: &[u32],
    costs: &mut [u32],
    list: &mut [u32],
    answers: &mut [Told],
) {
    let mut table = [Arc {
        tail: 0,
        head: 0,
        least: 0,
    }; ARCS];
    take_over(strips, &mut table);
    let mut queue = [Entry::free(); PLACES];
    leave_keys(&mut queue, anything);
    let mut desk = Desk {
        plan: Plan::new(),
        places: [Place {
            g: anything,
            rhs: anything.wrapping_mul(31),
            closed: anything % 2 == 0,
        }; PLACES],
        queue,
        costs,
        listed,
        list,
        taken: 0,
    };
    for stretch in stretches {
        let to = (stretch.asks_to as usize).min(answers.len());
        let from = (stretch.asks_from as usize).min(to);
        let asks = cut(asks, stretch.asks_from, stretch.asks_to);
        let answers = &mut answers[from..to];
        if stretch.kind == 0 {
            desk.run_on_grid(stretch, asks, answers);
        } else {
            let arcs = cut(&table, stretch.strips_from, stretch.strips_to);
            let heights = cut(heights, stretch.heights_from, stretch.heights_to);
            desk.run_on_roads(stretch, arcs, heights, asks, answers);
        }
    }
}
