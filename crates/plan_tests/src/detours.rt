// One drive for every kind of ground: a way, an arc of it shut, and the way round.
use crate::desk::Desk;
use ground::ground::Ground;
use plan::answer::Answer;
use std::process::Abort;
use terms::call::Call;
use terms::refusal::Refusal;

// The turns of a search, the arcs of the route that it leaves, and their sum.
type Way<'a> = (u32, &'a [u32], u32);

fn settle<G: Ground>(rt: &impl Abort, desk: &mut Desk, ground: &G, (turns, arcs, sum): Way) {
    let settled = Answer::Settled {
        turns,
        count: turns,
    };
    let route = Answer::Route {
        arcs: arcs.len(),
        sum,
    };
    desk.replay(
        rt,
        ground,
        &[
            (Call::Search { turns: 64 }, Ok(settled)),
            (Call::Route, Ok(route)),
            (Call::Sum { arcs }, Ok(Answer::Sum(sum))),
        ],
    );
    desk.lists(rt, arcs);
}

// From place 0, with the cheapest way wanted, and then with an arc of it shut.
pub(crate) fn drive<'a, G: Ground>(
    rt: &impl Abort,
    ground: &G,
    landing: u32,
    way: Way<'a>,
    shut: u32,
    detour: Way<'a>,
) {
    let mut desk = Desk::new();
    let begin = Call::Begin {
        here: 0,
        landing,
        slack: 16,
    };
    desk.replay(
        rt,
        ground,
        &[
            (Call::Set { arc: shut, cost: 0 }, Err(Refusal::NotBegun)),
            (Call::Search { turns: 1 }, Err(Refusal::NotBegun)),
            (Call::Route, Err(Refusal::NotBegun)),
            (Call::Sum { arcs: way.1 }, Err(Refusal::NotBegun)),
            (begin, Ok(Answer::Done)),
        ],
    );
    settle(rt, &mut desk, ground, way);
    desk.replay(
        rt,
        ground,
        &[
            (Call::Set { arc: shut, cost: 0 }, Ok(Answer::Done)),
            (Call::Sum { arcs: detour.1 }, Ok(Answer::Sum(detour.2))),
        ],
    );
    settle(rt, &mut desk, ground, detour);
}
