// A drive through the town.
use crate::desk::Desk;
use ground::ground::Ground;
use plan::answer::Answer;
use std::process::Abort;
use terms::call::Call;
use terms::refusal::Refusal;

pub(crate) fn sample_run<G: Ground>(rt: &impl Abort, town: &G) {
    let mut desk = Desk::new();
    let begin = Call::Begin {
        here: 0,
        landing: 3,
        slack: 32,
    };
    let search = Call::Search { turns: 9 };
    desk.replay(
        rt,
        town,
        &[
            (begin, Ok(Answer::Done)),
            (search, Ok(Answer::Settled { turns: 3, count: 3 })),
            (Call::Route, Ok(Answer::Route { arcs: 2, sum: 9 })),
        ],
    );
    desk.lists(rt, &[0, 1]);
    desk.replay(
        rt,
        town,
        &[
            (Call::Set { arc: 1, cost: 4 }, Err(Refusal::CostOutside)),
            (Call::Set { arc: 1, cost: 20 }, Ok(Answer::Done)),
            (
                Call::Search { turns: 1 },
                Ok(Answer::Cut { turns: 1, count: 1 }),
            ),
            (Call::Route, Err(Refusal::NotSettled)),
            (search, Ok(Answer::Settled { turns: 3, count: 4 })),
            (Call::Route, Ok(Answer::Route { arcs: 2, sum: 11 })),
        ],
    );
    desk.lists(rt, &[2, 3]);
    desk.replay(
        rt,
        town,
        &[
            (Call::Set { arc: 2, cost: 0 }, Ok(Answer::Done)),
            (Call::Set { arc: 0, cost: 0 }, Ok(Answer::Done)),
            (search, Ok(Answer::Settled { turns: 2, count: 2 })),
            (Call::Route, Err(Refusal::NoWay)),
            (Call::Sum { arcs: &[1, 3] }, Ok(Answer::Sum(29))),
        ],
    );
}
