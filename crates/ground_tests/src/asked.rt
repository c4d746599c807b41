// A ground, held to what is expected of it.
use ground::around::Around;
use ground::end::End;
use ground::ground::Ground;
use std::process::Abort;

pub(crate) fn sizes_are<G: Ground>(rt: &impl Abort, ground: &G, places: u32, arcs: u32) {
    assert_eq!(rt; ground.places(), places);
    assert_eq!(rt; ground.arcs(), arcs);
    assert_eq!(rt; ground.tail(arcs), None);
    assert_eq!(rt; ground.head(arcs), None);
    assert_eq!(rt; ground.least(arcs), None);
    assert_eq!(rt; ground.estimate(places, places), None);
}

// Arcs with their tails, heads and least costs.
pub(crate) fn arcs_are<G: Ground>(rt: &impl Abort, ground: &G, expected: &[(u32, u32, u32, u32)]) {
    for (arc, tail, head, least) in expected {
        assert_eq!(rt; ground.tail(*arc), Some(*tail));
        assert_eq!(rt; ground.head(*arc), Some(*head));
        assert_eq!(rt; ground.least(*arc), Some(*least));
    }
}

// Two places with the estimate from the one to the other.
pub(crate) fn estimates_are<G: Ground>(rt: &impl Abort, ground: &G, expected: &[(u32, u32, u32)]) {
    for (from, to, estimate) in expected {
        assert_eq!(rt; ground.estimate(*from, *to), Some(*estimate));
    }
}

// The arcs with an end at a place, in order, and nothing after them.
fn around_are<G: Ground>(rt: &impl Abort, ground: &G, place: u32, end: End, expected: &[u32]) {
    assert_eq!(rt; end.count_at(ground, place) as usize, expected.len());
    let mut arcs = Around::new(ground, place, end);
    for arc in expected {
        assert_eq!(rt; arcs.next(), Some(*arc));
    }
    assert_eq!(rt; arcs.next(), None);
}

pub(crate) fn leaving_are<G: Ground>(rt: &impl Abort, ground: &G, place: u32, expected: &[u32]) {
    around_are(rt, ground, place, End::Tail, expected);
}

pub(crate) fn entering_are<G: Ground>(rt: &impl Abort, ground: &G, place: u32, expected: &[u32]) {
    around_are(rt, ground, place, End::Head, expected);
}
