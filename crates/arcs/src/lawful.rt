// Which arcs are lawful.
ghost use Rattle.std.specs.Prelude.{◌↔◌, IsTrue, MatchOption};
ghost use Rattle.arcs.specs.Tables.{AllLawful, LawfulArc, LowestUnlawful};

use terms::arc::Arc;

// Whether both ends are among the places, and the least cost is one.
fn lawful(places: usize, arc: Arc) -> bool
    ensures { IsTrue result ↔ LawfulArc places arc }
{
    (arc.tail as usize) < places
        && (arc.head as usize) < places
        && 1 <= arc.least
        && arc.least <= 10_000
}

// The lowest arc that is not lawful.
pub fn first_unlawful(places: usize, arcs: &[Arc]) -> Option<usize>
    ensures { MatchOption result (AllLawful places arcs.now) (LowestUnlawful places arcs.now) }
{
    arcs.iter().position(|arc| !lawful(places, *arc))
}
