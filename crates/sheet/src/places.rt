// How many places a table of arcs speaks of.
ghost use Rattle.std.specs.Prelude.{◌≡◌};
ghost use Rattle.sheet.specs.Places.{places_of};

use terms::arc::Arc;

// One more than the highest place number; none if there is no arc.
pub fn places(arcs: &[Arc]) -> u64
    ensures { result ≡ places_of arcs.now }
{
    arcs.iter().fold(0, |places, arc| {
        places
            .max(u64::from(arc.tail) + 1)
            .max(u64::from(arc.head) + 1)
    })
}
