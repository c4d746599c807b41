// The place at an end of an arc.
ghost use Rattle.std.specs.Prelude.{◌≡◌};
ghost use Rattle.arcs.specs.Tables.{end_of};

use ground::end::End;
use terms::arc::Arc;

// The end is told by an enum and no closure: the definitions go by its cases, and a closure would put its own clauses into
// every contract.
pub fn place_at(end: End, arc: Arc) -> u32
    ensures { result ≡ end_of end arc }
{
    match end {
        End::Tail => arc.tail,
        End::Head => arc.head,
    }
}
