// What to measure: how far every place of a net is from one of them.
ghost use Rattle.std.specs.Prelude.{◌<◌, ◌≤◌};
ghost use Rattle.arcs.specs.Lists.{Indexes};
ghost use Rattle.ground.specs.declared.end.End.TheVariants.{Tail};

use arcs::lists::Index;
use arcs::net::Net;

#[derive(Clone, Copy)]
pub(crate) struct Task<'a, 't> {
    pub(crate) from: u32,
    pub(crate) net: Net<'a>,
    // the arcs that leave each place
    pub(crate) leaving: &'t Index<'t, 't>,
    ghost there: { from < net.places },
    ghost few: { net.places ≤ 16384 },
    ghost indexed: { Indexes leaving.now Tail net },
}
