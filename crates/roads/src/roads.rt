// Roads: a net, a height for each place, and an index of the arcs by either end.
ghost use Rattle.std.specs.Prelude.{◌≤◌, length};
ghost use Rattle.arcs.specs.Lists.{HasRoom, Indexes};
ghost use Rattle.arcs.specs.Nets.{IndexedBy};
ghost use Rattle.arcs.specs.Tables.{AllLawful};
ghost use Rattle.ground.specs.declared.end.End.TheVariants.{Tail, Head};
ghost use Rattle.roads.specs.Heights.{LowHeights, Steps};

use arcs::lists::Index;
use arcs::net::Net;

#[derive(Drop)]
pub struct Roads<'a, 't> {
    net: Net<'a>,
    heights: &'t mut [u32],
    leaving: Index<'t, 't>,
    entering: Index<'t, 't>,
    ghost few_places: { net.places ≤ 16384 },
    ghost few_arcs: { length net.arcs.now ≤ 131072 },
    ghost lawful: { AllLawful net.places net.arcs.now },
    ghost low_heights: { LowHeights net.places heights.now },
    ghost steps: { Steps net.arcs.now heights.now },
    ghost heights_fit: { net.places ≤ length heights.now },
    ghost leaving_room: { HasRoom leaving net.places (length net.arcs.now) },
    ghost entering_room: { HasRoom entering net.places (length net.arcs.now) },
    ghost leaving_right: { Indexes leaving Tail net },
    ghost entering_right: { Indexes entering Head net },
    ghost leaving_tables: { IndexedBy Tail net leaving.ends.now leaving.order.now },
    ghost entering_tables: { IndexedBy Head net entering.ends.now entering.order.now },
}

pub mod answers;
pub mod load;
