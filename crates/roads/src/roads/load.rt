// How roads come about, and how they are filled.
ghost use Rattle.std.specs.Prelude.{◌≡◌, ◌↔◌, [], IsTrue, IfOk, OnOk, OnErr};
ghost use Rattle.roads.specs.Loads.{Accepted, Filled, Fits as FitsIn, Judged};
ghost use Rattle.roads.specs.Tables.{tables_of, SameNames};

use crate::check::{copy, first_steep, within};
use crate::roads::Roads;
use arcs::lists::Index;
use arcs::net::Net;
use ground::end::End;
use terms::arc::Arc;
use terms::refusal::Refusal;

impl<'a, 't> Roads<'a, 't> {
    // Empty roads, with no places and no arcs, over the tables that Load fills. These come one by one, as the arrays that
    // callers have, and not as indexes, which they would have to make.
    pub fn empty(
        heights: &'t mut [u32],
        leaving: &'t mut [u32],
        leavers: &'t mut [u32],
        entering: &'t mut [u32],
        enterers: &'t mut [u32],
    ) -> Roads<'a, 't>
        ensures none { (result.net.places ≡ 0) × (result.net.arcs.now ≡ []) }
        ensures heights { (result.heights.now ≡ heights.old) × (result.heights.ghost_name ≡ heights.entry.ghost_name) }
        ensures leaving { (result.leaving.ends.now ≡ leaving.old) × (result.leaving.ends.ghost_name ≡ leaving.entry.ghost_name) }
        ensures leavers { (result.leaving.order.now ≡ leavers.old) × (result.leaving.order.ghost_name ≡ leavers.entry.ghost_name) }
        ensures entering { (result.entering.ends.now ≡ entering.old) × (result.entering.ends.ghost_name ≡ entering.entry.ghost_name) }
        ensures enterers { (result.entering.order.now ≡ enterers.old) × (result.entering.order.ghost_name ≡ enterers.entry.ghost_name) }
    {
        Roads {
            net: Net::empty(),
            heights,
            leaving: Index::empty(leaving, leavers),
            entering: Index::empty(entering, enterers),
        }
    }

    // Whether every table has an entry for each place or each arc.
    fn fits(&self, places: usize, arcs: &[Arc], heights: &[u32]) -> bool
        ensures { IsTrue result ↔ FitsIn places arcs.now heights.now (tables_of self.now) }
    {
        places <= heights.len()
            && places <= self.heights.len()
            && self.leaving.has_room(places, arcs.len())
            && self.entering.has_room(places, arcs.len())
    }

    // Tries the reasons to decline, the topmost first, and answers the net of the arcs.
    fn judge<'n>(&self, places: usize, arcs: &'n [Arc], heights: &[u32]) -> Result<Net<'n>, Refusal>
        ensures judged { Judged places arcs.now heights.now (tables_of self.now) result }
        ensures net { IfOk result (λ net. (net.places ≡ places) × (net.arcs.now ≡ arcs.now)) }
    {
        if !self.fits(places, arcs, heights) {
            return Err(Refusal::TableShort);
        }
        let net = Net::new(places, arcs)?;
        if !within(&net, heights) {
            return Err(Refusal::Outside);
        }
        match first_steep(&net, heights) {
            None => Ok(net),
            Some(arc) => Err(Refusal::HeightStep(arc)),
        }
    }

    // Takes an accepted net and its heights.
    fn fill(&mut self, net: Net<'a>, heights: &[u32])
        requires { Accepted net.places net.arcs.now heights.now (tables_of self.old) }
        ensures net { (self.new.net.places ≡ net.entry.places) × (self.new.net.arcs.now ≡ net.entry.arcs.now) }
        ensures same { SameNames self.old self.new }
        ensures tables { Filled net.entry.places net.entry.arcs.now heights.now (tables_of self.old) (tables_of self.new) }
    {
        copy(net.places, heights, self.heights);
        self.leaving.fill(End::Tail, &net);
        self.entering.fill(End::Head, &net);
        self.net = net;
    }

    // Fills the roads with arcs between so many places, and with their heights, of which it keeps a copy. Where it
    // declines, the roads and their tables stay as they are.
    pub fn load(&mut self, places: u32, arcs: &'a [Arc], heights: &[u32]) -> Result<(), Refusal>
        ensures answer { Judged places arcs.now heights.now (tables_of self.old) result }
        ensures filled { OnOk result ((self.new.net.places ≡ places) × (self.new.net.arcs.now ≡ arcs.now) × Filled places arcs.now heights.now (tables_of self.old) (tables_of self.new)) }
        ensures kept { OnErr result (self.new ≡ self.old) }
        ensures same { SameNames self.old self.new }
    {
        let net = self.judge(places as usize, arcs, heights)?;
        self.fill(net, heights);
        Ok(())
    }
}
