// A net: lawful arcs between so many places, each of which a number tells.
ghost use Rattle.std.specs.Prelude.{◌≡◌, ◌^◌, ◌<◌, [], length};
ghost use Rattle.arcs.specs.Tables.{AllLawful};

use crate::lawful::first_unlawful;
use terms::arc::Arc;
use terms::refusal::Refusal;

#[derive(Clone, Copy)]
pub struct Net<'a> {
    pub places: usize,
    pub arcs: &'a [Arc],
    ghost few: { length arcs.now < 2 ^ 32 },
    ghost lawful: { AllLawful places arcs.now },
}

impl<'a> Net<'a> {
    ghost use Rattle.arcs.specs.Nets.{Made};

    // The net of no places.
    pub fn empty() -> Net<'a>
        ensures { (result.places ≡ 0) × (result.arcs.now ≡ []) }
    {
        Net {
            places: 0,
            arcs: &[],
        }
    }

    // The net of these arcs. Declines where one is unlawful, naming the lowest, and where they are more than a number tells.
    pub fn new(places: usize, arcs: &'a [Arc]) -> Result<Net<'a>, Refusal>
        ensures { Made places arcs.now result }
    {
        if let Some(arc) = first_unlawful(places, arcs) {
            return Err(Refusal::ArcUnlawful(arc));
        }
        if arcs.len() > u32::MAX as usize {
            return Err(Refusal::Outside);
        }
        Ok(Net { places, arcs })
    }
}
