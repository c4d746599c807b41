// Heights that are a function of the arcs: the least sums from a place, or 0 where Survey declines.
#![tactic(auto)]

ghost use Rattle.std.specs.Prelude.{◌≡◌, length};
ghost use Rattle.arcs.specs.Index.{SameFrom};
ghost use Rattle.arcs.specs.Tables.{AllLawful};
ghost use Rattle.heights.specs.LeastSums.{LeastSumLaw};
ghost use Rattle.heights.specs.Levels.{Levelled};
ghost use Rattle.roads.specs.Loads.{Accepted, Fits as LoadFits, Own};
ghost use Rattle.survey.specs.Surveys.{Ready, Small};
ghost use Rattle.survey.specs.Workings.{SameNames, Wiped};

use survey::survey::survey;
use survey::working::{Working, clear};
use terms::arc::Arc;

// Writes as each place's height its least sum from one of them, or 0 for every place where Survey declines.
pub fn level(from: u32, places: u32, arcs: &[Arc], heights: &mut [u32], work: &mut Working)
    ensures level { Levelled from places arcs.now heights.old work.old heights.new }
    ensures beyond { SameFrom places heights.old heights.new }
    ensures accepted { AllLawful places arcs.now → Small places arcs.now → (own : Own) → LoadFits places arcs.now heights.new own → Accepted places arcs.now heights.new own }
    ensures wiped { Ready from places arcs.now heights.old work.old → Wiped places (length arcs.now) work.old work.new }
    ensures kept { (Ready from places arcs.now heights.old work.old → ⊥) → work.new ≡ work.old }
    ensures same { SameNames work.old work.new }
{
    if survey(from, places, arcs, heights, work).is_err() {
        clear(places as usize, heights);
    }
}

// The law of least sums stands: the function finds a sum exactly where it is the least of any chain's.
pub fn least_sum_law()
    ensures { LeastSumLaw }
{}
