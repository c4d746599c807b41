// Survey.
ghost use Rattle.std.specs.Prelude.{◌≡◌, IfOk, OnOk, length};
ghost use Rattle.arcs.specs.Index.{SameFrom};
ghost use Rattle.roads.specs.Loads.{Accepted, Fits as LoadFits, Own};
ghost use Rattle.survey.specs.Answers.{Answered};
ghost use Rattle.survey.specs.Surveys.{Judged, Ready};
ghost use Rattle.survey.specs.Workings.{SameNames, Wiped};

use crate::measure::measure;
use crate::task::Task;
use crate::working::Working;
use arcs::lists::Index;
use arcs::net::Net;
use ground::end::End;
use terms::arc::Arc;
use terms::refusal::Refusal;

// Tries the reasons to decline before anything is measured, the topmost first, and answers the net of the arcs.
fn judge<'n>(
    from: u32,
    places: u32,
    arcs: &'n [Arc],
    heights: &[u32],
    work: &Working,
) -> Result<Net<'n>, Refusal>
    ensures judged { Judged from places arcs.now heights.now work.now result }
    ensures net { IfOk result (λ net. (net.places ≡ places) × (net.arcs.now ≡ arcs.now)) }
{
    if from >= places {
        return Err(Refusal::NoSuchPlace);
    }
    let n = places as usize;
    if n > heights.len() || !work.has_room(n, arcs.len()) {
        return Err(Refusal::TableShort);
    }
    let net = Net::new(n, arcs)?;
    if n > 16_384 || arcs.len() > 131_072 {
        return Err(Refusal::Outside);
    }
    Ok(net)
}

// Writes as each place's height how far it is from one of them: its least sum of least costs. A decline leaves the
// heights; once there was something to measure, the working table is wiped as far as needed.
pub fn survey(
    from: u32,
    places: u32,
    arcs: &[Arc],
    heights: &mut [u32],
    work: &mut Working,
) -> Result<(), Refusal>
    ensures answer { Answered from places arcs.now heights.old heights.new work.old result }
    ensures beyond { SameFrom places heights.old heights.new }
    ensures wiped { Ready from places arcs.now heights.old work.old → Wiped places (length arcs.now) work.old work.new }
    ensures kept { (Ready from places arcs.now heights.old work.old → ⊥) → work.new ≡ work.old }
    ensures same { SameNames work.old work.new }
    ensures law { OnOk result ((own : Own) → LoadFits places arcs.now heights.new own → Accepted places arcs.now heights.new own) }
{
    let net = judge(from, places, arcs, heights, work)?;
    let n = places as usize;
    let mut leaving = Index::empty(work.ends, work.order);
    leaving.fill(End::Tail, &net);
    let task = Task {
        from,
        net,
        leaving: &leaving,
    };
    let answer = measure(
        &task,
        &mut work.sums[..n],
        &mut work.queue[..n],
        &mut heights[..n],
    );
    work.wipe(n, arcs.len());
    answer
}
