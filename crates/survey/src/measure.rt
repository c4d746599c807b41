// Measuring in tables that fit exactly.
ghost use Rattle.std.specs.Prelude.{◌≡◌, ◌<◌, ◌≤◌, ℕ, length, MatchOption, slice_index};
ghost use Rattle.survey.specs.Surveys.{HandedOver, Measured};
ghost use Rattle.terms.specs.Amounts.{far};

use crate::labels::Labels;
use crate::task::Task;
use queue::entry::Entry;
use terms::amount::FAR;
use terms::refusal::Refusal;

// The lowest place without a sum.
fn first_far(sums: &[u32]) -> Option<usize>
    ensures { MatchOption result ((p : ℕ) → p < length sums.now → slice_index sums.now p < far) (λ p. (p < length sums.now) × (far ≤ slice_index sums.now p) × ((q : ℕ) → q < p → slice_index sums.now q < far)) }
{
    sums.iter().position(|sum| *sum >= FAR)
}

// Hands the sums over as heights, unless a place has none.
fn hand_over(sums: &[u32], heights: &mut [u32]) -> Result<(), Refusal>
    requires size { length heights.old ≡ length sums.now }
    requires few { length sums.now ≤ 16384 }
    ensures { HandedOver sums.now heights.old heights.new result }
{
    match first_far(sums) {
        Some(place) => Err(Refusal::NotReached(place as u32)),
        None => {
            heights.copy_from_slice(sums);
            Ok(())
        }
    }
}

// Measures, and writes the heights where every place has a sum.
pub(crate) fn measure(
    task: &Task,
    sums: &mut [u32],
    queue: &mut [Entry<u32>],
    heights: &mut [u32],
) -> Result<(), Refusal>
    requires sums { length sums.old ≡ task.now.net.places }
    requires slots { length queue.old ≡ task.now.net.places }
    requires heights { length heights.old ≡ task.now.net.places }
    ensures { Measured task.now.from task.now.net.places task.now.net.arcs.now heights.old heights.new result }
{
    let mut labels = Labels::begin(task, sums, queue);
    labels.spread(task);
    hand_over(labels.sums(), heights)
}
