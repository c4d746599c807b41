// A survey under way: each place's sum so far, and the queue of the places to go on from.
ghost use Rattle.std.specs.Prelude.{◌≡◌, ◌<◌, ◌≤◌, ℕ, List, [], ◌∷◌, length, slice_index};
ghost use Rattle.arcs.specs.Tables.{arc_at};
ghost use Rattle.ground.specs.Questions.{arcs_from};
ghost use Rattle.survey.specs.Sums.{Surveyed};
ghost use Rattle.terms.specs.Amounts.{far};

use crate::task::Task;
use queue::compare::Exact;
use queue::entry::Entry;
use queue::queue::Queue;
use terms::amount::{FAR, capped_sum};

#[derive(Drop)]
pub(crate) struct Labels<'t> {
    sums: &'t mut [u32],
    queue: Queue<'t, u32, Exact>,
    ghost slots: { length queue.entries.now ≡ length sums.now },
}

impl<'t> Labels<'t> {
    ghost use Rattle.survey.specs.declared.task.Task.{Task};
    ghost use Rattle.survey.specs.Underway.{ground_of, Advanced, TakenUp, Underway};

    // A survey that begins: every sum is Far but that of the place to measure from, which alone is queued.
    pub(crate) fn begin(
        task: &Task,
        sums: &'t mut [u32],
        entries: &'t mut [Entry<u32>],
    ) -> Labels<'t>
        requires sums { length sums.old ≡ task.now.net.places }
        requires slots { length entries.old ≡ task.now.net.places }
        ensures { Underway task.now [] result }
    {
        sums.fill(FAR);
        sums[task.from as usize] = 0;
        let mut queue = Queue::empty_exact(entries);
        let _ = queue.put(task.from, 0);
        Labels { sums, queue }
    }

    // Lowers the sum of an arc's head, and takes the head up anew, where the way over the arc is shorter.
    fn relax(&mut self, task: &Task, j: u32)
        requires there { j < length task.now.net.arcs.now }
        requires size { length self.old.sums.now ≡ task.now.net.places }
        ensures falls { (p : ℕ) → slice_index self.new.sums.now p ≤ slice_index self.old.sums.now p }
        ensures done { (pending : List ℕ) → Underway task.now (j ∷ pending) self.old → slice_index self.old.sums.now (arc_at task.now.net.arcs.now j).tail < far → Advanced task.now pending self.old self.new }
    {
        let arc = task.net.arcs[j as usize];
        let next = capped_sum(self.sums[arc.tail as usize], arc.least);
        if next < self.sums[arc.head as usize] {
            self.sums[arc.head as usize] = next;
            let _ = self.queue.put(arc.head, next);
        }
    }

    // Relaxes every arc that leaves a place.
    fn settle(&mut self, task: &Task, place: u32)
        requires underway { Underway task.now (arcs_from (ground_of task.now) place) self.old }
        requires near { slice_index self.old.sums.now place < far }
        ensures { Advanced task.now [] self.old self.new }
    {
        for j in task.leaving.at(place as usize) {
            self.relax(task, *j);
        }
    }

    // Takes up the queued place with the least sum.
    fn take_up(&mut self) -> Option<u32>
        ensures { (task : Task) → TakenUp task self.old self.new result }
    {
        let (place, _) = self.queue.take_smallest()?;
        Some(place)
    }

    // Goes on until no place is queued: every sum is then the least, or Far where no chain leads.
    pub(crate) fn spread(&mut self, task: &Task)
        requires { Underway task.now [] self.old }
        ensures { Surveyed (ground_of task.now) task.now.from self.new.sums.now }
    {
        while let Some(place) = self.take_up() {
            self.settle(task, place);
        }
    }

    // The sums so far.
    pub(crate) fn sums(&self) -> &[u32]
        ensures { result.now ≡ self.now.sums.now }
    {
        self.sums
    }
}
