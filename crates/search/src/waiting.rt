// The places that wait, in the queue that their table keeps.
ghost use Rattle.std.specs.Prelude.{◌≡◌, ◌<◌, length};
ghost use Rattle.queue.specs.Calls.{Empty, Low, SmallestIs};
ghost use Rattle.queue.specs.Keys.{key_cmp};
ghost use Rattle.queue.specs.Sound.{Sound};
ghost use Rattle.search.specs.Queued.{Kept};

use queue::entry::Entry;
use queue::key::Key;
use queue::queue::Queue;

// No place waits.
pub(crate) fn none_waits(entries: &mut [Entry<Key>])
    ensures { Empty key_cmp entries.new }
{
    let _ = Queue::empty(entries);
}

// A place waits under this key, or does not wait.
pub(crate) fn waits(entries: &mut [Entry<Key>], p: u32, key: Option<Key>)
    ensures { Sound key_cmp entries.old → Low entries.old → p < length entries.old → Kept p key entries.old entries.new }
{
    let mut queue = Queue::resume_exact(entries);
    match key {
        Some(key) => {
            let _ = queue.put(p, key);
        }
        None => {
            let _ = queue.withdraw(p);
        }
    }
}

// The place that waits under the smallest key.
pub(crate) fn first_waiting(entries: &mut [Entry<Key>]) -> Option<(u32, Key)>
    ensures smallest { SmallestIs key_cmp entries.old result }
    ensures same { entries.new ≡ entries.old }
{
    Queue::resume(entries).smallest()
}
