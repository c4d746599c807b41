// Where a number stands in the table, and where there is room for one.
ghost use Rattle.std.specs.Prelude.{◌≡◌, ℕ, ◌%◌, ◌<◌, length, MatchOption};
ghost use Rattle.queue.specs.Sound.{Chosen, Found, Marked, Room, Scanned};

use crate::entry::Entry;

// The home of a number: the slot where it stands as long as that is free. A table without slots has none.
fn home_of(slots: usize, number: u32) -> Option<usize>
    ensures { MatchOption result (slots ≡ 0) (λ home. (home < slots) × (home ≡ number % slots)) }
{
    let n = number as usize;
    if n < slots {
        Some(n)
    } else {
        n.checked_rem(slots)
    }
}

// The slot that holds the number: its home, or where its home is marked any other.
pub(crate) fn find<K>(es: &[Entry<K>], number: u32) -> Option<usize>
    ensures { Found es.now number result }
{
    let home = home_of(es.len(), number)?;
    if es[home].holds(number) {
        Some(home)
    } else if es[home].is_strayed() {
        es.iter().position(|e| e.holds(number))
    } else {
        None
    }
}

// A free slot: the home of the number if that is free, else any other.
fn find_free<K>(es: &[Entry<K>], number: u32) -> Option<usize>
    ensures { Room es.now result }
{
    let home = home_of(es.len(), number)?;
    if es[home].is_free() {
        Some(home)
    } else {
        es.iter().position(|e| e.is_free())
    }
}

// Looks at every slot for the number, and else for a free one.
fn scan_both<K>(es: &[Entry<K>], number: u32) -> Option<usize>
    ensures { Scanned es.now number result }
{
    let mut free = None;
    for (slot, e) in es.iter().enumerate() {
        if e.is_free() {
            free = Some(slot);
        } else if e.holds(number) {
            return Some(slot);
        }
    }
    free
}

// The slot that a key under the number is to take: the one that holds the number, else a free one.
pub(crate) fn choose<K>(es: &[Entry<K>], number: u32) -> Option<usize>
    ensures { Chosen es.now number result }
{
    let home = home_of(es.len(), number)?;
    if es[home].holds(number) {
        Some(home)
    } else if es[home].is_strayed() {
        scan_both(es, number)
    } else {
        find_free(es, number)
    }
}

// Marks the home of a number that is to stand in another slot.
pub(crate) fn mark<K>(es: &mut [Entry<K>], slot: usize, number: u32)
    requires { slot < length es.old }
    ensures { Marked slot number es.old es.new }
{
    if let Some(home) = home_of(es.len(), number)
        && home != slot
    {
        es[home].stray();
    }
}
